// Gathering blocks from slots.
ghost use Rattle.std.specs.Prelude.{◌≡◌, ◌<◌, ◌≤◌, ◌+◌, ◌*◌, ◌/◌, ◌++◌, ◌∷◌, [], ℕ, ℤ, List, length, map, All, IsTrue, IfSome};
ghost use Rattle.tetra_bits.specs.Numbered.{numbered};
ghost use Rattle.tetra_bits.specs.Soft.{IsSoft, AllWithin};
ghost use Rattle.tetra_diag.specs.Diagonal.{IsDepth, GatherStands, gathered, gathered_value, AreGathered, Fills};
ghost use Rattle.tetra_diag.specs.Ring.{Puts, turned};

use crate::ring::place;
use crate::rows::WordRow;
use arrayvec::ArrayVec;
use std::marker::Model;
use tetra_bits::Soft;

/// The last slot words of a timeslot, in which blocks still have values: at most `N`, which is 1, 4 or 8. They stand in
/// fixed places, a new one in place of the oldest. Seen as the list of them, the oldest first.
#[derive(Drop)]
pub struct Gather<const N: usize> {
    words: ArrayVec<Soft, N>,
    oldest: usize,
}

impl<const N: usize> Model for Gather<N> {
    ghost use Rattle.std.specs.Prelude.{◌≡◌, ◌≤◌, List, ℤ, length, All, IsTrue};
    ghost use Rattle.tetra_diag.specs.Diagonal.{IsDepth};
    ghost use Rattle.tetra_diag.specs.Ring.{IsRing, turned};

    ghost Value = { List (List ℤ) };

    ghost view = { λ s. turned s.oldest s.words.items };

    ghost invariant = { λ s. IsDepth N × IsRing N s.oldest s.words.items × All (λ w. length w ≡ 432) s.words.items };
}

impl<const N: usize> Gather<N> {
    /// No word yet.
    pub fn new() -> Gather<N>
        requires { IsDepth N }
        ensures { GatherStands N [] result }
    {
        Gather {
            words: ArrayVec::new(),
            oldest: 0,
        }
    }

    /// Takes the next slot word, of 432 values behind the block interleaver, and gives the block that it completes, of
    /// 432 values: none in the first `N - 1` pushes, then block m - N + 1 at the push numbered m. This project's own.
    pub fn push(&mut self, word: &Soft) -> Option<Soft>
        requires { length word.now ≡ 432 }
        ensures block { (words : List (List ℤ)) → GatherStands N words self.old
            → result ≡ gathered N (words ++ word.now ∷ []) }
        ensures stands { (words : List (List ℤ)) → GatherStands N words self.old
            → GatherStands N (words ++ word.now ∷ []) self.new }
        ensures size { IfSome result (λ block. length block ≡ 432) }
        // Values from -top to top stay so.
        ensures within { (top : ℕ) (words : List (List ℤ)) → GatherStands N words self.old
            → All (AllWithin top) (words ++ word.now ∷ []) → IfSome result (AllWithin top) }
    {
        let mut block = Soft::new();
        if self.push_into(word, &mut block) {
            Some(block)
        } else {
            None
        }
    }

    /// Takes the next slot word, and fills `block` with the block that it completes: false and no change in the first
    /// `N - 1` pushes.
    pub fn push_into(&mut self, word: &Soft, block: &mut Soft) -> bool
        requires { length word.now ≡ 432 }
        ensures block { (words : List (List ℤ)) → GatherStands N words self.old
            → Fills (gathered N (words ++ word.now ∷ [])) result block.old block.new }
        ensures stands { (words : List (List ℤ)) → GatherStands N words self.old
            → GatherStands N (words ++ word.now ∷ []) self.new }
        ensures size { IsTrue result → length block.new ≡ 432 }
        ensures within { (top : ℕ) (words : List (List ℤ)) → GatherStands N words self.old
            → All (AllWithin top) (words ++ word.now ∷ []) → IsTrue result → AllWithin top block.new }
    {
        self.oldest = keep_word(&mut self.words, self.oldest, word);
        gather_ring::<N, Soft>(self.words.as_slice(), self.oldest, block)
    }
}

/// Keeps `word` in a ring, in place of the oldest where it is full, and answers where the oldest then is.
fn keep_word<const N: usize>(words: &mut ArrayVec<Soft, N>, oldest: usize, word: &Soft) -> usize
    requires { oldest < N }
    ensures { Puts N oldest words.old.items word.now result words.new.items }
{
    if words.is_full() {
        refill(&mut words.as_mut_slice()[oldest], word);
        (oldest + 1) % N
    } else {
        words.push(word.copy());
        oldest
    }
}

/// Fills `kept` with the values of `word`.
fn refill(kept: &mut Soft, word: &Soft)
    ensures { kept.new ≡ word.now }
{
    *kept = word.copy();
}

/// Fills `block` with the block of 432 values that the last word of a ring completes, where there are `N` words, which is
/// 1, 4 or 8; false and no change where there are fewer. The words have 432 values each, and `oldest` is where the oldest
/// stands.
pub fn gather_ring<const N: usize, W: WordRow>(words: &[W], oldest: usize, block: &mut Soft) -> bool
    requires depth { IsDepth N }
    requires size { All (λ w. length (W.values w) ≡ 432) words.now }
    requires few { length words.now ≤ N }
    requires low { oldest ≤ length words.now }
    ensures block { Fills (gathered N (turned oldest (map W.values words.now))) result block.old block.new }
    ensures size { IsTrue result → length block.new ≡ 432 }
{
    if words.len() < N {
        return false;
    }
    fill_block::<N, W>(words, oldest, block);
    true
}

/// Fills `block` with the block that a full ring of words completes.
fn fill_block<const N: usize, W: WordRow>(words: &[W], oldest: usize, block: &mut Soft)
    requires depth { IsDepth N }
    requires size { All (λ w. length (W.values w) ≡ 432) words.now }
    requires full { length words.now ≡ N }
    requires low { oldest ≤ length words.now }
    ensures value { block.new ≡ numbered (gathered_value N (turned oldest (map W.values words.now))) 432 }
    ensures size { length block.new ≡ 432 }
{
    block.resize(432);
    for j in 0..N {
        fill_places::<N, W>(words, oldest, j, block);
    }
}

/// Writes the values that a full ring of words has in word `j`, counted from the oldest on, at their places of the block:
/// `j`, `j + N` and so on, counted from 0.
fn fill_places<const N: usize, W: WordRow>(words: &[W], oldest: usize, j: usize, block: &mut Soft)
    requires depth { IsDepth N }
    requires size { All (λ w. length (W.values w) ≡ 432) words.now }
    requires full { length words.now ≡ N }
    requires low { oldest ≤ length words.now }
    requires word { j < N }
    requires long { length block.old ≡ 432 }
    ensures size { length block.new ≡ 432 }
    ensures written { AreGathered N (turned oldest (map W.values words.now)) (j * (432 / N)) block.old
        → AreGathered N (turned oldest (map W.values words.now)) ((j + 1) * (432 / N)) block.new }
{
    for i in 0..432 / N {
        block.set(i * N + j, value_of::<N, W>(words, oldest, j, i));
    }
}

/// The value at `i * N + j`, counted from 0, of the block that a full ring of words completes.
fn value_of<const N: usize, W: WordRow>(words: &[W], oldest: usize, j: usize, i: usize) -> i16
    requires depth { IsDepth N }
    requires size { All (λ w. length (W.values w) ≡ 432) words.now }
    requires full { length words.now ≡ N }
    requires low { oldest ≤ length words.now }
    requires word { j < N }
    requires place { i < 432 / N }
    ensures value { result ≡ gathered_value N (turned oldest (map W.values words.now)) (i * N + j + 1) }
    ensures soft { IsSoft result }
{
    words[place(oldest, j, words.len())].value(j * (432 / N) + i)
}
