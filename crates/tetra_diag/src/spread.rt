// Spreading blocks over slots.
ghost use Rattle.std.specs.Prelude.{◌≡◌, ◌<◌, ◌≤◌, ◌+◌, ◌*◌, ◌/◌, ◌++◌, ◌∷◌, [], Bool, false, List, length, map, All};
ghost use Rattle.tetra_bits.specs.lemmas.InPlace.{Begins};
ghost use Rattle.tetra_diag.specs.Diagonal.{IsDepth, SpreadStands, spread_bit, spread_word};
ghost use Rattle.tetra_diag.specs.Ring.{Puts, turned};

use crate::ring::place;
use crate::rows::BlockRow;
use arrayvec::ArrayVec;
use std::marker::Model;
use tetra_bits::Bits;

/// The last blocks of a timeslot, of which slot words still take bits: at most `N`, which is 1, 4 or 8. They stand in
/// fixed places, a new one in place of the oldest. Seen as the list of them, the oldest first.
#[derive(Drop)]
pub struct Spread<const N: usize> {
    blocks: ArrayVec<Bits, N>,
    oldest: usize,
}

impl<const N: usize> Model for Spread<N> {
    ghost use Rattle.std.specs.Prelude.{◌≡◌, ◌≤◌, List, Bool, length, All, IsTrue};
    ghost use Rattle.tetra_diag.specs.Diagonal.{IsDepth};
    ghost use Rattle.tetra_diag.specs.Ring.{IsRing, turned};

    ghost Value = { List (List Bool) };

    ghost view = { λ s. turned s.oldest s.blocks.items };

    ghost invariant = { λ s. IsDepth N × IsRing N s.oldest s.blocks.items × All (λ b. length b ≡ 432) s.blocks.items };
}

impl<const N: usize> Spread<N> {
    /// No block yet.
    pub fn new() -> Spread<N>
        requires { IsDepth N }
        ensures { SpreadStands N [] result }
    {
        Spread {
            blocks: ArrayVec::new(),
            oldest: 0,
        }
    }

    /// Takes the next block, of 432 bits, and gives its slot word, of 432 bits, before the block interleaver: EN 300
    /// 392-2 clause 8.2.4.2.
    pub fn push(&mut self, block: &Bits) -> Bits
        requires { length block.now ≡ 432 }
        ensures word { (blocks : List (List Bool)) → SpreadStands N blocks self.old
            → result ≡ spread_word N (blocks ++ block.now ∷ []) }
        ensures stands { (blocks : List (List Bool)) → SpreadStands N blocks self.old
            → SpreadStands N (blocks ++ block.now ∷ []) self.new }
        ensures size { length result ≡ 432 }
    {
        let mut word = Bits::new();
        self.push_into(block, &mut word);
        word
    }

    /// Takes the next block, and fills `word` with its slot word.
    pub fn push_into(&mut self, block: &Bits, word: &mut Bits)
        requires { length block.now ≡ 432 }
        ensures word { (blocks : List (List Bool)) → SpreadStands N blocks self.old
            → word.new ≡ spread_word N (blocks ++ block.now ∷ []) }
        ensures stands { (blocks : List (List Bool)) → SpreadStands N blocks self.old
            → SpreadStands N (blocks ++ block.now ∷ []) self.new }
        ensures size { length word.new ≡ 432 }
    {
        self.oldest = keep_block(&mut self.blocks, self.oldest, block);
        spread_ring::<N, Bits>(self.blocks.as_slice(), self.oldest, word);
    }
}

/// Keeps `block` in a ring, in place of the oldest where it is full, and answers where the oldest then is.
fn keep_block<const N: usize>(blocks: &mut ArrayVec<Bits, N>, oldest: usize, block: &Bits) -> usize
    requires { oldest < N }
    ensures { Puts N oldest blocks.old.items block.now result blocks.new.items }
{
    if blocks.is_full() {
        refill(&mut blocks.as_mut_slice()[oldest], block);
        (oldest + 1) % N
    } else {
        blocks.push(block.copy());
        oldest
    }
}

/// Fills `kept` with the bits of `block`.
fn refill(kept: &mut Bits, block: &Bits)
    ensures { kept.new ≡ block.now }
{
    *kept = block.copy();
}

/// Fills `word` with the slot word, of 432 bits, of the last block of a ring of at most `N` blocks, which is 1, 4 or 8. The
/// blocks have 432 bits each, and `oldest` is where the oldest stands.
pub fn spread_ring<const N: usize, B: BlockRow>(blocks: &[B], oldest: usize, word: &mut Bits)
    requires depth { IsDepth N }
    requires size { All (λ b. length (B.bits b) ≡ 432) blocks.now }
    requires few { length blocks.now ≤ N }
    requires low { oldest ≤ length blocks.now }
    ensures word { word.new ≡ spread_word N (turned oldest (map B.bits blocks.now)) }
    ensures size { length word.new ≡ 432 }
{
    word.resize(432);
    for j in 0..N {
        fill_part::<N, B>(blocks, oldest, j, word);
    }
}

/// Writes part `j` of the slot word, counted from 0: bits of the block that was pushed `j` before the last.
fn fill_part<const N: usize, B: BlockRow>(blocks: &[B], oldest: usize, j: usize, word: &mut Bits)
    requires depth { IsDepth N }
    requires size { All (λ b. length (B.bits b) ≡ 432) blocks.now }
    requires few { length blocks.now ≤ N }
    requires low { oldest ≤ length blocks.now }
    requires part { j < N }
    requires long { length word.old ≡ 432 }
    ensures size { length word.new ≡ 432 }
    ensures written { Begins (spread_bit N (turned oldest (map B.bits blocks.now))) false (j * (432 / N)) word.old
        → Begins (spread_bit N (turned oldest (map B.bits blocks.now))) false ((j + 1) * (432 / N)) word.new }
{
    for i in 0..432 / N {
        word.set(j * (432 / N) + i, bit_of::<N, B>(blocks, oldest, j, i));
    }
}

/// Bit `i` of part `j`, both counted from 0, of the slot word of the last block of a ring.
fn bit_of<const N: usize, B: BlockRow>(blocks: &[B], oldest: usize, j: usize, i: usize) -> bool
    requires depth { IsDepth N }
    requires size { All (λ b. length (B.bits b) ≡ 432) blocks.now }
    requires few { length blocks.now ≤ N }
    requires low { oldest ≤ length blocks.now }
    requires bit { i < 432 / N }
    ensures { result ≡ spread_bit N (turned oldest (map B.bits blocks.now)) (j * (432 / N) + i + 1) }
{
    if j < blocks.len() {
        let newest = blocks.len() - 1;
        blocks[place(oldest, newest - j, blocks.len())].bit(j + i * N)
    } else {
        false
    }
}
