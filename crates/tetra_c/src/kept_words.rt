// The slot words that a receiver for C keeps of a timeslot.
ghost use Rattle.std.specs.Prelude.{◌≡◌, ◌++◌, ◌∷◌, [], ℤ, List, length, IsTrue};
ghost use Rattle.tetra_diag.specs.Diagonal.{IsDepth, Fills, gathered};
ghost use Rattle.tetra_diag.specs.Ring.{Puts, turned};
ghost use Rattle.tetra_c.specs.KeptWords.{word_values, kept_words, KeepsLast};
ghost use Rattle.tetra_c.specs.Rings.{is_ring};

use crate::rings::is_ring;
use crate::soft::clamped;
use tetra_bits::Soft;
use tetra_diag::{WordRow, gather_ring};
use tetra_session::Gathers;

/// A slot word: 432 values, of which -128 is read as -127.
#[repr(C)]
#[derive(Clone, Copy)]
pub struct TetraKeptWord {
    pub values: [i8; 432],
}

/// The last slot words of a timeslot: `count` of them, as many as there are slots over which its mode spreads a block, or
/// fewer at the beginning. The oldest stands at `oldest`, and the next ones behind it, and then from the first place on.
/// Where the mode spreads none, nothing is looked at.
#[repr(C)]
#[derive(Clone, Copy)]
pub struct TetraKeptWords {
    pub count: u8,
    pub oldest: u8,
    pub words: [TetraKeptWord; 8],
}

impl WordRow for TetraKeptWord {
    ghost use Rattle.tetra_c.specs.KeptWords.{word_values};

    ghost values = { word_values };

    fn value(&self, i: usize) -> i16 {
        clamped(self.values[i])
    }
}

impl TetraKeptWord {
    /// Writes the values of a slot word.
    fn put(&mut self, word: &Soft)
        requires { length word.now ≡ 432 }
        ensures { word_values self.new ≡ word.now }
    {
        for i in 0..432usize {
            self.values[i] = word.get(i) as i8;
        }
    }
}

impl TetraKeptWords {
    /// Begins anew: no word is kept.
    pub fn clear(&mut self)
        ensures count { self.new.count ≡ 0 }
        ensures oldest { self.new.oldest ≡ 0 }
    {
        self.count = 0;
        self.oldest = 0;
    }

    /// Begins anew where what is kept is no ring of `N`.
    fn settle<const N: usize>(&mut self)
        requires { IsDepth N }
        ensures ring { IsTrue (is_ring N self.new.count self.new.oldest) }
        ensures kept { IsTrue (is_ring N self.old.count self.old.oldest) → self.new ≡ self.old }
    {
        if !is_ring(N, self.count, self.oldest) {
            self.clear();
        }
    }

    /// Keeps a word, in place of the oldest where there are `N`.
    fn keep<const N: usize>(&mut self, word: &Soft)
        requires depth { IsDepth N }
        requires ring { IsTrue (is_ring N self.old.count self.old.oldest) }
        requires size { length word.now ≡ 432 }
        ensures puts { Puts N self.old.oldest (kept_words self.old) word.now self.new.oldest (kept_words self.new) }
        ensures ring { IsTrue (is_ring N self.new.count self.new.oldest) }
    {
        let count = usize::from(self.count);
        if count < N {
            self.words[count].put(word);
            self.count += 1;
        } else {
            let oldest = usize::from(self.oldest);
            self.words[oldest].put(word);
            self.oldest = ((oldest + 1) % N) as u8;
        }
    }

    /// Fills `block` with the block that the last word of a ring of `N` completes: false and no change where there are
    /// fewer.
    fn complete<const N: usize>(&self, block: &mut Soft) -> bool
        requires depth { IsDepth N }
        requires ring { IsTrue (is_ring N self.now.count self.now.oldest) }
        ensures block { Fills (gathered N (turned self.now.oldest (kept_words self.now))) result block.old block.new }
        ensures size { IsTrue result → length block.new ≡ 432 }
    {
        gather_ring::<N, TetraKeptWord>(
            &self.words[..usize::from(self.count)],
            usize::from(self.oldest),
            block,
        )
    }

    /// Keeps a word, and fills `block` with the block that is complete with it: false and no change where none is. What is
    /// no ring is begun anew.
    fn push_over<const N: usize>(&mut self, word: &Soft, block: &mut Soft) -> bool
        requires depth { IsDepth N }
        requires size { length word.now ≡ 432 }
        ensures block { (words : List (List ℤ)) → KeepsLast N words self.old
            → Fills (gathered N (words ++ word.now ∷ [])) result block.old block.new }
        ensures stands { (words : List (List ℤ)) → KeepsLast N words self.old
            → KeepsLast N (words ++ word.now ∷ []) self.new }
        ensures size { IsTrue result → length block.new ≡ 432 }
    {
        self.settle::<N>();
        self.keep::<N>(word);
        self.complete::<N>(block)
    }
}

impl Gathers for TetraKeptWords {
    ghost use Rattle.tetra_c.specs.KeptWords.{KeptStands};
    ghost use Rattle.tetra_c.specs.lemmas.IdleWords.{idle_words};

    ghost Stands = { KeptStands };

    ghost idle = { idle_words };

    fn push_into(&mut self, depth: usize, word: &Soft, block: &mut Soft) -> bool {
        match depth {
            1 => self.push_over::<1>(word, block),
            4 => self.push_over::<4>(word, block),
            8 => self.push_over::<8>(word, block),
            _ => false,
        }
    }
}
