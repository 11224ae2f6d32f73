// The blocks that a sender for C keeps of a timeslot.
ghost use Rattle.std.specs.Prelude.{◌≡◌, ◌≤◌, ◌++◌, ◌∷◌, [], Bool, List, length, IsTrue};
ghost use Rattle.tetra_c.specs.KeptBlocks.{kept_bits, kept_blocks, KeepsLast};
ghost use Rattle.tetra_c.specs.Rings.{is_ring};
ghost use Rattle.tetra_diag.specs.Diagonal.{IsDepth, spread_word};
ghost use Rattle.tetra_diag.specs.Ring.{Puts, turned};

use crate::bytes::put_bits;
use crate::rings::is_ring;
use tetra_bits::Bits;
use tetra_diag::{BlockRow, spread_ring};
use tetra_session::Spreads;

/// A block of 432 type-3 bits, one byte each: bit 1 exactly where it is 1.
#[repr(C)]
#[derive(Clone, Copy)]
pub struct TetraKeptBlock {
    pub bits: [u8; 432],
}

/// The last blocks of a timeslot: `count` of them, as many as there are slots over which its mode spreads a block, or
/// fewer at the beginning. The oldest stands at `oldest`, and the next ones behind it, and then from the first place on.
#[repr(C)]
#[derive(Clone, Copy)]
pub struct TetraKeptBlocks {
    pub count: u8,
    pub oldest: u8,
    pub blocks: [TetraKeptBlock; 8],
}

impl BlockRow for TetraKeptBlock {
    ghost use Rattle.tetra_c.specs.KeptBlocks.{kept_bits};

    ghost bits = { kept_bits };

    fn bit(&self, i: usize) -> bool {
        self.bits[i] == 1
    }
}

impl TetraKeptBlock {
    /// Writes the bits of a block.
    fn put(&mut self, block: &Bits)
        requires { length block.now ≡ 432 }
        ensures { kept_bits self.new ≡ block.now }
    {
        put_bits(block, &mut self.bits);
    }
}

impl TetraKeptBlocks {
    /// Begins anew: no block is kept.
    pub fn clear(&mut self)
        ensures count { self.new.count ≡ 0 }
        ensures oldest { self.new.oldest ≡ 0 }
    {
        self.count = 0;
        self.oldest = 0;
    }

    /// Begins anew where what is kept is no ring of `N`.
    fn settle<const N: usize>(&mut self)
        requires { IsDepth N }
        ensures ring { IsTrue (is_ring N self.new.count self.new.oldest) }
        ensures kept { IsTrue (is_ring N self.old.count self.old.oldest) → self.new ≡ self.old }
    {
        if !is_ring(N, self.count, self.oldest) {
            self.clear();
        }
    }

    /// Keeps a block, in place of the oldest where there are `N`.
    fn keep<const N: usize>(&mut self, block: &Bits)
        requires depth { IsDepth N }
        requires ring { IsTrue (is_ring N self.old.count self.old.oldest) }
        requires size { length block.now ≡ 432 }
        ensures puts { Puts N self.old.oldest (kept_blocks self.old) block.now self.new.oldest (kept_blocks self.new) }
        ensures ring { IsTrue (is_ring N self.new.count self.new.oldest) }
    {
        let count = usize::from(self.count);
        if count < N {
            self.blocks[count].put(block);
            self.count += 1;
        } else {
            let oldest = usize::from(self.oldest);
            self.blocks[oldest].put(block);
            self.oldest = ((oldest + 1) % N) as u8;
        }
    }

    /// Fills `word` with the slot word of the last block of a ring of `N`.
    fn fill_word<const N: usize>(&self, word: &mut Bits)
        requires depth { IsDepth N }
        requires ring { IsTrue (is_ring N self.now.count self.now.oldest) }
        ensures word { word.new ≡ spread_word N (turned self.now.oldest (kept_blocks self.now)) }
        ensures size { length word.new ≡ 432 }
    {
        spread_ring::<N, TetraKeptBlock>(
            &self.blocks[..usize::from(self.count)],
            usize::from(self.oldest),
            word,
        );
    }

    /// Keeps a block, and fills `word` with its slot word. What is no ring is begun anew.
    fn push_over<const N: usize>(&mut self, block: &Bits, word: &mut Bits)
        requires depth { IsDepth N }
        requires size { length block.now ≡ 432 }
        ensures word { (blocks : List (List Bool)) → KeepsLast N blocks self.old
            → word.new ≡ spread_word N (blocks ++ block.now ∷ []) }
        ensures stands { (blocks : List (List Bool)) → KeepsLast N blocks self.old
            → KeepsLast N (blocks ++ block.now ∷ []) self.new }
        ensures size { length word.new ≡ 432 }
    {
        self.settle::<N>();
        self.keep::<N>(block);
        self.fill_word::<N>(word);
    }
}

impl Spreads for TetraKeptBlocks {
    ghost use Rattle.tetra_c.specs.KeptBlocks.{KeptStands};
    ghost use Rattle.tetra_c.specs.lemmas.IdleBlocks.{idle_blocks};

    ghost Stands = { KeptStands };

    ghost idle = { idle_blocks };

    fn push_into(&mut self, depth: usize, block: &Bits, word: &mut Bits) {
        match depth {
            1 => self.push_over::<1>(block, word),
            4 => self.push_over::<4>(block, word),
            8 => self.push_over::<8>(block, word),
            _ => *word = block.copy(),
        }
    }
}
