// Coded channels.
ghost use Rattle.std.specs.Prelude.{◌≡◌, ◌+◌, false, pos, length};
ghost use Rattle.tetra_bits.specs.Parts.{InParts};
ghost use Rattle.tetra_interleave.specs.Block.{block_place};
ghost use Rattle.tetra_interleave.specs.Placed.{IsPlaced};
ghost use Rattle.tetra_parity.specs.Marks.{IsMarked};
ghost use Rattle.tetra_puncture.specs.Best.{IsFirstLeast};
ghost use Rattle.tetra_scramble.specs.Flips.{flipped, turned};
ghost use Rattle.tetra_channels.specs.Channels.{IsChannel, coded, parity_of, type3_bits, type5_bits, word_bits, front_values};
ghost use Rattle.tetra_channels.specs.Fields.{coded_reading, IsSized, IsBoundedBy};
ghost use Rattle.tetra_channels.specs.Laws.{UndamagedIsRead, UndamagedWordArrives, UndamagedWordIsRead, NoneWrongWordArrives, NoneWrongWordIsRead};

use crate::message::parity_of;
use std::marker::PhantomData;
use tetra_bits::{Bits, Outcome, Reading, Soft, Table};
use tetra_interleave::{Block, blocks_are_one_to_one, stay_none_wrong, stay_undamaged};
use tetra_parity::{blocks_are_good, mark, with_parity};
use tetra_puncture::{P148, P292, Plan, TwoThirds, keep};
use tetra_scramble::{
    Key, flip_bits_in_place, flip_soft, flipped_back, stays_none_wrong, stays_undamaged,
};
use tetra_trellis::{solve, solve_table};

/// A coded channel (EN 300 392-2 clause 8): `PAR` parity bits, 16 or none, the plan `P` of its code,
/// which sends `K3` bits, and the block interleaver (`K3`, `A`) with `A INV mod K3 = 1`. A block has
/// `STEPS - PAR - 4` bits, a list of received values `K3`.
pub struct Coded<const PAR: usize, const K3: usize, const A: usize, const INV: usize, P> {
    plan: PhantomData<P>,
}

/// BSCH: blocks of 60 bits, 120 are sent.
pub type Bsch = Coded<16, 120, 11, 11, TwoThirds<80, 120>>;

/// SCH/HU: blocks of 92 bits, 168 are sent.
pub type Hu = Coded<16, 168, 13, 13, TwoThirds<112, 168>>;

/// SCH/HD, BNCH and STCH: blocks of 124 bits, 216 are sent.
pub type Half = Coded<16, 216, 101, 77, TwoThirds<144, 216>>;

/// SCH/F: blocks of 268 bits, 432 are sent.
pub type Full = Coded<16, 432, 103, 151, TwoThirds<288, 432>>;

/// TCH/4.8: blocks of 288 bits without parity, 432 are sent, spread over one, four or eight slots.
pub type Data48 = Coded<0, 432, 103, 151, P292>;

/// TCH/2.4: blocks of 144 bits without parity, 432 are sent, spread over one, four or eight slots.
pub type Data24 = Coded<0, 432, 103, 151, P148>;

impl<const PAR: usize, const K3: usize, const A: usize, const INV: usize, P: Plan> Coded<
    PAR,
    K3,
    A,
    INV,
    P,
> {
    /// The type-3 bits of a block: its parity and four tail bits put behind it, coded and punctured. There are `K3`.
    pub fn type3(block: &Bits) -> Bits
        requires channel { IsChannel P.IsSound PAR K3 A INV P.plan }
        requires size { length block.now + PAR + 4 ≡ P.STEPS }
        ensures bits { result ≡ type3_bits (coded PAR A P.plan) block.now }
        ensures size { length result ≡ K3 }
    {
        keep::<P>(&with_parity(parity_of::<PAR>(), block))
    }

    /// The type-5 bits of a block: its type-3 bits interleaved, and scrambled from key bit 1 on. There are `K3`.
    pub fn encode(block: &Bits, key: &Key) -> Bits
        requires channel { IsChannel P.IsSound PAR K3 A INV P.plan }
        requires size { length block.now + PAR + 4 ≡ P.STEPS }
        ensures bits { result ≡ type5_bits (coded PAR A P.plan) key.now block.now }
        ensures placed { IsPlaced false K3 (block_place K3 A) (type3_bits (coded PAR A P.plan) block.now)
            (flipped result key.now 1) }
        ensures size { length result ≡ K3 }
    {
        Self::encode3(&Self::type3(block), key)
    }

    /// The type-5 bits of a word of `K3` type-3 bits, as the slot words of protected data are: interleaved, and
    /// scrambled from key bit 1 on. There are `K3`.
    pub fn encode3(word: &Bits, key: &Key) -> Bits
        requires channel { IsChannel P.IsSound PAR K3 A INV P.plan }
        requires size { length word.now ≡ K3 }
        ensures bits { result ≡ word_bits (coded PAR A P.plan) key.now word.now }
        ensures placed { IsPlaced false K3 (block_place K3 A) word.now (flipped result key.now 1) }
        ensures size { length result ≡ K3 }
    {
        let mut bits = Block::<K3, A, INV>::bits_out(word);
        flip_bits_in_place(&mut bits, key, 1);
        bits
    }

    /// Received type-5 values in the order of type-3 bits: descrambled, and the interleaver undone.
    pub fn front(soft: &Soft, key: &Key) -> Soft
        requires channel { IsChannel P.IsSound PAR K3 A INV P.plan }
        requires size { length soft.now ≡ K3 }
        ensures values { result ≡ front_values (coded PAR A P.plan) key.now soft.now }
        ensures placed { IsPlaced (pos 0) K3 (block_place K3 A) result (turned soft.now key.now 1) }
        ensures size { length result ≡ K3 }
    {
        let mut values = Soft::new();
        Self::front_into(soft, key, &mut values);
        values
    }

    /// The same into a list that is there.
    pub fn front_into(soft: &Soft, key: &Key, values: &mut Soft)
        requires channel { IsChannel P.IsSound PAR K3 A INV P.plan }
        requires size { length soft.now ≡ K3 }
        ensures values { values.new ≡ front_values (coded PAR A P.plan) key.now soft.now }
        ensures placed { IsPlaced (pos 0) K3 (block_place K3 A) values.new (turned soft.now key.now 1) }
        ensures size { length values.new ≡ K3 }
    {
        Block::<K3, A, INV>::soft_back_into(&flip_soft(soft, key, 1), values);
    }

    /// What is read over `K3` values in the order of type-3 bits: the first-least message of the code, its metric, and
    /// the costs to go. The mark is Good where parity holds on the message, else Bad, and Unchecked
    /// where the channel has no parity; parity plays no part in the choice.
    pub fn decode3(soft: &Soft) -> Reading
        requires channel { IsChannel P.IsSound PAR K3 A INV P.plan }
        requires size { length soft.now ≡ K3 }
        ensures reading { result ≡ coded_reading (coded PAR A P.plan) soft.now }
        ensures first_least { IsFirstLeast P.plan soft.now result.bits }
        ensures marked { IsMarked (parity_of PAR) result.mark result.bits }
        ensures sized { IsSized P.plan result }
        ensures bounded { IsBoundedBy P.plan soft.now result }
    {
        let solved = solve::<P>(soft);
        Reading {
            mark: mark(parity_of::<PAR>(), &solved.message),
            metric: solved.metric,
            bits: solved.message,
            potentials: Some(solved.potentials),
        }
    }

    /// The same in parts, each over what is there: the message, `STEPS - 4` bits, the costs to go, `STEPS + 1` rows, into a
    /// table, and the mark and the metric as the answer.
    pub fn decode3_into<T: Table>(soft: &Soft, message: &mut Bits, table: &mut T) -> Outcome
        requires channel { IsChannel P.IsSound PAR K3 A INV P.plan }
        requires size { length soft.now ≡ K3 }
        ensures { InParts (coded_reading (coded PAR A P.plan) soft.now) result message.new (T.rows_of table.new) }
    {
        let metric = solve_table::<P, T>(soft, message, table);
        Outcome {
            mark: mark(parity_of::<PAR>(), message),
            metric,
        }
    }

    /// Values that have the signs of the type-5 bits of a block, none of them 0, are read as that block
    /// with its parity, with metric 0 and, where the channel has parity, Good.
    pub fn undamaged_is_read()
        requires { IsChannel P.IsSound PAR K3 A INV P.plan }
        ensures { UndamagedIsRead (coded PAR A P.plan) }
    {
        flipped_back();
        stays_undamaged();
        stay_undamaged();
        blocks_are_one_to_one();
        blocks_are_good();
    }

    /// Values that have the signs of the type-3 bits of a block, none of them 0, are read as that block in the same way.
    pub fn undamaged_word_is_read()
        requires { IsChannel P.IsSound PAR K3 A INV P.plan }
        ensures { UndamagedWordIsRead (coded PAR A P.plan) }
    {
        blocks_are_good();
    }

    /// Values that have the signs of a word as it is sent, none of them 0, have those of the word in the order of
    /// type-3 bits.
    pub fn undamaged_word_arrives()
        requires { IsChannel P.IsSound PAR K3 A INV P.plan }
        ensures { UndamagedWordArrives (coded PAR A P.plan) }
    {
        flipped_back();
        stays_undamaged();
        stay_undamaged();
        blocks_are_one_to_one();
    }

    /// Values none of which has the wrong sign for the type-3 bits of a block, though some may be 0, are read as that
    /// block or as one that stands before it in bit order, with metric 0.
    pub fn none_wrong_word_is_read()
        requires { IsChannel P.IsSound PAR K3 A INV P.plan }
        ensures { NoneWrongWordIsRead (coded PAR A P.plan) }
    {}

    /// Values none of which has the wrong sign for a word as it is sent have no wrong sign for the word, in the order of
    /// type-3 bits.
    pub fn none_wrong_word_arrives()
        requires { IsChannel P.IsSound PAR K3 A INV P.plan }
        ensures { NoneWrongWordArrives (coded PAR A P.plan) }
    {
        flipped_back();
        stays_none_wrong();
        stay_none_wrong();
        blocks_are_one_to_one();
    }
}
