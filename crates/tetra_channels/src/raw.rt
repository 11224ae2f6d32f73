// The channel without a code.
ghost use Rattle.std.specs.Prelude.{◌≡◌, [], length};
ghost use Rattle.tetra_bits.specs.Parts.{InParts};
ghost use Rattle.tetra_channels.specs.Channels.{raw_bits};
ghost use Rattle.tetra_channels.specs.Fields.{raw_reading};
ghost use Rattle.tetra_channels.specs.Laws.{UndamagedRawIsRead, NoneWrongRawIsRead};

use tetra_bits::{Bits, Mark, Outcome, Reading, Soft, read_plain};
use tetra_scramble::{Key, flip_bits, flipped_back, stays_none_wrong, stays_undamaged};

/// TCH/7.2: a block of 432 bits that is only scrambled (EN 300 392-2 clause 8).
pub struct Raw72;

impl Raw72 {
    /// The type-5 bits of a block of 432 bits: scrambled from key bit 1 on.
    #[tactic(auto, unfolding(crate::specs::Channels::raw_bits))]
    pub fn encode(block: &Bits, key: &Key) -> Bits
        requires { length block.now ≡ 432 }
        ensures bits { result ≡ raw_bits key.now block.now }
        ensures size { length result ≡ 432 }
    {
        flip_bits(block, key, 1)
    }

    /// What is read over 432 values that are descrambled: bit by bit, unchecked, with metric 0 and no potentials.
    #[tactic(auto, unfolding(crate::specs::Fields::raw_reading))]
    pub fn decode1(soft: &Soft) -> Reading
        requires { length soft.now ≡ 432 }
        ensures reading { result ≡ raw_reading soft.now }
        ensures size { length result.bits ≡ 432 }
    {
        Reading {
            mark: Mark::Unchecked,
            metric: 0,
            bits: read_plain(soft),
            potentials: None,
        }
    }

    /// The same in parts: the message, 432 bits, over the bits that are there, and the mark and the metric as the answer.
    #[tactic(auto, unfolding(crate::specs::Fields::raw_reading))]
    pub fn decode1_into(soft: &Soft, message: &mut Bits) -> Outcome
        requires { length soft.now ≡ 432 }
        ensures { InParts (raw_reading soft.now) result message.new [] }
    {
        *message = read_plain(soft);
        Outcome {
            mark: Mark::Unchecked,
            metric: 0,
        }
    }

    /// Values that have the signs of the type-5 bits of a block, none of them 0, are read as that block.
    pub fn undamaged_is_read()
        ensures { UndamagedRawIsRead }
    {
        flipped_back();
        stays_undamaged();
    }

    /// Values none of which has the wrong sign for the type-5 bits of a block, though some may be 0, are read as that
    /// block or as one that stands before it in bit order.
    pub fn none_wrong_is_read()
        ensures { NoneWrongRawIsRead }
    {
        flipped_back();
        stays_none_wrong();
    }
}
