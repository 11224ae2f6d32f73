// The channel of the access field.
ghost use Rattle.std.specs.Prelude.{◌≡◌, ◌≤◌, ◌<◌, ◌*◌, ◌^◌, [], ℕ, length};
ghost use Rattle.tetra_bits.specs.Parts.{InParts};
ghost use Rattle.tetra_bits.specs.Soft.{AllWithin};
ghost use Rattle.tetra_channels.specs.Channels.{access_bits};
ghost use Rattle.tetra_channels.specs.Fields.{access_reading};
ghost use Rattle.tetra_channels.specs.Laws.{UndamagedAccessIsRead};

use tetra_bits::{Bits, Mark, Outcome, Reading, Soft};
use tetra_rm::{AccessCode, Rows, encode, message_bits, undamaged_arrives};
use tetra_scramble::{Key, flip_bits_in_place, flipped_back, stays_undamaged};

/// AACH: a message of 14 bits, of which 30 are sent (EN 300 392-2 clause 8.3.1.1; the rows of its code are given).
pub struct Aach;

impl Aach {
    /// The type-5 bits of a message below 16,384: its word of the access code, scrambled from key bit 1 on. There are 30.
    pub fn encode(rows: &Rows, message: u16, key: &Key) -> Bits
        requires { message < 2 ^ 14 }
        ensures bits { result ≡ access_bits rows.now.0 key.now message }
        ensures size { length result ≡ 30 }
    {
        let mut bits = encode(rows, message);
        flip_bits_in_place(&mut bits, key, 1);
        bits
    }

    /// What is read over 30 values that are descrambled: the first-least message of the access code, unchecked, and its
    /// metric. There are no potentials.
    pub fn decode2(code: &AccessCode, soft: &Soft) -> Reading
        requires { length soft.now ≡ 30 }
        ensures reading { result ≡ access_reading code.now.0 soft.now }
        ensures size { length result.bits ≡ 14 }
        ensures within { (top : ℕ) → AllWithin top soft.now → result.metric ≤ top * 30 }
    {
        let read = code.decode(soft);
        Reading {
            mark: Mark::Unchecked,
            metric: read.metric,
            bits: message_bits(read.message),
            potentials: None,
        }
    }

    /// The same in parts: the message, 14 bits, over the bits that are there, and the mark and the metric as the answer.
    pub fn decode2_into(code: &AccessCode, soft: &Soft, message: &mut Bits) -> Outcome
        requires { length soft.now ≡ 30 }
        ensures { InParts (access_reading code.now.0 soft.now) result message.new [] }
    {
        let read = code.decode(soft);
        *message = message_bits(read.message);
        Outcome {
            mark: Mark::Unchecked,
            metric: read.metric,
        }
    }

    /// Values that have the signs of the type-5 bits of a message, none of them 0, are read as that message.
    pub fn undamaged_is_read()
        ensures { UndamagedAccessIsRead }
    {
        flipped_back();
        stays_undamaged();
        undamaged_arrives();
    }
}
