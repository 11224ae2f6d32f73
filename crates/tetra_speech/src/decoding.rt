// Soft values to frames.
ghost use Rattle.std.specs.Prelude.{◌≡◌, ◌≤◌, ◌+◌, length, take, drop};
ghost use Rattle.tetra_bits.specs.Parts.{InParts};
ghost use Rattle.tetra_bits.specs.Plain.{best_plain};
ghost use Rattle.tetra_speech.specs.Reading.{whole_reading, half_reading};
ghost use Rattle.tetra_speech.specs.Words.{whole_front, half_front};

use crate::frames::{half_bits_into, part, whole_bits_into};
use tetra_bits::{Bits, Outcome, Potentials, Reading, Soft, Table};
use tetra_interleave::Matrix;
use tetra_parity::{Parity, mark};
use tetra_puncture::{SpeechHalf, SpeechWhole};
use tetra_trellis::solve_table;

/// Received values of the 432 type-4 bits of a whole slot in the order of type-3 bits, into a list that is there.
pub fn whole_front_into(soft: &Soft, values: &mut Soft)
    requires { length soft.now ≡ 432 }
    ensures values { values.new ≡ whole_front soft.now }
    ensures size { length values.new ≡ 432 }
{
    Matrix::<24, 18>::soft_back_into(soft, values);
}

/// The same of the 216 of half a slot.
pub fn half_front_into(soft: &Soft, values: &mut Soft)
    requires { length soft.now ≡ 216 }
    ensures values { values.new ≡ half_front soft.now }
    ensures size { length values.new ≡ 216 }
{
    Matrix::<24, 9>::soft_back_into(soft, values);
}

/// What is read over the 432 type-3 values of a whole slot: frames A and B and 8 parity bits. The uncoded bits are read
/// by their signs; the coded ones are the first-least message in coding order, whose metric and costs to go the reading
/// has. The mark is Good where the parity of class 2 holds, else Bad. This project's own.
pub fn decode_whole(soft: &Soft) -> Reading
    requires { length soft.now ≡ 432 }
    ensures reading { result ≡ whole_reading soft.now }
    ensures size { length result.bits ≡ 282 }
{
    let mut bits = Bits::new();
    let mut potentials = Potentials::new();
    let outcome = decode_whole_into(soft, &mut bits, &mut potentials);
    Reading {
        mark: outcome.mark,
        metric: outcome.metric,
        bits,
        potentials: Some(potentials),
    }
}

/// The same in parts, each over what is there: the message, 282 bits, the costs to go, 185 rows, into a table, and the mark
/// and the metric as the answer.
pub fn decode_whole_into<T: Table>(soft: &Soft, message: &mut Bits, table: &mut T) -> Outcome
    requires { length soft.now ≡ 432 }
    ensures parts { InParts (whole_reading soft.now) result message.new (T.rows_of table.new) }
    ensures size { length message.new ≡ 282 }
{
    let mut coded = Bits::new();
    let metric = solve_table::<SpeechWhole, T>(&values(soft, 102, 330), &mut coded, table);
    whole_bits_into(&plain_front(soft, 102), &coded, message);
    Outcome {
        mark: mark(Parity::Eight, &part(&coded, 112, 68)),
        metric,
    }
}

/// What is read over the 216 type-3 values of half a slot: a frame and 4 parity bits, in the same way.
pub fn decode_half(soft: &Soft) -> Reading
    requires { length soft.now ≡ 216 }
    ensures reading { result ≡ half_reading soft.now }
    ensures size { length result.bits ≡ 141 }
{
    let mut bits = Bits::new();
    let mut potentials = Potentials::new();
    let outcome = decode_half_into(soft, &mut bits, &mut potentials);
    Reading {
        mark: outcome.mark,
        metric: outcome.metric,
        bits,
        potentials: Some(potentials),
    }
}

/// The same in parts, each over what is there: the message, 141 bits, the costs to go, 95 rows, into a table, and the mark
/// and the metric as the answer.
pub fn decode_half_into<T: Table>(soft: &Soft, message: &mut Bits, table: &mut T) -> Outcome
    requires { length soft.now ≡ 216 }
    ensures parts { InParts (half_reading soft.now) result message.new (T.rows_of table.new) }
    ensures size { length message.new ≡ 141 }
{
    let mut coded = Bits::new();
    let metric = solve_table::<SpeechHalf, T>(&values(soft, 51, 165), &mut coded, table);
    half_bits_into(&plain_front(soft, 51), &coded, message);
    Outcome {
        mark: mark(Parity::Four, &part(&coded, 56, 34)),
        metric,
    }
}

/// So many values from the one at `from` on, which counts from 0.
pub fn values(soft: &Soft, from: usize, count: usize) -> Soft
    requires { from + count ≤ length soft.now }
    ensures values { result ≡ take count (drop from soft.now) }
    ensures size { length result ≡ count }
{
    let _len = soft.len();
    let mut part = Soft::new();
    part.resize(count);
    for i in 0..count {
        part.set(i, soft.get(from + i));
    }
    part
}

/// So many values from the first on, read as plain bits: 1 where a value is negative, else 0.
fn plain_front(soft: &Soft, count: usize) -> Bits
    requires { count ≤ length soft.now }
    ensures bits { result ≡ best_plain (take count soft.now) }
    ensures size { length result ≡ count }
{
    let _len = soft.len();
    let mut bits = Bits::zeros(count);
    for i in 0..count {
        bits.set(i, soft.get(i) < 0);
    }
    bits
}
