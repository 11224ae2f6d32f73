//! A walk through the messages: each differs from the one before in one bit, and its metric follows from the costs of
//! the places that this bit changes.
ghost use Rattle.std.specs.Prelude.{◌≡◌, ◌<◌, ◌≤◌, ◌+◌, ◌-◌, ◌*◌, ◌^◌, ℕ, bit_xor, length, min, not};
ghost use Rattle.tetra_bits.specs.Cost.{cost, cost_at};
ghost use Rattle.tetra_bits.specs.Digits.{digits};
ghost use Rattle.tetra_bits.specs.Least.{FirstLeast};
ghost use Rattle.tetra_bits.specs.Order.{bit_at};
ghost use Rattle.tetra_bits.specs.Soft.{AllWithin, value_at};
ghost use Rattle.tetra_bits.specs.Sums.{add2};
ghost use Rattle.tetra_rm.specs.Code.{access_metric, best_access};
ghost use Rattle.tetra_rm.specs.Turning.{turned_message, is_changed, bit_at_place};

use crate::searching::RmReading;
use crate::table::Rows;
use crate::words::encode;
use tetra_bits::{Bits, Soft, cost};

/// Whether place `k` of the word, counted from 0, changes with message bit `bit`, counted from 1.
fn is_changed(rows: &Rows, bit: u8, k: usize) -> bool
    requires bit { (1 ≤ bit) × (bit ≤ 14) }
    requires place { k < 30 }
    ensures { result ≡ is_changed rows.now.0 bit k }
{
    let row = usize::from(bit) - 1;
    if k < 14 {
        k == row
    } else {
        (rows.0[row] >> (29 - k)) % 2 == 1
    }
}

/// The metric with the cost of place `k` as it is where the place is turned.
fn recosted(soft: &Soft, word: &Bits, k: usize, turn: bool, metric: u32) -> u32
    requires value { k < length soft.now }
    requires bit { k < length word.now }
    requires there { cost_at soft.now word.now k ≤ metric }
    requires room { metric + cost (value_at soft.now k) (not (bit_at word.now k)) < 2 ^ 32 }
    ensures { result + cost_at soft.now word.now k
        ≡ metric + cost (value_at soft.now k) (add2 (bit_at word.now k) turn) }
{
    if turn {
        metric - cost(soft.get(k), word.get(k)) + cost(soft.get(k), !word.get(k))
    } else {
        metric
    }
}

/// The metric of the word of the message in which bit `bit`, from 1 to 14, is turned, from the metric of the word of
/// the message. There are 30 values, and the message is below 16,384. This project's own.
pub fn turned(rows: &Rows, soft: &Soft, message: u16, metric: u32, bit: u8) -> u32
    requires values { length soft.now ≡ 30 }
    requires message { message < 16384 }
    requires bit { (1 ≤ bit) × (bit ≤ 14) }
    requires metric { metric ≡ access_metric rows.now.0 soft.now (digits 14 message) }
    ensures { result ≡ access_metric rows.now.0 soft.now (turned_message (digits 14 message) bit) }
{
    let word = encode(rows, message);
    let mut sum = metric;
    for k in 0..soft.len() {
        sum = recosted(soft, &word, k, is_changed(rows, bit, k), sum);
    }
    sum
}

/// The bit, counted from 1, that step `step` of the walk turns: the first step turns the last bit, and each other one a
/// bit further in front the more zeros the number of the step ends in.
fn bit_of_step(step: u16) -> u8
    requires { (0 < step) × (step < 16384) }
    ensures within { (1 ≤ result) × (result ≤ 14) }
    ensures place { bit_at_place step (14 - result) ≡ 1 }
    ensures behind { (i : ℕ) → i < 14 - result → bit_at_place step i ≡ 0 }
{
    14 - step.trailing_zeros() as u8
}

/// The message with one bit turned.
fn with_turned(message: u16, bit: u8) -> u16
    requires message { message < 16384 }
    requires bit { (1 ≤ bit) × (bit ≤ 14) }
    ensures number { result ≡ bit_xor message (2 ^ (14 - bit)) }
    ensures bits { digits 14 result ≡ turned_message (digits 14 message) bit }
{
    message ^ (1 << (14 - bit))
}

/// The metric of the word of a message.
fn metric_of_word(rows: &Rows, soft: &Soft, message: u16) -> u32
    requires values { length soft.now ≡ 30 }
    requires message { message < 16384 }
    ensures { result ≡ access_metric rows.now.0 soft.now (digits 14 message) }
{
    let word = encode(rows, message);
    let mut sum = 0;
    for k in 0..soft.len() {
        sum += cost(soft.get(k), word.get(k));
    }
    sum
}

/// The reading of the smaller metric, and of equal metrics that of the smaller message.
fn better(first: RmReading, second: RmReading) -> RmReading
    requires { (first.message < 16384) × (second.message < 16384) }
    ensures message { result.message < 16384 }
    ensures key { result.metric * 16384 + result.message
        ≡ min (first.metric * 16384 + first.message) (second.metric * 16384 + second.message) }
{
    let less = second.metric < first.metric;
    let same = second.metric == first.metric;
    if less || (same && second.message < first.message) {
        second
    } else {
        first
    }
}

/// The same as `crate::decode`, by a walk through all messages. It asks no more of the values than that they are soft, so
/// it serves however wide these are. This project's own.
pub fn decode_by_walk(rows: &Rows, soft: &Soft) -> RmReading
    requires { length soft.now ≡ 30 }
    ensures message { result.message < 16384 }
    ensures best { digits 14 result.message ≡ best_access rows.now.0 soft.now }
    ensures first { FirstLeast 14 (access_metric rows.now.0 soft.now) (digits 14 result.message) }
    ensures metric { result.metric ≡ access_metric rows.now.0 soft.now (digits 14 result.message) }
    ensures within { (top : ℕ) → AllWithin top soft.now → result.metric ≤ top * 30 }
{
    let mut message = 0;
    let mut metric = metric_of_word(rows, soft, message);
    let mut best = RmReading { message, metric };
    for step in 0..16383u16 {
        let bit = bit_of_step(step + 1);
        metric = turned(rows, soft, message, metric, bit);
        message = with_turned(message, bit);
        best = better(best, RmReading { message, metric });
    }
    best
}
