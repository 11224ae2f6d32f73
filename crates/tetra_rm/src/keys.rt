// The keys of messages, in tables by the parts of a word. A key is 16,384 times the metric, plus the message: the least
// key is that of the first-least message.
ghost use Rattle.std.specs.Prelude.{◌≡◌, ◌<◌, ◌≤◌, ◌+◌, ◌*◌, ◌/◌, ◌%◌, ◌^◌, ℕ, Bool, List, [], length, slice_index, slice_index_or};
ghost use Rattle.tetra_bits.specs.Cost.{cost};
ghost use Rattle.tetra_bits.specs.Soft.{AllWithin, IsWithin, IsSoft};
ghost use Rattle.tetra_bits.specs.Sums.{add2};
ghost use Rattle.tetra_rm.specs.Search.{IsPartKeys, AreLanes, FitLanes, IsLaneKeys, lane, lane_bit};

use crate::lanes::added;
use std::simd::prelude::*;
use tetra_bits::{Soft, cost};

/// What it adds to a key to read `value` as `bit`.
fn bit_key(value: i16, bit: bool) -> u32
    requires { IsWithin 4095 value }
    ensures value { result ≡ cost value bit * 16384 }
    ensures small { result ≤ 4095 * 16384 }
{
    cost(value, bit) * 16384
}

/// The message that a key stands for.
pub fn message_of(key: u32) -> u16
    ensures { result ≡ key % 16384 }
{
    (key % 16384) as u16
}

/// The metric of its word.
pub fn metric_of(key: u32) -> u32
    ensures { result ≡ key / 16384 }
{
    key / 16384
}

/// A table for one bit more, which stands before the others: it is 0 in the first half and 1 in the second.
fn grow(keys: &mut [u32; 64], size: usize, zero: u32, one: u32)
    requires room { size + size ≤ 64 }
    requires small { (k : ℕ) → k < size → slice_index keys.old k < 2 ^ 31 }
    requires steps { (zero < 2 ^ 31) × (one < 2 ^ 31) }
    ensures first { (k : ℕ) → k < size → slice_index keys.new k ≡ slice_index keys.old k + zero }
    ensures second { (k : ℕ) → k < size → slice_index keys.new (size + k) ≡ slice_index keys.old k + one }
{
    for at in 0..size {
        let key = keys[at];
        keys[size + at] = key + one;
        keys[at] = key + zero;
    }
}

/// What all parts of `n` message bits, from bit `from` on, add to a key, where the last of them stands for `unit`.
pub fn part_keys(soft: &Soft, from: usize, n: usize, unit: u32) -> [u32; 64]
    requires values { length soft.now ≡ 30 }
    requires within { AllWithin 4095 soft.now }
    requires there { from + n ≤ 30 }
    requires few { n ≤ 6 }
    requires unit { unit ≤ 512 }
    ensures keys { IsPartKeys soft.now from n unit result }
    ensures small { (v : ℕ) → v < 2 ^ n → slice_index result v < 2 ^ 29 }
{
    let mut keys = [0; 64];
    let mut size = 1;
    let mut weight = unit;
    for k in 0..n {
        let value = soft.get(from + n - 1 - k);
        grow(
            &mut keys,
            size,
            bit_key(value, false),
            bit_key(value, true) + weight,
        );
        size *= 2;
        weight *= 2;
    }
    keys
}

/// What it adds to the keys of eight messages to read `value` as the bit of their sums with the place value `2^place`,
/// turned where `turn`.
fn lane_bits(value: i16, sums: &[u16; 64], place: usize, turn: bool) -> u32x8
    requires within { IsWithin 4095 value }
    requires place { place < 16 }
    ensures long { length result ≡ 8 }
    ensures value { (j : ℕ) → j < 8
        → slice_index result j ≡ cost value (add2 (lane_bit sums.now place j) turn) * 16384 }
    ensures small { (j : ℕ) → j < 8 → slice_index result j < 2 ^ 31 }
{
    let mut keys = [0; 8];
    for at in 0..8 {
        let bit = (sums[at] >> place) % 2 == 1;
        keys[at] = bit_key(value, bit != turn);
    }
    u32x8::from_array(keys)
}

/// A table by lanes for one bit more, which stands before the others.
fn grow_lanes(keys: &mut [u32x8; 256], size: usize, zero: u32x8, one: u32x8)
    requires room { size + size ≤ 256 }
    requires long { (length zero ≡ 8) × (length one ≡ 8) }
    requires lanes { AreLanes keys.old }
    requires small { (k j : ℕ) → k < size → j < 8 → lane keys.old k j < 2 ^ 31 }
    requires steps { (j : ℕ) → j < 8 → (slice_index zero j < 2 ^ 31) × (slice_index one j < 2 ^ 31) }
    ensures lanes { AreLanes keys.new }
    ensures first { (k j : ℕ) → k < size → j < 8 → lane keys.new k j ≡ lane keys.old k j + slice_index zero j }
    ensures second { (k j : ℕ) → k < size → j < 8
        → lane keys.new (size + k) j ≡ lane keys.old k j + slice_index one j }
{
    for at in 0..size {
        let key = keys[at];
        keys[size + at] = added(key, one);
        keys[at] = added(key, zero);
    }
}

/// A table by lanes, to be filled.
pub fn no_keys() -> [u32x8; 256]
    ensures { AreLanes result }
{
    [u32x8::splat(0); 256]
}

/// Fills a table by lanes: what the eight bits behind a message from place `from` on add to the keys of eight messages, by
/// the byte that is added modulo 2 to the bits of their own sums from `2^place` on.
pub fn fill_lane_keys(
    soft: &Soft,
    from: usize,
    sums: &[u16; 64],
    place: usize,
    keys: &mut [u32x8; 256],
)
    requires values { length soft.now ≡ 30 }
    requires within { AllWithin 4095 soft.now }
    requires there { from + 8 ≤ 30 }
    requires place { place ≤ 8 }
    requires lanes { AreLanes keys.old }
    ensures keys { IsLaneKeys soft.now from 8 sums.now place keys.new }
    ensures fit { FitLanes keys.new }
{
    keys[0] = u32x8::splat(0);
    let mut size = 1;
    for k in 0..8usize {
        let value = soft.get(from + 7 - k);
        let at = place + k;
        grow_lanes(
            keys,
            size,
            lane_bits(value, sums, at, false),
            lane_bits(value, sums, at, true),
        );
        size *= 2;
    }
}
