// The search for the first-least message, eight messages side by side: those that differ in their last three bits alone.
// It goes through the bits in front from the likeliest on, and passes over those that cost more than what it has found.
ghost use Rattle.std.specs.Prelude.{◌≡◌, ◌<◌, ◌≤◌, ◌+◌, ◌-◌, ◌*◌, ◌^◌, ℕ, List, length, slice_index};
ghost use Rattle.tetra_bits.specs.Soft.{AllWithin};
ghost use Rattle.tetra_rm.specs.Search.{AreSums, AreTables, IsLeastBelow, IsPart, FitLanes, key_in_middle, key_by_tables, key_of_number};

use crate::keys::{fill_lane_keys, no_keys, part_keys};
use crate::lanes::{added, all_lanes, lesser};
use std::simd::prelude::*;
use tetra_bits::Soft;

/// What an access field is read as.
#[derive(Clone, Copy, PartialEq, Eq, Debug)]
pub struct RmReading {
    /// The first-least message, below 16,384.
    pub message: u16,
    /// The metric of its word.
    pub metric: u32,
}

/// Some bits of the message: the sums of their rows and what they add to a key.
#[derive(Drop)]
struct Part {
    sums: [u16; 64],
    keys: [u32; 64],
}

/// The tables of `n` bits of the message from bit `from` on, counted from 0, the last of which stands for `unit`, where
/// `sums` are those of their rows; `n` is at most 6.
fn part_tables(sums: &[u16; 64], soft: &Soft, from: usize, n: usize, unit: u32) -> Part
    requires values { length soft.now ≡ 30 }
    requires within { AllWithin 4095 soft.now }
    requires there { from + n ≤ 14 }
    requires few { n ≤ 6 }
    requires unit { (unit ≡ 2 ^ (14 - (from + n))) × (unit ≤ 512) }
    ensures part { (rows : List ℕ) → AreSums rows from n sums.now → IsPart rows soft.now from n result }
    ensures small { (v : ℕ) → v < 2 ^ n → slice_index result.keys v < 2 ^ 29 }
{
    Part {
        sums: *sums,
        keys: part_keys(soft, from, n, unit),
    }
}

/// What the bits behind eight messages and the bits in the middle add to their keys, where `sum` is that of the rows of
/// the bits in front, and the bits in the middle are those of `at`.
fn in_middle(
    first: &[u32x8; 256],
    second: &[u32x8; 256],
    middle: &Part,
    sum: u16,
    at: usize,
) -> u32x8
    requires lanes { (FitLanes first.now) × (FitLanes second.now) }
    requires small { slice_index middle.now.keys at < 2 ^ 29 }
    requires there { at < 64 }
    ensures long { length result ≡ 8 }
    ensures keys { (j : ℕ) → j < 8
        → slice_index result j ≡ key_in_middle first.now second.now middle.now sum j at }
    ensures small { (j : ℕ) → j < 8 → slice_index result j < 2 ^ 31 }
{
    let whole = sum ^ middle.sums[at];
    let keys = added(
        first[usize::from(whole / 256)],
        second[usize::from(whole % 256)],
    );
    added(keys, all_lanes(middle.keys[at]))
}

/// The least of these over all bits in the middle.
fn least_in_middle(first: &[u32x8; 256], second: &[u32x8; 256], middle: &Part, sum: u16) -> u32x8
    requires lanes { (FitLanes first.now) × (FitLanes second.now) }
    requires small { (v : ℕ) → v < 64 → slice_index middle.now.keys v < 2 ^ 29 }
    ensures long { length result ≡ 8 }
    ensures least { (j : ℕ) → j < 8
        → IsLeastBelow (key_in_middle first.now second.now middle.now sum j) 64 (slice_index result j) }
    ensures small { (j : ℕ) → j < 8 → slice_index result j < 2 ^ 31 }
{
    let mut least = in_middle(first, second, middle, sum, 0);
    for at in 1..64 {
        least = lesser(least, in_middle(first, second, middle, sum, at));
    }
    least
}

/// The same and what the bits in front add to their keys, where these are those of `at`.
fn least_behind(
    first: &[u32x8; 256],
    second: &[u32x8; 256],
    front: &Part,
    middle: &Part,
    at: usize,
) -> u32x8
    requires lanes { (FitLanes first.now) × (FitLanes second.now) }
    requires middle { (v : ℕ) → v < 64 → slice_index middle.now.keys v < 2 ^ 29 }
    requires front { slice_index front.now.keys at < 2 ^ 29 }
    requires there { at < 32 }
    ensures long { length result ≡ 8 }
    ensures least { (j : ℕ) → j < 8 → (f : ℕ → ℕ)
        → ((m : ℕ) → m < 64
        → f m ≡ key_in_middle first.now second.now middle.now (slice_index front.now.sums at) j m
        + slice_index front.now.keys at)
        → IsLeastBelow f 64 (slice_index result j) }
    ensures small { (j : ℕ) → j < 8 → slice_index result j < 2 ^ 31 + 2 ^ 29 }
{
    let least = least_in_middle(first, second, middle, front.sums[at]);
    added(least, all_lanes(front.keys[at]))
}

/// The least of eight keys, to each of which `last` adds something.
fn least_lane(keys: &[u32; 8], last: &[u32; 64]) -> u32
    requires keys { (j : ℕ) → j < 8 → slice_index keys.now j < 2 ^ 31 + 2 ^ 29 }
    requires last { (j : ℕ) → j < 8 → slice_index last.now j < 2 ^ 29 }
    ensures { IsLeastBelow (λ j. slice_index keys.now j + slice_index last.now j) 8 result }
{
    let mut least = keys[0] + last[0];
    for at in 1..8 {
        least = least.min(keys[at] + last[at]);
    }
    least
}

/// The least key of the messages whose bits in front are those of `at`.
fn least_at(
    first: &[u32x8; 256],
    second: &[u32x8; 256],
    front: &Part,
    middle: &Part,
    last: &Part,
    at: usize,
) -> u32
    requires lanes { (FitLanes first.now) × (FitLanes second.now) }
    requires front { slice_index front.now.keys at < 2 ^ 29 }
    requires middle { (v : ℕ) → v < 64 → slice_index middle.now.keys v < 2 ^ 29 }
    requires last { (v : ℕ) → v < 8 → slice_index last.now.keys v < 2 ^ 29 }
    requires there { at < 32 }
    ensures { IsLeastBelow (λ v. key_by_tables first.now second.now front.now middle.now last.now (at * 512 + v)) 512 result }
{
    let least = least_behind(first, second, front, middle, at);
    least_lane(&least.to_array(), &last.keys)
}

/// The lesser of `least` and the least key of these messages, which need no search where what their bits in front add is
/// no less.
fn lesser_at(
    first: &[u32x8; 256],
    second: &[u32x8; 256],
    front: &Part,
    middle: &Part,
    last: &Part,
    at: usize,
    least: u32,
) -> u32
    requires lanes { (FitLanes first.now) × (FitLanes second.now) }
    requires front { slice_index front.now.keys at < 2 ^ 29 }
    requires middle { (v : ℕ) → v < 64 → slice_index middle.now.keys v < 2 ^ 29 }
    requires last { (v : ℕ) → v < 8 → slice_index last.now.keys v < 2 ^ 29 }
    requires there { at < 32 }
    ensures { (f : ℕ → ℕ) (n : ℕ)
        → ((v : ℕ) → v < 512 → f (n + v) ≡ key_by_tables first.now second.now front.now middle.now last.now (at * 512 + v))
        → IsLeastBelow f n least → IsLeastBelow f (n + 512) result }
{
    if front.keys[at] < least {
        return least.min(least_at(first, second, front, middle, last, at));
    }
    least
}

/// The bits in front that add least.
fn likeliest(front: &Part) -> usize
    ensures { result < 32 }
{
    let mut key = front.keys[0];
    for at in 1..32 {
        key = key.min(front.keys[at]);
    }
    (key / 512 % 32) as usize
}

/// The least key of all messages, by their tables. The search begins with the likeliest bits in front.
fn least_of_all(
    first: &[u32x8; 256],
    second: &[u32x8; 256],
    front: &Part,
    middle: &Part,
    last: &Part,
) -> u32
    requires lanes { (FitLanes first.now) × (FitLanes second.now) }
    requires front { (v : ℕ) → v < 32 → slice_index front.now.keys v < 2 ^ 29 }
    requires middle { (v : ℕ) → v < 64 → slice_index middle.now.keys v < 2 ^ 29 }
    requires last { (v : ℕ) → v < 8 → slice_index last.now.keys v < 2 ^ 29 }
    ensures { IsLeastBelow (key_by_tables first.now second.now front.now middle.now last.now) 16384 result }
{
    let start = likeliest(front);
    let mut least = least_at(first, second, front, middle, last, start);
    for step in 1..32usize {
        let at = (start + step) % 32;
        least = lesser_at(first, second, front, middle, last, at, least);
    }
    least
}

/// The least key of all messages, by the sums of the rows of their bits in front, in the middle and at the end.
pub fn least_key(front: &[u16; 64], middle: &[u16; 64], last: &[u16; 64], soft: &Soft) -> u32
    requires values { length soft.now ≡ 30 }
    requires within { AllWithin 4095 soft.now }
    ensures { (rows : List ℕ) → AreTables rows front.now middle.now last.now
        → IsLeastBelow (key_of_number rows soft.now) 16384 result }
{
    let mut first = no_keys();
    let mut second = no_keys();
    let front = part_tables(front, soft, 0, 5, 512);
    let middle = part_tables(middle, soft, 5, 6, 8);
    let last = part_tables(last, soft, 11, 3, 1);
    fill_lane_keys(soft, 14, &last.sums, 8, &mut first);
    fill_lane_keys(soft, 22, &last.sums, 0, &mut second);
    least_of_all(&first, &second, &front, &middle, &last)
}
