// States side by side: even states in front, odd ones behind, or both woven into a row.
ghost use Rattle.std.specs.Prelude.{◌≡◌, ◌<◌, ◌+◌, ◌*◌, ◌^◌, ◌/◌, ◌%◌, ℕ, cond, nat_eq, min, length, slice_index};

use std::simd::prelude::*;

/// The entries of the states 0 to 7, to which bit 0 leads.
#[inline(always)]
pub(crate) fn low(row: &[u32; 16]) -> u32x8
    ensures long { length result ≡ 8 }
    ensures value { (i : ℕ) → i < 8 → slice_index result i ≡ slice_index row.now i }
{
    u32x16::from_array(*row).swizzle([0, 1, 2, 3, 4, 5, 6, 7])
}

/// The entries of the states 8 to 15, to which bit 1 leads.
#[inline(always)]
pub(crate) fn high(row: &[u32; 16]) -> u32x8
    ensures long { length result ≡ 8 }
    ensures value { (i : ℕ) → i < 8 → slice_index result i ≡ slice_index row.now (8 + i) }
{
    u32x16::from_array(*row).swizzle([8, 9, 10, 11, 12, 13, 14, 15])
}

/// The entries of the even states.
#[inline(always)]
pub(crate) fn even(row: &[u32; 16]) -> u32x8
    ensures long { length result ≡ 8 }
    ensures value { (i : ℕ) → i < 8 → slice_index result i ≡ slice_index row.now (2 * i) }
{
    u32x16::from_array(*row).swizzle([0, 2, 4, 6, 8, 10, 12, 14])
}

/// The entries of the odd states.
#[inline(always)]
pub(crate) fn odd(row: &[u32; 16]) -> u32x8
    ensures long { length result ≡ 8 }
    ensures value { (i : ℕ) → i < 8 → slice_index result i ≡ slice_index row.now (2 * i + 1) }
{
    u32x16::from_array(*row).swizzle([1, 3, 5, 7, 9, 11, 13, 15])
}

/// The sums of the lanes modulo 2^32.
#[inline(always)]
pub(crate) fn summed(a: u32x8, b: u32x8) -> u32x8
    requires { (length a ≡ 8) × (length b ≡ 8) }
    ensures long { length result ≡ 8 }
    ensures value { (i : ℕ) → i < 8 → slice_index result i ≡ (slice_index a i + slice_index b i) % 2 ^ 32 }
{
    a + b
}

/// The lesser of each two lanes.
#[inline(always)]
pub(crate) fn lesser(a: u32x8, b: u32x8) -> u32x8
    requires { (length a ≡ 8) × (length b ≡ 8) }
    ensures long { length result ≡ 8 }
    ensures value { (i : ℕ) → i < 8 → slice_index result i ≡ min (slice_index a i) (slice_index b i) }
{
    a.simd_min(b)
}

/// The row of all states, from the even and the odd ones.
#[inline(always)]
pub(crate) fn woven(even: u32x8, odd: u32x8) -> [u32; 16]
    requires { (length even ≡ 8) × (length odd ≡ 8) }
    ensures even { (i : ℕ) → i < 8 → slice_index result (2 * i) ≡ slice_index even i }
    ensures odd { (i : ℕ) → i < 8 → slice_index result (2 * i + 1) ≡ slice_index odd i }
{
    even.shuffle(odd, [0, 8, 1, 9, 2, 10, 3, 11, 4, 12, 5, 13, 6, 14, 7, 15])
        .to_array()
}

/// The even states in front, and the odd ones behind.
#[inline(always)]
pub(crate) fn joined(even: u32x8, odd: u32x8) -> u32x16
    requires { (length even ≡ 8) × (length odd ≡ 8) }
    ensures long { length result ≡ 16 }
    ensures even { (i : ℕ) → i < 8 → slice_index result i ≡ slice_index even i }
    ensures odd { (i : ℕ) → i < 8 → slice_index result (8 + i) ≡ slice_index odd i }
{
    even.shuffle(odd, [0, 1, 2, 3, 4, 5, 6, 7, 8, 9, 10, 11, 12, 13, 14, 15])
}

/// A bit for each lane, set where both are the same.
#[inline(always)]
pub(crate) fn same(a: u32x16, b: u32x16) -> u16
    requires { (length a ≡ 16) × (length b ≡ 16) }
    ensures { (i : ℕ) → i < 16 → result / 2 ^ i % 2 ≡ cond (nat_eq (slice_index a i) (slice_index b i)) 1 0 }
{
    a.simd_eq(b).to_bitmask() as u16
}
