// Eight messages side by side.
ghost use Rattle.std.specs.Prelude.{◌≡◌, ◌<◌, ◌+◌, ◌^◌, ℕ, min, length, slice_index};

use std::simd::prelude::*;

/// The sums of the lanes.
pub fn added(a: u32x8, b: u32x8) -> u32x8
    requires long { (length a ≡ 8) × (length b ≡ 8) }
    requires fits { (j : ℕ) → j < 8 → slice_index a j + slice_index b j < 2 ^ 32 }
    ensures long { length result ≡ 8 }
    ensures value { (j : ℕ) → j < 8 → slice_index result j ≡ slice_index a j + slice_index b j }
{
    a.strict_add(b)
}

/// The lesser of the lanes.
pub fn lesser(a: u32x8, b: u32x8) -> u32x8
    requires long { (length a ≡ 8) × (length b ≡ 8) }
    ensures long { length result ≡ 8 }
    ensures value { (j : ℕ) → j < 8 → slice_index result j ≡ min (slice_index a j) (slice_index b j) }
{
    a.simd_min(b)
}

/// The same number in all lanes.
pub fn all_lanes(number: u32) -> u32x8
    ensures long { length result ≡ 8 }
    ensures value { (j : ℕ) → j < 8 → slice_index result j ≡ number }
{
    u32x8::splat(number)
}
