// Sixteen states side by side.
ghost use Rattle.std.specs.Prelude.{◌≡◌, ◌<◌, ◌≤◌, ◌+◌, ◌^◌, ℕ, min, true, false, length, slice_index};
ghost use Rattle.tetra_mother.specs.Mother.{next_state};

use std::simd::prelude::*;

/// The entries of a row behind bit 0, by the states before it.
pub fn behind_zero(row: &[u32; 16]) -> u32x16
    ensures long { length result ≡ 16 }
    ensures value { (s : ℕ) → s < 16 → slice_index result s ≡ slice_index row.now (next_state s false) }
{
    u32x16::from_array(*row).swizzle([0, 0, 1, 1, 2, 2, 3, 3, 4, 4, 5, 5, 6, 6, 7, 7])
}

/// The entries of a row behind bit 1, by the states before it.
pub fn behind_one(row: &[u32; 16]) -> u32x16
    ensures long { length result ≡ 16 }
    ensures value { (s : ℕ) → s < 16 → slice_index result s ≡ slice_index row.now (next_state s true) }
{
    u32x16::from_array(*row).swizzle([8, 8, 9, 9, 10, 10, 11, 11, 12, 12, 13, 13, 14, 14, 15, 15])
}

/// The sums of the lanes.
pub fn added(a: u32x16, b: u32x16) -> u32x16
    requires long { (length a ≡ 16) × (length b ≡ 16) }
    requires fits { (s : ℕ) → s < 16 → slice_index a s + slice_index b s < 2 ^ 32 }
    ensures long { length result ≡ 16 }
    ensures value { (s : ℕ) → s < 16 → slice_index result s ≡ slice_index a s + slice_index b s }
{
    a.strict_add(b)
}

/// The lanes, but none above `limit`.
pub fn capped(a: u32x16, limit: u32) -> u32x16
    requires { length a ≡ 16 }
    ensures long { length result ≡ 16 }
    ensures value { (s : ℕ) → s < 16 → slice_index result s ≡ min (slice_index a s) limit }
{
    a.simd_min(u32x16::splat(limit))
}

/// Whether a lane of `a` is above that of `b`.
pub fn some_above(a: u32x16, b: u32x16) -> bool
    requires { (length a ≡ 16) × (length b ≡ 16) }
    ensures { result ≡ false → (s : ℕ) → s < 16 → slice_index a s ≤ slice_index b s }
{
    a.simd_gt(b).any()
}
