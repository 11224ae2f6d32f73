// The costs of the branches of a step, eight butterflies side by side.
ghost use Rattle.std.specs.Prelude.{◌≡◌, ◌<◌, ◌≤◌, ◌+◌, ◌-◌, ◌*◌, ◌^◌, ◌%◌, ◌∷◌, [], ℕ, Bool, false, true, not, nat_eq, length, slice_index, slice_index_or, bit_and};
ghost use Rattle.tetra_bits.specs.Cost.{cost};
ghost use Rattle.tetra_bits.specs.Soft.{IsSoft, value_at};
ghost use Rattle.tetra_puncture.specs.Butterflies.{mask_of, is_masked, AreMasks, masked_cost, turned_cost};

use std::simd::prelude::*;

/// A soft value, raised by 2^15.
#[tactic(auto, unfolding(tetra_bits::specs::Cost::cost))]
#[inline(always)]
fn raised(value: i16) -> u32
    requires { IsSoft value }
    ensures zero { 32768 - result ≡ cost value false }
    ensures one { result - 32768 ≡ cost value true }
    ensures near { (1 ≤ result) × (result ≤ 65535) }
{
    (i32::from(value) + 32768) as u32
}

/// The costs of four raised values as bit 0 and as bit 1, and the differences of both modulo 2^32.
#[inline(always)]
fn split(a: u32, b: u32, c: u32, d: u32) -> ([u32; 4], [u32; 4], [u32; 4])
    ensures zero { result.0 ≡ (32768 - a) ∷ (32768 - b) ∷ (32768 - c) ∷ (32768 - d) ∷ [] }
    ensures one { result.1 ≡ (a - 32768) ∷ (b - 32768) ∷ (c - 32768) ∷ (d - 32768) ∷ [] }
    ensures difference { result.2 ≡ ((a + 4294934528) % 2 ^ 32) ∷ ((b + 4294934528) % 2 ^ 32)
        ∷ ((c + 4294934528) % 2 ^ 32) ∷ ((d + 4294934528) % 2 ^ 32) ∷ [] }
{
    let raised = u32x4::from_array([a, b, c, d]);
    let middle = u32x4::splat(32768);
    (
        middle.saturating_sub(raised).to_array(),
        raised.saturating_sub(middle).to_array(),
        (raised + u32x4::splat(4294934528)).to_array(),
    )
}

/// The sums, with `difference` added modulo 2^32 in the lanes of the mask.
#[inline(always)]
fn added_where(sums: u32x8, mask: &[u32; 8], difference: u32) -> u32x8
    requires { length sums ≡ 8 }
    ensures long { length result ≡ 8 }
    ensures value { (i : ℕ) → i < 8 → slice_index result i
        ≡ (slice_index sums i + bit_and (slice_index mask.now i) difference) % 2 ^ 32 }
{
    sums + (u32x8::from_array(*mask) & u32x8::splat(difference))
}

/// Eight lanes of `all` less those of `part`.
#[inline(always)]
fn rest(all: u32, part: u32x8) -> u32x8
    requires long { length part ≡ 8 }
    requires fits { (i : ℕ) → i < 8 → slice_index part i ≤ all }
    ensures long { length result ≡ 8 }
    ensures value { (i : ℕ) → i < 8 → slice_index result i ≡ all - slice_index part i }
{
    u32x8::splat(all) - part
}

/// The costs of four values as all outputs, 0 and 1 alike, and their costs as the outputs of each lane. A value costs as
/// bit 1 what it costs as bit 0 and the difference of both.
#[inline(always)]
fn masked_sums(masks: &[[u32; 8]; 4], values: [i16; 4]) -> (u32, u32x8)
    requires soft { (i : ℕ) → IsSoft (value_at values i) }
    requires masks { AreMasks masks.now }
    ensures long { length result.1 ≡ 8 }
    ensures cost { (i : ℕ) → i < 8 → slice_index result.1 i ≡ masked_cost masks.now values i }
    ensures both { (i : ℕ) → i < 8 → slice_index result.1 i + turned_cost masks.now values i ≡ result.0 }
{
    let (zero, one, difference) = split(
        raised(values[0]),
        raised(values[1]),
        raised(values[2]),
        raised(values[3]),
    );
    let none = zero[0] + zero[1] + zero[2] + zero[3];
    let all = none + one[0] + one[1] + one[2] + one[3];
    let first = added_where(u32x8::splat(none), &masks[0], difference[0]);
    let second = added_where(first, &masks[1], difference[1]);
    let third = added_where(second, &masks[2], difference[2]);
    (all, added_where(third, &masks[3], difference[3]))
}

/// The costs of four values as the outputs of each lane, and as the complements of those outputs.
#[inline(always)]
pub(crate) fn masked_costs(masks: &[[u32; 8]; 4], values: [i16; 4]) -> (u32x8, u32x8)
    requires soft { (i : ℕ) → IsSoft (value_at values i) }
    requires masks { AreMasks masks.now }
    ensures long { (length result.0 ≡ 8) × (length result.1 ≡ 8) }
    ensures cost { (i : ℕ) → i < 8 → slice_index result.0 i ≡ masked_cost masks.now values i }
    ensures turned { (i : ℕ) → i < 8 → slice_index result.1 i ≡ turned_cost masks.now values i }
{
    let (all, cost) = masked_sums(masks, values);
    (cost, rest(all, cost))
}
