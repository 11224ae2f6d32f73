// The costs of the branches of a step of the code of rate 1/4, by the sums of pairs of costs.
ghost use Rattle.std.specs.Prelude.{◌≡◌, ◌<◌, ◌≤◌, ◌+◌, ◌-◌, ◌∷◌, [], ℕ, Bool, true, false, IsTrue, length, slice_index};
ghost use Rattle.tetra_bits.specs.Cost.{cost};
ghost use Rattle.tetra_bits.specs.Soft.{IsSoft, value_at};
ghost use Rattle.tetra_mother.specs.Generators.{quarter};
ghost use Rattle.tetra_puncture.specs.Quarter.{IsQuarter, quarter_cost, quarter_turned};

use std::simd::prelude::*;
use tetra_mother::{Mother, Quarter};

/// Whether generator `i`, counted from 1, of the code has the terms of that of the code of rate 1/4.
#[inline(always)]
fn has_terms<M: Mother>(i: usize) -> bool
    requires first { 1 ≤ i }
    requires last { i ≤ 4 }
    requires there { i ≤ M.OUTS }
    ensures { IsTrue result → (j : ℕ) → j < 5 → M.taps i j ≡ quarter i j }
{
    for j in 0..5 {
        if M::tap(i, j) != Quarter::tap(i, j) {
            return false;
        }
    }
    true
}

/// Whether the code is the code of rate 1/4. The compiler finds the answer, so that asking costs nothing.
#[inline(always)]
pub(crate) fn is_quarter<M: Mother>() -> bool
    ensures { IsTrue result → IsQuarter M.taps M.OUTS }
{
    if M::OUTS != 4 {
        return false;
    }
    for i in 1..5 {
        if !has_terms::<M>(i) {
            return false;
        }
    }
    true
}

/// A soft value, raised by 2^15.
#[tactic(auto, unfolding(tetra_bits::specs::Cost::cost))]
#[inline(always)]
fn raised(value: i16) -> u16
    requires { IsSoft value }
    ensures zero { 32768 - result ≡ cost value false }
    ensures one { result - 32768 ≡ cost value true }
    ensures some { 1 ≤ result }
{
    (i32::from(value) + 32768) as u16
}

/// The costs of two raised values as the pairs of bits 00, 01, 10 and 11, and behind them those of two more.
#[inline(always)]
fn pair_sums(a: u16, b: u16, c: u16, d: u16) -> [u32; 8]
    requires { (1 ≤ a) × (1 ≤ b) × (1 ≤ c) × (1 ≤ d) }
    ensures { result ≡ (32768 - a + (32768 - b)) ∷ (32768 - a + (b - 32768))
        ∷ (a - 32768 + (32768 - b)) ∷ (a - 32768 + (b - 32768))
        ∷ (32768 - c + (32768 - d)) ∷ (32768 - c + (d - 32768))
        ∷ (c - 32768 + (32768 - d)) ∷ (c - 32768 + (d - 32768)) ∷ [] }
{
    let raised = u16x4::from_array([a, b, c, d]);
    let middle = u16x4::splat(32768);
    let zero = middle.saturating_sub(raised);
    let one = raised.saturating_sub(middle);
    let costs = zero.shuffle(one, [0, 1, 2, 3, 4, 5, 6, 7]);
    let first = costs.swizzle([0, 0, 4, 4, 2, 2, 6, 6]);
    let second = costs.swizzle([1, 5, 1, 5, 3, 7, 3, 7]);
    first.strict_add(second).cast::<u32>().to_array()
}

/// The costs of all outputs by lanes, from those of the first two and the last two by pairs. With bit 0 the states 0, 2
/// to 14 give the outputs 0000, 0101, 0110, 0011, 1011, 1110, 1101 and 1000.
#[inline(always)]
fn by_lanes(sums: &[u32; 8]) -> u32x8
    requires { (i : ℕ) → slice_index sums.now i ≤ 65536 }
    ensures { result ≡ (slice_index sums.now 0 + slice_index sums.now 4) ∷ (slice_index sums.now 1 + slice_index sums.now 5)
        ∷ (slice_index sums.now 1 + slice_index sums.now 6) ∷ (slice_index sums.now 0 + slice_index sums.now 7)
        ∷ (slice_index sums.now 2 + slice_index sums.now 7) ∷ (slice_index sums.now 3 + slice_index sums.now 6)
        ∷ (slice_index sums.now 3 + slice_index sums.now 5) ∷ (slice_index sums.now 2 + slice_index sums.now 4) ∷ [] }
{
    let sums = u32x8::from_array(*sums);
    let first = sums.swizzle([0, 1, 1, 0, 2, 3, 3, 2]);
    let second = sums.swizzle([4, 5, 6, 7, 7, 6, 5, 4]);
    first.strict_add(second)
}

/// The same of the complements of the outputs.
#[inline(always)]
fn turned_by_lanes(sums: &[u32; 8]) -> u32x8
    requires { (i : ℕ) → slice_index sums.now i ≤ 65536 }
    ensures { result ≡ (slice_index sums.now 3 + slice_index sums.now 7) ∷ (slice_index sums.now 2 + slice_index sums.now 6)
        ∷ (slice_index sums.now 2 + slice_index sums.now 5) ∷ (slice_index sums.now 3 + slice_index sums.now 4)
        ∷ (slice_index sums.now 1 + slice_index sums.now 4) ∷ (slice_index sums.now 0 + slice_index sums.now 5)
        ∷ (slice_index sums.now 0 + slice_index sums.now 6) ∷ (slice_index sums.now 1 + slice_index sums.now 7) ∷ [] }
{
    let sums = u32x8::from_array(*sums);
    let first = sums.swizzle([3, 2, 2, 3, 1, 0, 0, 1]);
    let second = sums.swizzle([7, 6, 5, 4, 4, 5, 6, 7]);
    first.strict_add(second)
}

/// The costs of four values as the outputs of each lane, and as the complements of those outputs.
#[inline(always)]
pub(crate) fn quarter_costs(values: [i16; 4]) -> (u32x8, u32x8)
    requires soft { (i : ℕ) → IsSoft (value_at values i) }
    ensures long { (length result.0 ≡ 8) × (length result.1 ≡ 8) }
    ensures cost { (i : ℕ) → i < 8 → slice_index result.0 i ≡ quarter_cost values i }
    ensures turned { (i : ℕ) → i < 8 → slice_index result.1 i ≡ quarter_turned values i }
{
    let sums = pair_sums(
        raised(values[0]),
        raised(values[1]),
        raised(values[2]),
        raised(values[3]),
    );
    (by_lanes(&sums), turned_by_lanes(&sums))
}
