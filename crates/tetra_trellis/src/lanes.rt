//! One row of the costs to go from the next, at all states at once.
ghost use Rattle.std.specs.Prelude.{◌≡◌, ◌<◌, ◌≤◌, ◌+◌, ◌*◌, ◌^◌, ℕ, true, false, IsTrue, cond, nat_eq, length, slice_index};
ghost use Rattle.tetra_bits.specs.Soft.{AllSoft};
ghost use Rattle.tetra_puncture.specs.Butterflies.{HasMasks, IsPaired, least_over, mark_at, way_over};
ghost use Rattle.tetra_puncture.specs.Labels.{HasLabels};

use tetra_bits::Wide;
use tetra_puncture::{Labels, MarkedRow, Plan, marked_row, zero_row};

/// The row before step `t`, counted from 0, over the values `wide` at all places of the mother word, from the row behind
/// the step, whose entries are at most 2^31: each entry is the least over the two branches from its state, at the last
/// four steps over that of bit 0 alone. Before these steps the states at which bit 0 gives the entry are marked. `PAIRED`
/// may be set for a code that `is_paired`, and makes it faster. This project's own.
#[inline(always)]
pub fn lane_row<P: Plan, const PAIRED: bool>(
    wide: &Wide,
    labels: &Labels,
    t: usize,
    after: &[u32; 16],
) -> MarkedRow
    requires sound { P.IsSound }
    requires size { length wide.now ≡ P.plan.outs * P.plan.steps }
    requires soft { AllSoft wide.now }
    requires labels { HasLabels P.plan.taps P.plan.outs labels.now }
    requires masks { HasMasks P.plan.taps P.plan.outs labels.now }
    requires paired { IsTrue PAIRED → IsPaired P.plan.taps P.plan.outs }
    requires step { t < P.plan.steps }
    requires room { (s : ℕ) → s < 16 → slice_index after.now s ≤ 2 ^ 31 }
    ensures row { (s : ℕ) → s < 16 → slice_index result.row s ≡ least_over P.plan wide.now t after.now s }
    ensures marks { t + 4 < P.plan.steps → (s : ℕ) → s < 16 → mark_at result.marks s
        ≡ cond (nat_eq (slice_index result.row s) (way_over P.plan wide.now t after.now s false)) 1 0 }
{
    if t + 4 < P::STEPS {
        marked_row::<P, PAIRED>(wide, labels, t, after)
    } else {
        MarkedRow {
            row: zero_row::<P, PAIRED>(wide, labels, t, after),
            marks: 0,
        }
    }
}
