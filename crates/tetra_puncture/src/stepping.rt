// One step backwards through the trellis, at all states at once.
ghost use Rattle.std.specs.Prelude.{◌≡◌, ◌<◌, ◌*◌, ◌+◌, ◌%◌, ℕ, true, IsTrue, length, slice_index};
ghost use Rattle.tetra_puncture.specs.Butterflies.{HasMasks, IsPaired, IsLeastRow, IsZeroRow, AreMarks};
ghost use Rattle.tetra_puncture.specs.Labels.{HasLabels};

use crate::branches::{Labels, lane_costs};
use crate::lanes::{high, joined, lesser, low, same, summed, woven};
use crate::plan::Plan;
use tetra_bits::Wide;

/// A row before a step, and a mark for each state: set where bit 0 gives the entry, so that a tie goes to bit 0. The mark
/// of state `s` is bit `s / 2` of an even state, and bit `8 + s / 2` of an odd one.
#[derive(Drop)]
pub struct MarkedRow {
    pub row: [u32; 16],
    pub marks: u16,
}

/// The row before step `t`, from the row behind it: the lesser of both branches at each state, modulo 2^32.
#[inline(always)]
pub fn marked_row<P: Plan, const PAIRED: bool>(
    wide: &Wide,
    labels: &Labels,
    t: usize,
    after: &[u32; 16],
) -> MarkedRow
    requires sound { P.IsSound }
    requires size { length wide.now ≡ P.plan.outs * P.plan.steps }
    requires labels { HasLabels P.plan.taps P.plan.outs labels.now }
    requires masks { HasMasks P.plan.taps P.plan.outs labels.now }
    requires paired { IsTrue PAIRED → IsPaired P.plan.taps P.plan.outs }
    requires step { t < P.plan.steps }
    ensures row { IsLeastRow P.plan wide.now t after.now result.row }
    ensures marks { AreMarks P.plan wide.now t after.now result.row result.marks }
{
    let costs = lane_costs::<P, PAIRED>(wide, labels, t);
    let even_zero = summed(costs.even_zero, low(after));
    let odd_zero = summed(costs.odd_zero, low(after));
    let even = lesser(even_zero, summed(costs.even_one, high(after)));
    let odd = lesser(odd_zero, summed(costs.odd_one, high(after)));
    MarkedRow {
        row: woven(even, odd),
        marks: same(joined(even, odd), joined(even_zero, odd_zero)),
    }
}

/// The row before step `t` by bit 0 alone, as at the last four steps, modulo 2^32.
#[inline(always)]
pub fn zero_row<P: Plan, const PAIRED: bool>(
    wide: &Wide,
    labels: &Labels,
    t: usize,
    after: &[u32; 16],
) -> [u32; 16]
    requires sound { P.IsSound }
    requires size { length wide.now ≡ P.plan.outs * P.plan.steps }
    requires labels { HasLabels P.plan.taps P.plan.outs labels.now }
    requires masks { HasMasks P.plan.taps P.plan.outs labels.now }
    requires paired { IsTrue PAIRED → IsPaired P.plan.taps P.plan.outs }
    requires step { t < P.plan.steps }
    ensures { IsZeroRow P.plan wide.now t after.now result }
{
    let costs = lane_costs::<P, PAIRED>(wide, labels, t);
    woven(
        summed(costs.even_zero, low(after)),
        summed(costs.odd_zero, low(after)),
    )
}
