// The rows of the potentials, each from the next, and the marks of the free steps.
ghost use Rattle.std.specs.Prelude.{◌≡◌, ◌<◌, ◌≤◌, ◌+◌, ◌*◌, ◌^◌, [], ℕ, true, IsTrue, length, slice_index_or};
ghost use Rattle.tetra_bits.specs.Readings.{HasRows};
ghost use Rattle.tetra_bits.specs.Soft.{AllSoft};
ghost use Rattle.tetra_puncture.specs.Butterflies.{HasMasks, IsPaired, MarkedFrom};
ghost use Rattle.tetra_puncture.specs.Decoding.{BackFrom, IsBackward};
ghost use Rattle.tetra_puncture.specs.Labels.{HasLabels};

use crate::lanes::lane_row;
use tetra_bits::{Table, Wide};
use tetra_puncture::{Labels, MarkedRow, Plan, is_paired};

/// Fills the table with the costs to go, and marks the states of each free step at which bit 0 gives the entry.
pub fn fill<P: Plan, T: Table>(wide: &Wide, labels: &Labels, table: &mut T, marks: &mut [u16; 288])
    requires sound { P.IsSound }
    requires size { length wide.now ≡ P.plan.outs * P.plan.steps }
    requires soft { AllSoft wide.now }
    requires labels { HasLabels P.plan.taps P.plan.outs labels.now }
    requires masks { HasMasks P.plan.taps P.plan.outs labels.now }
    ensures rows { length (T.rows_of table.new) ≡ P.plan.steps + 1 }
    ensures states { HasRows (T.rows_of table.new) }
    ensures backward { IsBackward P.plan wide.now (T.rows_of table.new) }
    ensures marks { MarkedFrom P.plan wide.now (T.rows_of table.new) marks.new 0 }
{
    if is_paired::<P::Code>() {
        fill_rows::<P, T, true>(wide, labels, table, marks);
    } else {
        fill_rows::<P, T, false>(wide, labels, table, marks);
    }
}

/// The same, by the lanes of a code that is paired or of any.
fn fill_rows<P: Plan, T: Table, const PAIRED: bool>(
    wide: &Wide,
    labels: &Labels,
    table: &mut T,
    marks: &mut [u16; 288],
)
    requires sound { P.IsSound }
    requires size { length wide.now ≡ P.plan.outs * P.plan.steps }
    requires soft { AllSoft wide.now }
    requires labels { HasLabels P.plan.taps P.plan.outs labels.now }
    requires masks { HasMasks P.plan.taps P.plan.outs labels.now }
    requires paired { IsTrue PAIRED → IsPaired P.plan.taps P.plan.outs }
    ensures rows { length (T.rows_of table.new) ≡ P.plan.steps + 1 }
    ensures states { HasRows (T.rows_of table.new) }
    ensures backward { IsBackward P.plan wide.now (T.rows_of table.new) }
    ensures marks { MarkedFrom P.plan wide.now (T.rows_of table.new) marks.new 0 }
{
    fill_tail::<P, T, PAIRED>(wide, labels, table);
    for t in (0..P::STEPS - 4).rev() {
        let before = lane_row::<P, PAIRED>(wide, labels, t, table.row_at(t + 1));
        table.put_row(t, before.row);
        marks[t] = before.marks;
    }
}

/// Makes the table as long as it has to be, and fills the row behind the last step and those before the last four steps.
/// A call of its own: with this loop inside, the loop over the free steps would be compiled to slower code.
#[inline(never)]
fn fill_tail<P: Plan, T: Table, const PAIRED: bool>(wide: &Wide, labels: &Labels, table: &mut T)
    requires sound { P.IsSound }
    requires size { length wide.now ≡ P.plan.outs * P.plan.steps }
    requires soft { AllSoft wide.now }
    requires labels { HasLabels P.plan.taps P.plan.outs labels.now }
    requires masks { HasMasks P.plan.taps P.plan.outs labels.now }
    requires paired { IsTrue PAIRED → IsPaired P.plan.taps P.plan.outs }
    ensures back { (t : ℕ) → t + 4 ≡ P.plan.steps → BackFrom P.plan wide.now (T.rows_of table.new) t }
    ensures states { (t u : ℕ) → t + 4 ≡ P.plan.steps → t ≤ u → u ≤ P.plan.steps
        → length (slice_index_or (T.rows_of table.new) u []) ≡ 16 }
{
    let steps = P::STEPS;
    table.begin(steps + 1);
    table.put_row(steps, [0; 16]);
    for t in (steps - 4..steps).rev() {
        let last = lane_row::<P, PAIRED>(wide, labels, t, table.row_at(t + 1));
        table.put_row(t, last.row);
    }
}
