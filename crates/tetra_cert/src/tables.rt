// A whole table at once: whether it is the table of the costs to go, with the message that it gives.
ghost use Rattle.std.specs.Prelude.{◌≡◌, ◌<◌, ◌≤◌, ◌+◌, ◌*◌, ℕ, true, IsTrue, length};
ghost use Rattle.tetra_bits.specs.Soft.{AllSoft};
ghost use Rattle.tetra_puncture.specs.Butterflies.{HasMasks, IsPaired};
ghost use Rattle.tetra_puncture.specs.Labels.{HasLabels};
ghost use Rattle.tetra_puncture.specs.Plan.{IsMessage};
ghost use Rattle.tetra_puncture.specs.Rules.{IsAccepted};
ghost use Rattle.tetra_cert.specs.Tables.{RowFits, FreeRowsFit, TailRowsFit};

use std::simd::prelude::*;
use tetra_bits::{Bits, Potentials, Wide};
use tetra_puncture::{Labels, Plan, is_paired, marked_row, zero_row};

/// Whether two rows are the same.
#[inline(always)]
fn is_same(a: &[u32; 16], b: &[u32; 16]) -> bool
    ensures { IsTrue result → a.now ≡ b.now }
{
    u32x16::from_array(*a).simd_eq(u32x16::from_array(*b)).all()
}

/// Whether the table holds the costs to go and the message is the one that they give: true only where all rules hold.
/// Each row is compared with the one that comes from the row behind it modulo 2^32. As the last row is 0, no sum wraps
/// where all of them are the same.
pub fn all_hold<P: Plan>(wide: &Wide, labels: &Labels, message: &Bits, table: &Potentials) -> bool
    requires sound { P.IsSound }
    requires size { length wide.now ≡ P.plan.outs * P.plan.steps }
    requires soft { AllSoft wide.now }
    requires labels { HasLabels P.plan.taps P.plan.outs labels.now }
    requires masks { HasMasks P.plan.taps P.plan.outs labels.now }
    requires message { IsMessage P.plan message.now }
    requires rows { length table.now ≡ P.plan.steps + 1 }
    ensures { IsTrue result → IsAccepted P.plan wide.now message.now table.now }
{
    if !is_paired::<P::Code>() {
        return false;
    }
    if !tail_fits::<P, true>(wide, labels, table) {
        return false;
    }
    free_rows_fit::<P, true>(wide, labels, message, table)
}

/// Whether the row of step `t` is the least one before the row behind it, and the bit is 1 where its state, in this lane,
/// is not marked.
#[inline(always)]
fn row_fits<P: Plan, const PAIRED: bool>(
    wide: &Wide,
    labels: &Labels,
    table: &Potentials,
    t: usize,
    lane: u16,
    bit: bool,
) -> bool
    requires sound { P.IsSound }
    requires size { length wide.now ≡ P.plan.outs * P.plan.steps }
    requires labels { HasLabels P.plan.taps P.plan.outs labels.now }
    requires masks { HasMasks P.plan.taps P.plan.outs labels.now }
    requires paired { IsTrue PAIRED → IsPaired P.plan.taps P.plan.outs }
    requires rows { length table.now ≡ P.plan.steps + 1 }
    requires step { t < P.plan.steps }
    requires lane { lane < 16 }
    ensures { IsTrue result → RowFits P.plan wide.now table.now t lane bit }
{
    let before = marked_row::<P, PAIRED>(wide, labels, t, table.row(t + 1));
    let by_mark = (before.marks >> lane) % 2 == 0;
    is_same(table.row(t), &before.row) && bit == by_mark
}

/// Whether each row before the last four steps comes from the next one, and each bit is the one that is marked.
fn free_rows_fit<P: Plan, const PAIRED: bool>(
    wide: &Wide,
    labels: &Labels,
    message: &Bits,
    table: &Potentials,
) -> bool
    requires sound { P.IsSound }
    requires size { length wide.now ≡ P.plan.outs * P.plan.steps }
    requires labels { HasLabels P.plan.taps P.plan.outs labels.now }
    requires masks { HasMasks P.plan.taps P.plan.outs labels.now }
    requires paired { IsTrue PAIRED → IsPaired P.plan.taps P.plan.outs }
    requires message { IsMessage P.plan message.now }
    requires rows { length table.now ≡ P.plan.steps + 1 }
    ensures { IsTrue result → FreeRowsFit P.plan wide.now message.now table.now }
{
    let mut lane = 0;
    for t in 0..message.len() {
        let bit = message.get(t);
        if !row_fits::<P, PAIRED>(wide, labels, table, t, lane, bit) {
            return false;
        }
        lane = lane % 8 / 2 + 8 * (lane % 2) + 4 * u16::from(bit);
    }
    true
}

/// Whether the row behind the last step is 0, and each row of the last four steps comes from the next one by bit 0.
#[inline(never)]
fn tail_fits<P: Plan, const PAIRED: bool>(wide: &Wide, labels: &Labels, table: &Potentials) -> bool
    requires sound { P.IsSound }
    requires size { length wide.now ≡ P.plan.outs * P.plan.steps }
    requires labels { HasLabels P.plan.taps P.plan.outs labels.now }
    requires masks { HasMasks P.plan.taps P.plan.outs labels.now }
    requires paired { IsTrue PAIRED → IsPaired P.plan.taps P.plan.outs }
    requires rows { length table.now ≡ P.plan.steps + 1 }
    ensures { IsTrue result → TailRowsFit P.plan wide.now table.now }
{
    let steps = P::STEPS;
    for t in steps - 4..steps {
        if !is_same(
            table.row(t),
            &zero_row::<P, PAIRED>(wide, labels, t, table.row(t + 1)),
        ) {
            return false;
        }
    }
    is_same(table.row(steps), &[0; 16])
}
