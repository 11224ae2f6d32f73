// The rules of one step at all states at once.
ghost use Rattle.std.specs.Prelude.{◌≡◌, ◌<◌, ◌≤◌, ◌+◌, ◌*◌, ◌^◌, ℕ, true, false, IsTrue, length, slice_index};
ghost use Rattle.tetra_mother.specs.Mother.{next_state};
ghost use Rattle.tetra_puncture.specs.Labels.{HasLabels};
ghost use Rattle.tetra_puncture.specs.Rules.{Holds};
ghost use Rattle.tetra_puncture.specs.Trellis.{state_passed};
ghost use Rattle.tetra_puncture.specs.declared.rule.Rule.{Rule};

use crate::lanes::{added, behind_one, behind_zero, capped, some_above};
use crate::rules::taken;
use std::simd::prelude::*;
use tetra_bits::{Bits, Potentials, Wide};
use tetra_mother::next;
use tetra_puncture::{BranchCosts, Labels, Plan, branch_costs};

/// Whether no entry of a row is above the cost of a branch and the entry behind it. The entries behind are taken as
/// at most 2^31, so that no sum wraps: larger ones can only make the answer false.
fn edges_hold(row: &[u32; 16], costs: &[u32; 16], behind: u32x16) -> bool
    requires long { length behind ≡ 16 }
    requires small { (s : ℕ) → s < 16 → slice_index costs.now s ≤ 2 ^ 17 }
    ensures { IsTrue result → (s : ℕ) → s < 16
        → slice_index row.now s ≤ slice_index costs.now s + slice_index behind s }
{
    let sums = added(u32x16::from_array(*costs), capped(behind, 2147483648));
    !some_above(u32x16::from_array(*row), sums)
}

/// Whether no entry of a row is above what an edge gives, with bit 0 and, where `both`, with bit 1:
/// true only where none is.
fn all_edges_hold(row: &[u32; 16], after: &[u32; 16], costs: &BranchCosts, both: bool) -> bool
    requires small { (s : ℕ) → s < 16
        → (slice_index costs.now.zero s ≤ 2 ^ 17) × (slice_index costs.now.one s ≤ 2 ^ 17) }
    ensures zero { IsTrue result → (s : ℕ) → s < 16
        → slice_index row.now s ≤ slice_index costs.now.zero s + slice_index after.now (next_state s false) }
    ensures one { IsTrue result → IsTrue both → (s : ℕ) → s < 16
        → slice_index row.now s ≤ slice_index costs.now.one s + slice_index after.now (next_state s true) }
{
    edges_hold(row, &costs.zero, behind_zero(after))
        && (!both || edges_hold(row, &costs.one, behind_one(after)))
}

/// Whether the entry of the state `path` is the cost of `bit` and the entry that it leads to, and, for
/// bit 1, below the cost of bit 0 and the entry that this leads to.
fn path_holds(row: &[u32; 16], after: &[u32; 16], costs: &BranchCosts, path: u8, bit: bool) -> bool
    requires { path < 16 }
    ensures zero { IsTrue result → bit ≡ false
        → slice_index row.now path ≡ slice_index costs.now.zero path + slice_index after.now (next_state path false) }
    ensures one { IsTrue result → bit ≡ true
        → slice_index row.now path ≡ slice_index costs.now.one path + slice_index after.now (next_state path true) }
    ensures tie { IsTrue result → bit ≡ true
        → slice_index row.now path < slice_index costs.now.zero path + slice_index after.now (next_state path false) }
{
    let at = usize::from(path);
    let entry = u64::from(row[at]);
    let by_zero = u64::from(costs.zero[at]) + u64::from(after[usize::from(next(path, false))]);
    if !bit {
        return entry == by_zero;
    }
    let by_one = u64::from(costs.one[at]) + u64::from(after[usize::from(next(path, true))]);
    entry == by_one && entry < by_zero
}

/// Whether the rules of step `t` hold at all states, where the message passes the state `path` before
/// that step: true only where they do.
pub fn step_holds<P: Plan>(
    wide: &Wide,
    labels: &Labels,
    message: &Bits,
    table: &Potentials,
    t: usize,
    path: u8,
) -> bool
    requires sound { P.IsSound }
    requires size { length wide.now ≡ P.plan.outs * P.plan.steps }
    requires labels { HasLabels P.plan.taps P.plan.outs labels.now }
    requires rows { length table.now ≡ P.plan.steps + 1 }
    requires step { t < P.plan.steps }
    requires small { path < 16 }
    requires path { path ≡ state_passed message.now t }
    ensures { IsTrue result → (s : ℕ) (rule : Rule) → s < 16 → Holds P.plan wide.now message.now table.now t s rule }
{
    let costs = branch_costs::<P>(wide, labels, t);
    let row = table.row(t);
    let after = table.row(t + 1);
    all_edges_hold(row, after, &costs, t + 4 < P::STEPS)
        && path_holds(row, after, &costs, path, taken(message, t))
}
