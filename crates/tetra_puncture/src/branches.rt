// What the branches of one step of the trellis cost. Decoder and checker both stand on it.
ghost use Rattle.std.specs.Prelude.{◌≡◌, ◌<◌, ◌≤◌, ◌+◌, ◌*◌, ◌^◌, ◌∷◌, [], ℕ, Bool, false, true, pos, length, slice_index, IsTrue};
ghost use Rattle.tetra_bits.specs.Cost.{cost};
ghost use Rattle.tetra_bits.specs.Order.{bit_at};
ghost use Rattle.tetra_bits.specs.Soft.{IsSoft, value_at};
ghost use Rattle.tetra_mother.specs.Generators.{quarter};
ghost use Rattle.tetra_puncture.specs.Labels.{number_of, label_at, HasLabels, AreLabels, IsStep, AreCosts};
ghost use Rattle.tetra_puncture.specs.Butterflies.{HasMasks, IsPaired, AreLaneCosts, masked_cost, turned_cost};
ghost use Rattle.tetra_puncture.specs.Trellis.{step_cost};

use crate::butterflies::masked_costs;
use crate::lanes::{even, odd};
use crate::masks::masks_of;
use crate::plan::Plan;
use crate::quarter::{is_quarter, quarter_costs};
use std::simd::prelude::*;
use tetra_bits::{Wide, cost};
use tetra_mother::{Mother, outs};

/// The labels of the 32 branches of a mother code, by the state that they leave, for bit 0 and for bit 1. The label of
/// a branch is its outputs as a number, the first one highest. This project's own.
#[derive(Drop)]
pub struct Labels {
    zero: [usize; 16],
    one: [usize; 16],
    masks: [[u32; 8]; 4],
}

impl Labels {
    /// The labels of all branches.
    pub fn of<M: Mother>() -> Labels
        ensures labels { HasLabels M.taps M.OUTS result }
        ensures masks { HasMasks M.taps M.OUTS result }
    {
        if is_quarter::<M>() {
            Labels::of_quarter()
        } else {
            Labels::of_any::<M>()
        }
    }

    /// Those of the code of rate 1/4, written out.
    fn of_quarter() -> Labels
        ensures labels { HasLabels quarter 4 result }
        ensures masks { HasMasks quarter 4 result }
    {
        const ALL: u32 = u32::MAX;
        Labels {
            zero: [0, 15, 5, 10, 6, 9, 3, 12, 11, 4, 14, 1, 13, 2, 8, 7],
            one: [15, 0, 10, 5, 9, 6, 12, 3, 4, 11, 1, 14, 2, 13, 7, 8],
            masks: [
                [0, 0, 0, 0, ALL, ALL, ALL, ALL],
                [0, ALL, ALL, 0, 0, ALL, ALL, 0],
                [0, 0, ALL, ALL, ALL, ALL, 0, 0],
                [0, ALL, 0, ALL, ALL, 0, ALL, 0],
            ],
        }
    }

    /// Those of any code, from its outputs.
    fn of_any<M: Mother>() -> Labels
        ensures labels { HasLabels M.taps M.OUTS result }
        ensures masks { HasMasks M.taps M.OUTS result }
    {
        let zero = labels_of::<M>(false);
        Labels {
            masks: [
                masks_of(&zero, 8),
                masks_of(&zero, 4),
                masks_of(&zero, 2),
                masks_of(&zero, 1),
            ],
            zero,
            one: labels_of::<M>(true),
        }
    }

    /// The label of the branch from `state` with `bit`.
    #[tactic(auto, unfolding(crate::specs::Labels::label_at))]
    fn at(&self, state: u8, bit: bool) -> usize
        requires { state < 16 }
        ensures { result ≡ label_at self.now state bit }
    {
        let state = usize::from(state);
        if bit {
            self.one[state]
        } else {
            self.zero[state]
        }
    }
}

/// Four outputs as a number, the first one highest.
#[tactic(auto, unfolding(crate::specs::Labels::number_of))]
fn label(outputs: [bool; 4]) -> usize
    ensures { result ≡ number_of (bit_at outputs 0) (bit_at outputs 1) (bit_at outputs 2) (bit_at outputs 3) }
{
    let [a, b, c, d] = outputs;
    8 * usize::from(a) + 4 * usize::from(b) + 2 * usize::from(c) + usize::from(d)
}

/// The labels of the branches with `bit`.
fn labels_of<M: Mother>(bit: bool) -> [usize; 16]
    ensures { AreLabels M.taps M.OUTS bit result }
{
    let mut labels = [0; 16];
    for state in 0..16u8 {
        labels[usize::from(state)] = label(outs::<M>(state, bit));
    }
    labels
}

/// The soft values of step `t`, with zeros past the last output.
fn step_values<M: Mother>(wide: &Wide, t: usize) -> [i16; 4]
    requires step { M.OUTS * t + M.OUTS ≤ length wide.now }
    requires size { length wide.now ≤ 1168 }
    ensures step { IsStep M.OUTS wide.now t result }
    ensures soft { (i : ℕ) → IsSoft (value_at result i) }
{
    let outs = M::OUTS;
    let mut values = [0; 4];
    for i in 0..outs {
        values[i] = wide.get(outs * t + i);
    }
    values
}

/// The costs of two values as the pairs of bits 00, 01, 10 and 11.
fn pair_costs(a: i16, b: i16) -> [u32; 4]
    requires { IsSoft a × IsSoft b }
    ensures value { result ≡ (cost a false + cost b false) ∷ (cost a false + cost b true)
        ∷ (cost a true + cost b false) ∷ (cost a true + cost b true) ∷ [] }
    ensures small { (i : ℕ) → slice_index result i ≤ 2 ^ 16 }
{
    let a0 = cost(a, false);
    let a1 = cost(a, true);
    let b0 = cost(b, false);
    let b1 = cost(b, true);
    [a0 + b0, a0 + b1, a1 + b0, a1 + b1]
}

/// The costs of four values as the outputs of each label.
fn label_costs(values: [i16; 4]) -> [u32; 16]
    requires { (i : ℕ) → IsSoft (value_at values i) }
    ensures value { AreCosts values result }
    ensures small { (w : ℕ) → w < 16 → slice_index result w ≤ 2 ^ 17 }
{
    let first = pair_costs(values[0], values[1]);
    let second = pair_costs(values[2], values[3]);
    let mut costs = [0; 16];
    for label in 0..16 {
        costs[label] = first[label / 4] + second[label % 4];
    }
    costs
}

/// What step `t`, counted from 0, costs from `state` with `bit`, over the values `wide` at all places of the mother
/// word.
pub fn branch_cost<P: Plan>(wide: &Wide, labels: &Labels, t: usize, state: u8, bit: bool) -> u32
    requires sound { P.IsSound }
    requires size { length wide.now ≡ P.plan.outs * P.plan.steps }
    requires labels { HasLabels P.plan.taps P.plan.outs labels.now }
    requires step { t < P.plan.steps }
    requires state { state < 16 }
    ensures value { result ≡ step_cost P.plan wide.now t state bit }
    ensures small { result ≤ 2 ^ 17 }
{
    let costs = label_costs(step_values::<P::Code>(wide, t));
    costs[labels.at(state, bit)]
}

/// What the branches of a step cost, by the state that they leave: those with bit 0, and those with bit 1.
#[derive(Drop)]
pub struct BranchCosts {
    pub zero: [u32; 16],
    pub one: [u32; 16],
}

/// What step `t`, counted from 0, costs from all states, over the values `wide` at all places of the mother word.
#[inline(always)]
pub fn branch_costs<P: Plan>(wide: &Wide, labels: &Labels, t: usize) -> BranchCosts
    requires sound { P.IsSound }
    requires size { length wide.now ≡ P.plan.outs * P.plan.steps }
    requires labels { HasLabels P.plan.taps P.plan.outs labels.now }
    requires step { t < P.plan.steps }
    ensures zero { (s : ℕ) → s < 16 → slice_index result.zero s ≡ step_cost P.plan wide.now t s false }
    ensures one { (s : ℕ) → s < 16 → slice_index result.one s ≡ step_cost P.plan wide.now t s true }
    ensures small { (s : ℕ) → s < 16 → (slice_index result.zero s ≤ 2 ^ 17) × (slice_index result.one s ≤ 2 ^ 17) }
{
    let costs = label_costs(step_values::<P::Code>(wide, t));
    BranchCosts {
        zero: costs_with(&costs, labels, false),
        one: costs_with(&costs, labels, true),
    }
}

/// The costs of the branches with `bit`, by the state that they leave.
fn costs_with(costs: &[u32; 16], labels: &Labels, bit: bool) -> [u32; 16]
    requires { (s : ℕ) (b : Bool) → s < 16 → label_at labels.now s b < 16 }
    ensures { (s : ℕ) → s < 16 → slice_index result s ≡ slice_index costs.now (label_at labels.now s bit) }
{
    let mut all = [0; 16];
    for state in 0..16u8 {
        all[usize::from(state)] = costs[labels.at(state, bit)];
    }
    all
}

/// What the branches of a step cost by lanes: lane `i` of each field has the state `2 i` or `2 i + 1`.
#[derive(Clone, Copy, Drop)]
pub struct LaneCosts {
    pub even_zero: u32x8,
    pub even_one: u32x8,
    pub odd_zero: u32x8,
    pub odd_one: u32x8,
}

/// The costs of four values as the outputs of each lane, and as the complements of those outputs. Sums of pairs serve the
/// code of rate 1/4, masks any code.
#[inline(always)]
fn paired_costs<M: Mother>(labels: &Labels, values: [i16; 4]) -> (u32x8, u32x8)
    requires masks { HasMasks M.taps M.OUTS labels.now }
    requires soft { (i : ℕ) → IsSoft (value_at values i) }
    ensures long { (length result.0 ≡ 8) × (length result.1 ≡ 8) }
    ensures cost { (i : ℕ) → i < 8 → slice_index result.0 i ≡ masked_cost labels.now.masks values i }
    ensures turned { (i : ℕ) → i < 8 → slice_index result.1 i ≡ turned_cost labels.now.masks values i }
{
    if is_quarter::<M>() {
        quarter_costs(values)
    } else {
        masked_costs(&labels.masks, values)
    }
}

/// The same as `branch_costs` by lanes. Of a code that is paired those with bit 0 from the even states are enough.
#[inline(always)]
pub fn lane_costs<P: Plan, const PAIRED: bool>(wide: &Wide, labels: &Labels, t: usize) -> LaneCosts
    requires sound { P.IsSound }
    requires size { length wide.now ≡ P.plan.outs * P.plan.steps }
    requires labels { HasLabels P.plan.taps P.plan.outs labels.now }
    requires masks { HasMasks P.plan.taps P.plan.outs labels.now }
    requires paired { IsTrue PAIRED → IsPaired P.plan.taps P.plan.outs }
    requires step { t < P.plan.steps }
    ensures { AreLaneCosts P.plan wide.now t result }
{
    if PAIRED {
        let (cost, turned) = paired_costs::<P::Code>(labels, step_values::<P::Code>(wide, t));
        LaneCosts {
            even_zero: cost,
            even_one: turned,
            odd_zero: turned,
            odd_one: cost,
        }
    } else {
        let costs = branch_costs::<P>(wide, labels, t);
        LaneCosts {
            even_zero: even(&costs.zero),
            even_one: even(&costs.one),
            odd_zero: odd(&costs.zero),
            odd_one: odd(&costs.one),
        }
    }
}
