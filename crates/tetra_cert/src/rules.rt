// The rules, one by one.
ghost use Rattle.std.specs.Prelude.{◌≡◌, ◌<◌, ◌≤◌, ◌+◌, ◌*◌, ◌↔◌, ℕ, length, IsTrue};
ghost use Rattle.tetra_puncture.specs.Labels.{HasLabels};
ghost use Rattle.tetra_puncture.specs.Trellis.{bit_taken, over_branch, state_passed};
ghost use Rattle.tetra_puncture.specs.Rules.{Holds};
ghost use Rattle.tetra_cert.specs.Checked.{IsFirstOfRules, IsFirstOfStates};

use tetra_bits::{Bits, Potentials, Wide};
use tetra_mother::next;
use tetra_puncture::{Labels, Plan, Rule, branch_cost};

/// A rule that does not hold at a state.
#[derive(Clone, Copy, Drop)]
pub struct Failing {
    pub state: u8,
    pub rule: Rule,
}

/// The bit that the message takes at step `t`: behind its end a tail bit 0.
#[tactic(auto, using(tetra_puncture::specs::lemmas::Steps::bit_taken_is, tetra_puncture::specs::lemmas::Steps::bit_taken_tail))]
pub fn taken(message: &Bits, t: usize) -> bool
    ensures { result ≡ bit_taken message.now t }
{
    t < message.len() && message.get(t)
}

/// The cost of step `t` from `state` with `bit`, and what the table says of the rest.
fn over<P: Plan>(
    wide: &Wide,
    labels: &Labels,
    table: &Potentials,
    t: usize,
    state: u8,
    bit: bool,
) -> u64
    requires sound { P.IsSound }
    requires size { length wide.now ≡ P.plan.outs * P.plan.steps }
    requires labels { HasLabels P.plan.taps P.plan.outs labels.now }
    requires rows { length table.now ≡ P.plan.steps + 1 }
    requires step { t < P.plan.steps }
    requires state { state < 16 }
    ensures { result ≡ over_branch P.plan wide.now table.now t state bit }
{
    let rest = table.at(t + 1, usize::from(next(state, bit)));
    u64::from(branch_cost::<P>(wide, labels, t, state, bit)) + u64::from(rest)
}

/// Whether a rule holds at step `t` and `state`, where the message passes the state `path` before that step.
#[tactic(auto, unfolding(tetra_puncture::specs::Rules::Holds))]
fn holds<P: Plan>(
    wide: &Wide,
    labels: &Labels,
    message: &Bits,
    table: &Potentials,
    t: usize,
    state: u8,
    path: u8,
    rule: Rule,
) -> bool
    requires sound { P.IsSound }
    requires size { length wide.now ≡ P.plan.outs * P.plan.steps }
    requires labels { HasLabels P.plan.taps P.plan.outs labels.now }
    requires rows { length table.now ≡ P.plan.steps + 1 }
    requires step { t ≤ P.plan.steps }
    requires state { state < 16 }
    requires path { path ≡ state_passed message.now t }
    ensures { IsTrue result ↔ Holds P.plan wide.now message.now table.now t state rule }
{
    let steps = P::STEPS;
    let entry = u64::from(table.at(t, usize::from(state)));
    match rule {
        Rule::End => t < steps || entry == 0,
        Rule::Edge0 => t == steps || entry <= over::<P>(wide, labels, table, t, state, false),
        Rule::Edge1 => t + 4 >= steps || entry <= over::<P>(wide, labels, table, t, state, true),
        Rule::Path => {
            t == steps
                || state != path
                || entry == over::<P>(wide, labels, table, t, state, taken(message, t))
        }
        Rule::Tie => {
            t == steps
                || state != path
                || !taken(message, t)
                || entry < over::<P>(wide, labels, table, t, state, false)
        }
    }
}

/// The first rule that does not hold at step `t` and `state`.
#[tactic(auto, unfolding(crate::specs::Checked::IsFirstOfRules, tetra_puncture::specs::Rules::rank))]
fn first_of_rules<P: Plan>(
    wide: &Wide,
    labels: &Labels,
    message: &Bits,
    table: &Potentials,
    t: usize,
    state: u8,
    path: u8,
) -> Option<Rule>
    requires sound { P.IsSound }
    requires size { length wide.now ≡ P.plan.outs * P.plan.steps }
    requires labels { HasLabels P.plan.taps P.plan.outs labels.now }
    requires rows { length table.now ≡ P.plan.steps + 1 }
    requires step { t ≤ P.plan.steps }
    requires state { state < 16 }
    requires path { path ≡ state_passed message.now t }
    ensures { IsFirstOfRules P.plan wide.now message.now table.now t state result }
{
    if !holds::<P>(wide, labels, message, table, t, state, path, Rule::End) {
        return Some(Rule::End);
    }
    if !holds::<P>(wide, labels, message, table, t, state, path, Rule::Edge0) {
        return Some(Rule::Edge0);
    }
    if !holds::<P>(wide, labels, message, table, t, state, path, Rule::Edge1) {
        return Some(Rule::Edge1);
    }
    if !holds::<P>(wide, labels, message, table, t, state, path, Rule::Path) {
        return Some(Rule::Path);
    }
    if !holds::<P>(wide, labels, message, table, t, state, path, Rule::Tie) {
        return Some(Rule::Tie);
    }
    None
}

/// The first state at which a rule does not hold at step `t`, and the first such rule.
pub fn first_of_states<P: Plan>(
    wide: &Wide,
    labels: &Labels,
    message: &Bits,
    table: &Potentials,
    t: usize,
    path: u8,
) -> Option<Failing>
    requires sound { P.IsSound }
    requires size { length wide.now ≡ P.plan.outs * P.plan.steps }
    requires labels { HasLabels P.plan.taps P.plan.outs labels.now }
    requires rows { length table.now ≡ P.plan.steps + 1 }
    requires step { t ≤ P.plan.steps }
    requires path { path ≡ state_passed message.now t }
    ensures { IsFirstOfStates P.plan wide.now message.now table.now t result }
{
    for state in 0..16 {
        if let Some(rule) = first_of_rules::<P>(wide, labels, message, table, t, state, path) {
            return Some(Failing { state, rule });
        }
    }
    None
}
