// A message and its table, step by step.
ghost use Rattle.std.specs.Prelude.{◌≡◌, ◌<◌, ◌≤◌, ◌+◌, ◌*◌, true, false, length};
ghost use Rattle.tetra_puncture.specs.Labels.{HasLabels};
ghost use Rattle.tetra_puncture.specs.Plan.{IsMessage};
ghost use Rattle.tetra_puncture.specs.Rules.{IsAccepted};
ghost use Rattle.tetra_puncture.specs.Spread.{spread_values};
ghost use Rattle.tetra_puncture.specs.Trellis.{state_passed};
ghost use Rattle.tetra_cert.specs.Checked.{IsRight, IsSound, IsFirstOfStates};
ghost use Rattle.tetra_cert.specs.Verdicts.{verdict_of};

use crate::rules::{Failing, first_of_states, taken};
use crate::steps::step_holds;
use crate::tables::all_hold;
use crate::verdict::Verdict;
use tetra_bits::{Bits, Potentials, Soft, Wide};
use tetra_mother::next;
use tetra_puncture::{Labels, Plan, spread_into};

/// Whether `potentials`, whoever made them, show that `message` is the first-least message over the
/// received values `soft`. There are `SENT` values, `STEPS - 4` bits and `STEPS + 1` rows. The sums
/// that are compared are of 64 bits, so no entry makes them wrap. This project's own.
pub fn check<P: Plan>(soft: &Soft, message: &Bits, potentials: &Potentials) -> Verdict
    requires sound { P.IsSound }
    requires values { length soft.now ≡ P.SENT }
    requires message { IsMessage P.plan message.now }
    requires rows { length potentials.now ≡ P.STEPS + 1 }
    // Accepted exactly where all rules hold, and else the first that does not.
    ensures right { IsRight P.plan soft.now message.now potentials.now result }
    // The same as a function of the values, the message and the table.
    ensures value { result ≡ verdict_of P.plan soft.now message.now potentials.now }
    // Accepted shows that the message is first-least, with its metric, whoever made the table.
    ensures sound { IsSound P.plan soft.now message.now potentials.now result }
    // A table that meets the rules is accepted.
    ensures complete { IsAccepted P.plan (spread_values P.plan soft.now) message.now potentials.now
        → result ≡ Verdict.Accepted }
{
    let mut wide = Wide::new();
    spread_into::<P>(soft, &mut wide);
    let _places = wide.len();
    let labels = Labels::of::<P::Code>();
    if all_hold::<P>(&wide, &labels, message, potentials) {
        return Verdict::Accepted;
    }
    let mut path = 0;
    for t in 0..P::STEPS + 1 {
        if let Some(Failing { state, rule }) = failing_at::<P>(
            &wide, &labels, message, potentials, t, path,
        ) {
            return Verdict::Refused {
                step: t as u16,
                state,
                rule,
            };
        }
        path = next(path, taken(message, t));
    }
    Verdict::Accepted
}

/// The first state at which a rule does not hold at step `t`, and the first such rule. A step before the last
/// is first tried at all states at once, and state by state only where that does not show that all rules hold.
fn failing_at<P: Plan>(
    wide: &Wide,
    labels: &Labels,
    message: &Bits,
    table: &Potentials,
    t: usize,
    path: u8,
) -> Option<Failing>
    requires sound { P.IsSound }
    requires size { length wide.now ≡ P.plan.outs * P.plan.steps }
    requires labels { HasLabels P.plan.taps P.plan.outs labels.now }
    requires rows { length table.now ≡ P.plan.steps + 1 }
    requires step { t ≤ P.plan.steps }
    requires small { path < 16 }
    requires path { path ≡ state_passed message.now t }
    ensures { IsFirstOfStates P.plan wide.now message.now table.now t result }
{
    if t < P::STEPS && step_holds::<P>(wide, labels, message, table, t, path) {
        return None;
    }
    first_of_states::<P>(wide, labels, message, table, t, path)
}
