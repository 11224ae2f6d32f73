// The verdict of a check as C has it.
ghost use Rattle.std.specs.Prelude.{◌≡◌};
ghost use Rattle.tetra_c.specs.Verdicts.{verdict_for, rule_number};

use tetra_cert::{Rule, Verdict};

/// What the rules of certificates say: where `rule` is 0, all hold. Else it is the number of the first that does not, 1 to
/// 5 for `End`, `Edge0`, `Edge1`, `Path` and `Tie`, and `step` and `state` say where, counted from 0.
#[repr(C)]
#[derive(Clone, Copy, PartialEq, Eq, Debug)]
pub struct TetraVerdict {
    pub step: u16,
    pub state: u8,
    pub rule: u8,
}

/// The number of a rule, from 1 to 5.
fn rule_number(rule: Rule) -> u8
    ensures { result ≡ rule_number rule }
{
    match rule {
        Rule::End => 1,
        Rule::Edge0 => 2,
        Rule::Edge1 => 3,
        Rule::Path => 4,
        Rule::Tie => 5,
    }
}

/// A verdict for C.
pub fn verdict_for(verdict: Verdict) -> TetraVerdict
    ensures { result ≡ verdict_for verdict }
{
    match verdict {
        Verdict::Accepted => TetraVerdict {
            step: 0,
            state: 0,
            rule: 0,
        },
        Verdict::Refused { step, state, rule } => TetraVerdict {
            step,
            state,
            rule: rule_number(rule),
        },
    }
}
