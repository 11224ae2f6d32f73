// The slots that an audit refused.
ghost use Rattle.std.specs.Prelude.{◌≡◌, ◌<◌, ◌++◌, [], List, ℕ};
ghost use Rattle.tetra_engine.specs.Outcomes.{IsEnd};
ghost use Rattle.tetra_engine.specs.Auditing.{audit_status, refused_by};

use crate::status::Status;
use tetra_audit::SlotVerdict;

/// How many slots were refused, and the number of the first.
#[derive(Clone, Copy, Debug, PartialEq, Eq)]
pub struct Refusals {
    pub first: u64,
    pub count: u64,
}

impl Refusals {
    ghost use Rattle.tetra_engine.specs.Refusals.{Counts};

    /// No slot was refused.
    pub fn new() -> Refusals
        ensures { Counts result [] }
    {
        Refusals { first: 0, count: 0 }
    }

    /// Counts the slot, where it is refused.
    pub fn judge(&mut self, slot: u64, verdict: SlotVerdict)
        requires { self.old.count < 16777216 }
        ensures { (slots : List ℕ) → Counts self.old slots → Counts self.new (slots ++ refused_by slot verdict) }
    {
        if verdict == SlotVerdict::Agrees {
            return;
        }
        if self.count == 0 {
            self.first = slot;
        }
        self.count += 1;
    }

    /// The status at the end of the input.
    pub fn status(&self) -> Status
        ensures status { (slots : List ℕ) → Counts self.now slots → result ≡ audit_status slots }
        ensures quiet { IsEnd result }
    {
        if self.count == 0 {
            Status::Done
        } else {
            Status::Refused {
                slot: self.first,
                count: self.count,
            }
        }
    }
}
