// An audit as a work over slots.
ghost use Rattle.std.specs.Prelude.{◌≡◌, ◌<◌, ◌≤◌, length, List, ℕ, [], take};
ghost use Rattle.tetra_settings.specs.Validity.{IsValid};
ghost use Rattle.tetra_engine.specs.Auditing.{auditing, Claimed};

use crate::intake::Intake;
use crate::refusals::Refusals;
use crate::status::Status;
use crate::verdicts::line_of_slot;
use crate::work::{Stop, Work};
use arrayvec::ArrayVec;
use tetra_audit::{audit_slot_with, claim_len};
use tetra_bits::Potentials;
use tetra_io::{Filled, Sink, SinkFault, Source, fill, put_all};
use tetra_records::RecordFault;
use tetra_rm::AccessCode;
use tetra_session::Front;
use tetra_settings::Settings;

/// An audit: the access code, the slots that are read, which of them were refused, and of the last one its number, what a
/// receiver takes from it, the record that is claimed for it, and potentials into which certificates are read.
#[derive(Drop)]
pub struct Auditor {
    code: AccessCode,
    intake: Intake,
    refusals: Refusals,
    slot: u32,
    front: Front,
    claim: [u8; 18_743],
    len: usize,
    potentials: Potentials,
}

impl Auditor {
    ghost use Rattle.tetra_engine.specs.Auditor.{AuditorStands};

    /// An audit before the first slot.
    pub fn new(settings: &Settings) -> Auditor
        requires valid { IsValid settings.now }
        ensures stands { AuditorStands result [] }
        ensures settings { result.intake.settings ≡ settings.now }
    {
        Auditor {
            code: AccessCode::of(&settings.rows),
            intake: Intake::new(settings),
            refusals: Refusals::new(),
            slot: 0,
            front: Front {
                letter: 0,
                fields: ArrayVec::new(),
            },
            claim: [0; 18_743],
            len: 0,
            potentials: Potentials::new(),
        }
    }
}

impl Work for Auditor {
    ghost use Rattle.tetra_engine.specs.Auditor.{AuditorStands, AuditorHolds};
    ghost use Rattle.std.proofs.Common.{arith, length-append};

    ghost Input = { Claimed };

    ghost shape = { auditing };

    ghost settings = { λ a. a.intake.settings };

    ghost stands = { AuditorStands };

    ghost holds = { AuditorHolds };

    ghost some = { λ settings before x fits. Prim.omega (arith, length-append x.0 x.1) };

    fn read<S: Source>(&mut self, src: &mut S, slot: u32) -> Result<(), Stop> {
        if let Err(stop) = self.intake.next(src) {
            return Err(stop);
        }
        let intake = &mut self.intake;
        intake.receiver.front_into(&intake.soft, &mut self.front);
        self.slot = slot;
        self.len = claim_len(&self.front);
        match fill(src, &mut self.claim[..self.len]) {
            Filled::Whole => Ok(()),
            Filled::Ended(_) => Err(Stop::Bad(RecordFault::Truncated)),
            Filled::Fault => Err(Stop::Fault),
        }
    }

    fn write<K: Sink>(&mut self, sink: &mut K) -> Result<(), SinkFault> {
        let verdict = audit_slot_with(
            &mut self.potentials,
            &self.code,
            &self.front,
            &self.claim[..self.len],
        );
        self.refusals.judge(self.slot as u64, verdict);
        let line = line_of_slot(self.slot as u64, verdict);
        put_all(sink, line.as_str().as_bytes())
    }

    fn end(&self) -> Status {
        self.refusals.status()
    }
}
