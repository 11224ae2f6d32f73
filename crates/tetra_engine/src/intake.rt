// Slots of 510 bytes, one behind the other, and the receiver that they go to.
ghost use Rattle.std.specs.Prelude.{◌≡◌, ◌≤◌, []};
ghost use Rattle.tetra_settings.specs.Validity.{IsValid};

use crate::slots::read_values;
use crate::work::Stop;
use tetra_io::{Filled, Source, fill};
use tetra_records::RecordFault;
use tetra_session::Receiver;
use tetra_settings::Settings;

/// What a command takes in that reads slots: the slot that was read last, as bytes and as soft values, and the receiver
/// that it goes to.
#[derive(Drop)]
pub struct Intake {
    pub settings: Settings,
    pub receiver: Receiver,
    pub bytes: [u8; 510],
    pub soft: [i16; 510],
}

impl Intake {
    ghost use Rattle.tetra_engine.specs.Intake.{IntakeStands, IntakeGives};
    ghost use Rattle.tetra_engine.specs.Working.{ReadRose, ends_by_input};

    /// An intake before the first slot.
    pub fn new(settings: &Settings) -> Intake
        requires valid { IsValid settings.now }
        ensures stands { IntakeStands result [] }
        ensures settings { result.settings ≡ settings.now }
    {
        Intake {
            settings: *settings,
            receiver: Receiver::new(settings),
            bytes: [0; 510],
            soft: [0; 510],
        }
    }

    /// Reads the next slot. The receiver takes nothing of it yet.
    pub fn next<S: Source>(&mut self, src: &mut S) -> Result<(), Stop>
        ensures gives { IntakeGives self.new (S.rest src.old) (S.rest src.new) result }
        ensures settings { self.new.settings ≡ self.old.settings }
        ensures receiver { self.new.receiver ≡ self.old.receiver }
        ensures later { S.faults src.old ≤ S.faults src.new }
        ensures cause { ReadRose (S.faults src.old) (S.faults src.new) result }
        ensures ended { S.ends src.new ≡ ends_by_input result (S.ends src.old) }
    {
        match fill(src, &mut self.bytes) {
            Filled::Whole => {}
            Filled::Ended(0) => return Err(Stop::End),
            Filled::Ended(_) => return Err(Stop::Bad(RecordFault::Truncated)),
            Filled::Fault => return Err(Stop::Fault),
        }
        read_values(&self.bytes, &mut self.soft);
        Ok(())
    }
}
