// A command that works slot by slot, and the loop over its slots.
ghost use Rattle.std.specs.Prelude.{◌<◌, length, ◌≡◌, ◌≢◌, ◌≤◌, ◌∷◌, ◌++◌, [], List, OnOk, OnErr, IsTrue};
ghost use Rattle.std.specs.Io.KnownBytes.{Appends, IsAtEnd};
ghost use Rattle.tetra_io.specs.Streams.{Rose, HasCause};
ghost use Rattle.tetra_io.specs.Filling.{AddsFront};
ghost use Rattle.tetra_settings.specs.declared.types.Settings.{Settings};
ghost use Rattle.tetra_engine.specs.Shapes.{Shape};
ghost use Rattle.tetra_engine.specs.Outcomes.{EndsBy, TookBefore, IsEnd, EndsMet, Grows};
ghost use Rattle.tetra_engine.specs.Working.{ReadGives, ReadRose, StopRose, PastGives, ends_by_input, ends_by_stop, end_by};

use crate::status::{End, Status};
use tetra_io::{Filled, Sink, SinkFault, Source, fill};
use tetra_records::RecordFault;
use tetra_settings::Settings;

/// Why no input came.
#[derive(Clone, Copy, Debug, PartialEq, Eq)]
pub enum Stop {
    /// The input ended before the first byte of a slot.
    End,
    /// Bytes that are no input of the slot.
    Bad(RecordFault),
    /// A byte behind the last slot that may be read.
    More,
    /// A read failed.
    Fault,
}

/// A command that reads an input and writes an output for each slot.
pub trait Work {
    /// What is read for a slot.
    ghost Input: { Type 0 };

    /// What such a command reads and writes under its settings.
    ghost shape: { Settings → Shape Input };

    /// The settings that it works under.
    ghost settings: { Self → Settings };

    /// The work has read and written these inputs.
    ghost stands: { Self → List Input → Type 0 };

    /// The work has read and written these inputs, and holds the next one.
    ghost holds: { Self → List Input → Input → Type 0 };

    /// Reads the input of the slot behind those that were read, and holds it.
    fn read<S: Source>(&mut self, src: &mut S, slot: u32) -> Result<(), Stop>
        requires slot { slot < 16777216 }
        requires stands { (xs : List Input) × stands self.old xs × (slot ≡ length xs) }
        ensures gives { (xs : List Input) → stands self.old xs → slot ≡ length xs
            → ReadGives (shape (settings self.old)) xs (S.rest src.old) (S.rest src.new)
            (holds self.new xs) (stands self.new xs) result }
        ensures settings { settings self.new ≡ settings self.old }
        ensures later { S.faults src.old ≤ S.faults src.new }
        ensures cause { ReadRose (S.faults src.old) (S.faults src.new) result }
        ensures ended { S.ends src.new ≡ ends_by_input result (S.ends src.old) };

    /// Writes the output of the input that it holds.
    fn write<K: Sink>(&mut self, sink: &mut K) -> Result<(), SinkFault>
        requires { (xs : List Input) × (x : Input) × holds self.old xs x }
        ensures ok { (xs : List Input) (x : Input) → holds self.old xs x
            → OnOk result (Appends (K.taken sink.old) (K.taken sink.new) ((shape (settings self.old)).out xs x)) }
        ensures err { (xs : List Input) (x : Input) → holds self.old xs x
            → OnErr result (AddsFront (K.taken sink.old) (K.taken sink.new) ((shape (settings self.old)).out xs x)) }
        ensures stands { (xs : List Input) (x : Input) → holds self.old xs x → stands self.new (xs ++ x ∷ []) }
        ensures settings { settings self.new ≡ settings self.old }
        ensures cause { HasCause (K.faults sink.old) (K.faults sink.new) result };

    /// The status at the end of the input.
    fn end(&self) -> Status
        ensures status { (xs : List Input) → stands self.now xs → result ≡ (shape (settings self.now)).done xs }
        ensures quiet { IsEnd result };

    /// A spelling is not empty.
    ghost some: { (s : Settings) (before : List Input) (x : Input) → (shape s).Fits before x
        → 0 < length ((shape s).spelling x) };
}

/// The loop over the slots of a command, up to the end of the input or the first fault.
pub fn drive<W: Work, S: Source, K: Sink>(work: &mut W, max: u32, src: &mut S, sink: &mut K) -> End
    requires start { W.stands work.old [] }
    requires most { max ≤ 16777216 }
    ensures ends { EndsBy result.status (W.shape (W.settings work.old)) max (S.rest src.old) (S.rest src.new)
        (TookBefore result.status (K.taken sink.old) (K.taken sink.new)) result }
    ensures left { IsEnd result.status → IsAtEnd (S.rest src.new) }
    ensures met { EndsMet result.status (S.ends src.old) (S.ends src.new) }
    ensures source_later { S.faults src.old ≤ S.faults src.new }
    ensures sink_later { K.faults sink.old ≤ K.faults sink.new }
    ensures read { result.status ≡ Status.Read → Rose (S.faults src.old) (S.faults src.new) }
    ensures write { result.status ≡ Status.Write → Rose (K.faults sink.old) (K.faults sink.new) }
{
    let mut slots = 0;
    while slots < max {
        if let Err(stop) = work.read(src, slots) {
            return ended(stop, work.end(), slots);
        }
        if work.write(sink).is_err() {
            return End {
                status: Status::Write,
                slots: slots as u64,
            };
        }
        slots += 1;
    }
    ended(past_last(src), work.end(), slots)
}

/// What stands behind the last slot that may be read.
fn past_last<S: Source>(src: &mut S) -> Stop
    ensures gives { PastGives (S.rest src.old) (S.rest src.new) result }
    ensures later { S.faults src.old ≤ S.faults src.new }
    ensures cause { StopRose (S.faults src.old) (S.faults src.new) result }
    ensures ended { S.ends src.new ≡ ends_by_stop result (S.ends src.old) }
{
    match fill(src, &mut [0]) {
        Filled::Whole => Stop::More,
        Filled::Ended(_) => Stop::End,
        Filled::Fault => Stop::Fault,
    }
}

/// The end of a run, by why no input came and the status at the end of the input.
fn ended(stop: Stop, at_end: Status, slots: u32) -> End
    ensures { result ≡ end_by stop at_end slots }
{
    let slots = slots as u64;
    let status = match stop {
        Stop::End => at_end,
        Stop::Bad(why) => Status::Input { slot: slots, why },
        Stop::More => Status::TooLong,
        Stop::Fault => Status::Read,
    };
    End { status, slots }
}

/// The loop, and behind it one flush where no write failed.
pub fn finish<W: Work, S: Source, K: Sink>(work: &mut W, max: u32, src: &mut S, sink: &mut K) -> End
    requires start { W.stands work.old [] }
    requires most { max ≤ 16777216 }
    ensures ends { EndsBy result.status (W.shape (W.settings work.old)) max (S.rest src.old) (S.rest src.new)
        (Grows (K.taken sink.old) (K.taken sink.new)) result }
    ensures left { IsEnd result.status → IsAtEnd (S.rest src.new) }
    ensures met { EndsMet result.status (S.ends src.old) (S.ends src.new) }
    ensures settled { result.status ≢ Status.Write → IsTrue (K.settled sink.new) }
    ensures read { result.status ≡ Status.Read → Rose (S.faults src.old) (S.faults src.new) }
    ensures write { result.status ≡ Status.Write → Rose (K.faults sink.old) (K.faults sink.new) }
{
    let end = drive(work, max, src, sink);
    if matches!(end.status, Status::Write) {
        return end;
    }
    match sink.flush() {
        Ok(()) => end,
        Err(_) => End {
            status: Status::Write,
            slots: end.slots,
        },
    }
}
