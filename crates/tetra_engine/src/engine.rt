// A whole run.
ghost use Rattle.std.specs.Prelude.{◌≡◌, ◌≢◌, ◌≤◌, IsTrue};
ghost use Rattle.tetra_io.specs.Streams.{Rose};
ghost use Rattle.tetra_settings.specs.Validity.{IsValid};
ghost use Rattle.tetra_settings.specs.Words.{texts, meaning};
ghost use Rattle.tetra_engine.specs.Running.{Starts, IfReady, CommandEnds, CommandLeaves, Says};

use crate::auditor::Auditor;
use crate::decoder::Decoder;
use crate::encoder::Encoder;
use crate::series::{generate, try_slots};
use crate::status::{End, Status};
use crate::work::finish;
use tetra_io::{Sink, Source};
use tetra_settings::{Command, Settings, read_words};

/// The run of a command under its settings.
fn run_command<S: Source, K: Sink>(
    command: Command,
    settings: &Settings,
    src: &mut S,
    sink: &mut K,
) -> End
    requires valid { IsValid settings.now }
    ensures ends { CommandEnds command settings.now (S.rest src.old) (S.rest src.new)
        (K.taken sink.old) (K.taken sink.new) result }
    ensures leaves { CommandLeaves command result.status (src.new ≡ src.old)
        (S.rest src.new) (S.ends src.old) (S.ends src.new) }
    ensures settled { result.status ≢ Status.Write → IsTrue (K.settled sink.new) }
    ensures read { result.status ≡ Status.Read → Rose (S.faults src.old) (S.faults src.new) }
    ensures write { result.status ≡ Status.Write → Rose (K.faults sink.old) (K.faults sink.new) }
{
    match command {
        Command::Encode => finish(&mut Encoder::new(settings), settings.max, src, sink),
        Command::Decode => finish(&mut Decoder::new(settings), settings.max, src, sink),
        Command::Audit => finish(&mut Auditor::new(settings), settings.max, src, sink),
        Command::Gen => generate(settings, sink),
        Command::Trial => try_slots(settings, sink),
    }
}

/// All that the program does, from the words and the bytes that come in to the bytes that go out.
///
/// `encode` reads block records and writes slots, `decode` reads slots and writes reading records, and `audit` reads
/// slots with reading records and writes a line for each. `gen` and `trial` read nothing: the one writes block records
/// that are drawn, the other a summary of slots that are made, sent, damaged and received. Faulty words end the run
/// before anything is read, written or flushed. Else the outcome is a function of the words and the bytes, however
/// the source cuts them, but where a read, a write or the flush fails. This project's own.
pub fn run<S: Source, K: Sink>(words: &[String], src: &mut S, sink: &mut K) -> End
    // Faulty words give Words. Then source and sink are as they were.
    ensures starts { Starts (meaning (texts words.now)) (src.new ≡ src.old) (sink.new ≡ sink.old) result }
    // Each other end is the one that the bytes define, with its output, or what stands after a fault. The bytes are
    // those that the source tells, and some where it tells none.
    ensures ends { IfReady (meaning (texts words.now)) (λ command settings.
        CommandEnds command settings (S.rest src.old) (S.rest src.new) (K.taken sink.old) (K.taken sink.new) result) }
    // Whatever the source tells, the words have the fault that Words names, and the slots are within what they allow.
    ensures says { Says (meaning (texts words.now)) result }
    // The end of the input is met once, at Done, Refused and an input that was cut off, and at no other end; nothing is
    // read behind it, and Done and Refused leave nothing. A command that reads nothing leaves the source as it was.
    ensures leaves { IfReady (meaning (texts words.now)) (λ command settings.
        CommandLeaves command result.status (src.new ≡ src.old) (S.rest src.new) (S.ends src.old) (S.ends src.new)) }
    // On every end but those of the words and of a failed write or flush the sink is settled.
    ensures settled { IfReady (meaning (texts words.now)) (λ command settings.
        result.status ≢ Status.Write → IsTrue (K.settled sink.new)) }
    // Read and Write come only where a fault was counted in this run, or the count stands at its last value.
    ensures read { result.status ≡ Status.Read → Rose (S.faults src.old) (S.faults src.new) }
    ensures write { result.status ≡ Status.Write → Rose (K.faults sink.old) (K.faults sink.new) }
{
    let (command, settings) = match read_words(words) {
        Ok(found) => found,
        Err(fault) => {
            return End {
                status: Status::Words {
                    index: fault.index,
                    why: fault.why,
                },
                slots: 0,
            };
        }
    };
    run_command(command, &settings, src, sink)
}
