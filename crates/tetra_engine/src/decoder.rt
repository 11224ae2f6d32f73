// Decoding as a work over slots.
ghost use Rattle.std.specs.Prelude.{◌≡◌, ◌<◌, ◌≤◌, length, List, ℕ, [], All, take};
ghost use Rattle.tetra_settings.specs.Validity.{IsValid};
ghost use Rattle.tetra_engine.specs.Decoding.{decoding, framed};
ghost use Rattle.tetra_records.specs.Readings.{reading_spelling, IsSmall};
ghost use Rattle.tetra_settings.specs.Readings.{IsWellFormed};

use crate::intake::Intake;
use crate::status::Status;
use crate::work::{Stop, Work};
use arrayvec::ArrayVec;
use tetra_io::{Sink, SinkFault, Source, put_all};
use tetra_records::write_reading;
use tetra_settings::{Form, Settings, SlotReading};

/// Decoding: the slots that are read, and the reading and the output of the last one, which are used again for each.
#[derive(Drop)]
pub struct Decoder {
    intake: Intake,
    reading: SlotReading,
    output: [u8; 19_253],
}

impl Decoder {
    ghost use Rattle.tetra_engine.specs.Decoder.{DecoderStands};

    /// A decoder before the first slot.
    pub fn new(settings: &Settings) -> Decoder
        requires valid { IsValid settings.now }
        ensures stands { DecoderStands result [] }
        ensures settings { result.intake.settings ≡ settings.now }
    {
        Decoder {
            intake: Intake::new(settings),
            reading: SlotReading {
                letter: 0,
                fields: ArrayVec::new(),
            },
            output: [0; 19_253],
        }
    }
}

impl Work for Decoder {
    ghost use Rattle.tetra_engine.specs.Decoder.{DecoderStands, DecoderHolds};
    ghost use Rattle.std.proofs.Common.{arith};

    ghost Input = { List ℕ };

    ghost shape = { decoding };

    ghost settings = { λ d. d.intake.settings };

    ghost stands = { DecoderStands };

    ghost holds = { DecoderHolds };

    ghost some = { λ settings before x fits. Prim.omega arith };

    fn read<S: Source>(&mut self, src: &mut S, slot: u32) -> Result<(), Stop> {
        self.intake.next(src)
    }

    fn write<K: Sink>(&mut self, sink: &mut K) -> Result<(), SinkFault> {
        let intake = &mut self.intake;
        intake.receiver.slot_into(&intake.soft, &mut self.reading);
        let len = put_reading(
            &intake.bytes,
            &self.reading,
            intake.settings.form,
            &mut self.output,
        );
        put_all(sink, &self.output[..len])
    }

    fn end(&self) -> Status {
        Status::Done
    }
}

/// Writes a reading record at the front of the output, behind the bytes of its slot where it is to be audited, and answers
/// how many bytes these are.
fn put_reading(
    bytes: &[u8; 510],
    reading: &SlotReading,
    form: Form,
    output: &mut [u8; 19_253],
) -> usize
    requires formed { IsWellFormed reading.now }
    requires small { All IsSmall reading.now.fields.items }
    ensures bytes { take result output.new ≡ framed form bytes.now (reading_spelling form reading.now) }
    ensures few { result ≤ 19253 }
{
    let mut at = 0usize;
    if form == Form::Audit {
        output[..510].copy_from_slice(bytes);
        at = 510;
    }
    write_reading(reading, form, output, at)
}
