// Encoding as a work over slots.
ghost use Rattle.std.specs.Prelude.{◌≡◌, ◌<◌, ◌≤◌, length, List, Some, []};
ghost use Rattle.tetra_settings.specs.declared.blocks.SlotBlocks.{SlotBlocks};
ghost use Rattle.tetra_settings.specs.Validity.{IsValid};
ghost use Rattle.tetra_engine.specs.Encoding.{encoding};

use crate::slots::write_values;
use crate::status::Status;
use crate::work::{Stop, Work};
use tetra_io::{Sink, SinkFault, Source, put_all};
use tetra_records::{NextFault, next_record};
use tetra_session::Sender;
use tetra_settings::{Settings, SlotBlocks};

/// Encoding: the blocks of the slot that was read last, and the sender that they go to.
#[derive(Drop)]
pub struct Encoder {
    settings: Settings,
    sender: Sender,
    blocks: Option<SlotBlocks>,
    bytes: [u8; 510],
}

impl Encoder {
    ghost use Rattle.tetra_engine.specs.Encoder.{EncoderStands};

    /// An encoder before the first slot.
    pub fn new(settings: &Settings) -> Encoder
        requires valid { IsValid settings.now }
        ensures stands { EncoderStands result [] }
        ensures settings { result.settings ≡ settings.now }
    {
        Encoder {
            settings: *settings,
            sender: Sender::new(settings),
            blocks: None,
            bytes: [0; 510],
        }
    }
}

impl Work for Encoder {
    ghost use Rattle.tetra_engine.specs.Encoder.{EncoderStands, EncoderHolds};
    ghost use Rattle.tetra_engine.specs.Encoding.{spelling-some};

    ghost Input = { SlotBlocks };

    ghost shape = { encoding };

    ghost settings = { λ e. e.settings };

    ghost stands = { EncoderStands };

    ghost holds = { EncoderHolds };

    ghost some = { λ settings before x fits. spelling-some x };

    fn read<S: Source>(&mut self, src: &mut S, slot: u32) -> Result<(), Stop> {
        match next_record(src, &self.settings, slot) {
            Ok(Some(blocks)) => {
                self.blocks = Some(blocks);
                Ok(())
            }
            Ok(None) => Err(Stop::End),
            Err(NextFault::Bad(why)) => Err(Stop::Bad(why)),
            Err(NextFault::Source(_)) => Err(Stop::Fault),
        }
    }

    fn write<K: Sink>(&mut self, sink: &mut K) -> Result<(), SinkFault> {
        let Some(blocks) = &self.blocks else {
            unreachable!();
        };
        let values = self.sender.slot(blocks);
        write_values(&values, &mut self.bytes);
        put_all(sink, &self.bytes)
    }

    fn end(&self) -> Status {
        Status::Done
    }
}
