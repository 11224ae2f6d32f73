// The commands that read nothing: the records of `gen`, and the summary of `trial`.
ghost use Rattle.std.specs.Prelude.{◌≡◌, ◌≢◌, ◌≤◌, ◌⊎◌, ℕ, List, IsTrue};
ghost use Rattle.std.specs.declared.option.Option.{Option};
ghost use Rattle.tetra_io.specs.Streams.{Rose};
ghost use Rattle.tetra_settings.specs.Validity.{IsValid};
ghost use Rattle.tetra_engine.specs.Generating.{generating};
ghost use Rattle.tetra_engine.specs.Outcomes.{TookBefore, Grows};
ghost use Rattle.tetra_engine.specs.Series.{Series, SeriesEnds};
ghost use Rattle.tetra_engine.specs.Trying.{trying};

use crate::status::{End, Status};
use crate::summary::summary_of;
use tetra_gen::Maker;
use tetra_io::{Sink, put_all};
use tetra_records::block_bytes;
use tetra_settings::{Settings, fitting_are_well_formed};
use tetra_trial::trial;

/// Writes the block records of as many slots as the settings say, each drawn, and flushes once.
pub fn generate<K: Sink>(settings: &Settings, sink: &mut K) -> End
    requires valid { IsValid settings.now }
    ensures ends { SeriesEnds result.status (generating settings.now) (Grows (K.taken sink.old) (K.taken sink.new)) result }
    ensures settled { result.status ≢ Status.Write → IsTrue (K.settled sink.new) }
    ensures write { result.status ≡ Status.Write → Rose (K.faults sink.old) (K.faults sink.new) }
{
    let end = write_records(settings, sink);
    settled(end, sink)
}

/// Writes the summary of a trial of as many slots as the settings say, and flushes once.
pub fn try_slots<K: Sink>(settings: &Settings, sink: &mut K) -> End
    requires valid { IsValid settings.now }
    ensures ends { SeriesEnds result.status (trying settings.now) (Grows (K.taken sink.old) (K.taken sink.new)) result }
    ensures settled { result.status ≢ Status.Write → IsTrue (K.settled sink.new) }
    ensures write { result.status ≡ Status.Write → Rose (K.faults sink.old) (K.faults sink.new) }
{
    let end = write_summary(settings, sink);
    settled(end, sink)
}

/// Writes the block records of as many slots as the settings say, each in one piece.
fn write_records<K: Sink>(settings: &Settings, sink: &mut K) -> End
    requires valid { IsValid settings.now }
    ensures ends { SeriesEnds result.status (generating settings.now)
        (TookBefore result.status (K.taken sink.old) (K.taken sink.new)) result }
    ensures later { K.faults sink.old ≤ K.faults sink.new }
    ensures write { result.status ≡ Status.Write → Rose (K.faults sink.old) (K.faults sink.new) }
{
    fitting_are_well_formed();
    let mut maker = Maker::new(settings);
    for slot in 0..settings.slots {
        let record = block_bytes(&maker.slot());
        if put_all(sink, record.as_slice()).is_err() {
            return End {
                status: Status::Write,
                slots: slot as u64,
            };
        }
    }
    End {
        status: Status::Done,
        slots: settings.slots as u64,
    }
}

/// Writes the summary of a trial in one piece.
fn write_summary<K: Sink>(settings: &Settings, sink: &mut K) -> End
    requires valid { IsValid settings.now }
    ensures ends { SeriesEnds result.status (trying settings.now)
        (TookBefore result.status (K.taken sink.old) (K.taken sink.new)) result }
    ensures later { K.faults sink.old ≤ K.faults sink.new }
    ensures write { result.status ≡ Status.Write → Rose (K.faults sink.old) (K.faults sink.new) }
{
    let text = summary_of(&trial(settings));
    match put_all(sink, text.as_str().as_bytes()) {
        Ok(()) => End {
            status: Status::Done,
            slots: settings.slots as u64,
        },
        Err(_) => End {
            status: Status::Write,
            slots: 0,
        },
    }
}

/// The end behind one flush, where no write failed.
fn settled<K: Sink>(end: End, sink: &mut K) -> End
    ensures ends { (series : Series) (taken : Option (List ℕ))
        → SeriesEnds end.status series (TookBefore end.status taken (K.taken sink.old)) end
        → SeriesEnds result.status series (Grows taken (K.taken sink.new)) result }
    ensures settled { result.status ≢ Status.Write → IsTrue (K.settled sink.new) }
    ensures later { K.faults sink.old ≤ K.faults sink.new }
    ensures write { result.status ≡ Status.Write
        → (end.status ≡ Status.Write) ⊎ Rose (K.faults sink.old) (K.faults sink.new) }
{
    if matches!(end.status, Status::Write) {
        return end;
    }
    match sink.flush() {
        Ok(()) => end,
        Err(_) => End {
            status: Status::Write,
            slots: end.slots,
        },
    }
}
