// Reading one block record.
ghost use Rattle.std.specs.Prelude.{◌≡◌, ◌≤◌, ◌-◌, ◌+◌, ◌++◌, length, take, drop};
ghost use Rattle.tetra_io.specs.Filling.{Fills, FaultRose, ends_filled};
ghost use Rattle.tetra_settings.specs.Validity.{IsValid};
ghost use Rattle.tetra_records.specs.Buffers.{BehindGives, BehindRose, ends_behind_letter};
ghost use Rattle.tetra_records.specs.Records.{RecordGives, RecordRose, ends_by_record};

use crate::faults::{NextFault, RecordFault};
use crate::parsing::{Layout, access_len, fields_len, head_len, parse, sent_by};
use tetra_io::{Filled, Source, SourceFault, fill};
use tetra_settings::{Letter, Settings, SlotBlocks, allows, field_bits, mode_at, slot_use};

/// Fills a part of the buffer, and leaves what is before it.
fn fill_part<S: Source>(src: &mut S, buf: &mut [u8; 88], from: usize, to: usize) -> Filled
    requires part { from ≤ to }
    requires room { to ≤ 88 }
    ensures bytes { Fills (S.rest src.old) (S.rest src.new) result (drop from (take to buf.new)) }
    ensures front { take to buf.new ≡ take from buf.old ++ drop from (take to buf.new) }
    ensures later { S.faults src.old ≤ S.faults src.new }
    ensures fault { FaultRose result (S.faults src.old) (S.faults src.new) }
    ensures ended { S.ends src.new ≡ ends_filled result (S.ends src.old) }
{
    fill(src, &mut buf[from..to])
}

/// Reads the bytes behind a letter into the front of the buffer, and answers their number.
fn read_behind<S: Source>(
    src: &mut S,
    layout: Layout,
    buf: &mut [u8; 88],
) -> Result<usize, NextFault>
    ensures gives { BehindGives layout (S.rest src.old) (S.rest src.new) result buf.new }
    ensures later { S.faults src.old ≤ S.faults src.new }
    ensures cause { BehindRose (S.faults src.old) (S.faults src.new) result }
    ensures ended { S.ends src.new ≡ ends_behind_letter result (S.ends src.old) }
{
    let head = head_len(layout);
    match fill_part(src, buf, 0, head) {
        Filled::Whole => {}
        Filled::Ended(_) => return Err(NextFault::Bad(RecordFault::Truncated)),
        Filled::Fault => return Err(NextFault::Source(SourceFault)),
    }
    let sent = sent_by(layout.letter, buf[access_len(layout.dir)]);
    let len = head + fields_len(&field_bits(layout.letter, layout.mode, sent));
    match fill_part(src, buf, head, len) {
        Filled::Whole => Ok(len),
        Filled::Ended(_) => Err(NextFault::Bad(RecordFault::Truncated)),
        Filled::Fault => Err(NextFault::Source(SourceFault)),
    }
}

/// The blocks of the next record, which slot `t` may carry, or none where nothing is left.
///
/// `UnknownKind` where the first byte is no letter, and `WrongKind` where slot `t` may not carry it: then one byte was
/// taken. `Truncated` where the bytes end inside the record: all were taken. `PadBit` where the record is whole and a
/// pad bit is 1: the record was taken. `Source` only where the source counted a fault. This project's own.
pub fn next_record<S: Source>(
    src: &mut S,
    settings: &Settings,
    t: u32,
) -> Result<Option<SlotBlocks>, NextFault>
    requires { IsValid settings.now }
    ensures gives { RecordGives settings.now t (S.rest src.old) (S.rest src.new) result }
    ensures later { S.faults src.old ≤ S.faults src.new }
    ensures cause { RecordRose (S.faults src.old) (S.faults src.new) result }
    // The end is met once where nothing was left or the record was cut off, and else not.
    ensures ended { S.ends src.new ≡ ends_by_record result (S.ends src.old) }
{
    let mut first = [0; 1];
    match fill(src, &mut first) {
        Filled::Whole => {}
        Filled::Ended(_) => return Ok(None),
        Filled::Fault => return Err(NextFault::Source(SourceFault)),
    }
    let Some(letter) = Letter::from_byte(first[0]) else {
        return Err(NextFault::Bad(RecordFault::UnknownKind));
    };
    if !allows(settings.dir, slot_use(settings, t), letter) {
        return Err(NextFault::Bad(RecordFault::WrongKind));
    }
    let layout = Layout {
        dir: settings.dir,
        letter,
        mode: mode_at(settings, t),
    };
    let mut buf = [0; 88];
    let len = match read_behind(src, layout, &mut buf) {
        Ok(len) => len,
        Err(fault) => return Err(fault),
    };
    match parse(layout, &buf[..len]) {
        Ok(found) => Ok(Some(found)),
        Err(_) => Err(NextFault::Bad(RecordFault::PadBit)),
    }
}
