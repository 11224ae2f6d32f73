// What the program says of an end, and the number that it ends with.
ghost use Rattle.std.specs.Prelude.{◌≡◌, ◌≤◌, ◌++◌, length, codes, decimal};
ghost use Rattle.tetra_engine.specs.Lines.{line_of, exit_code_of, word_text, record_text};

use crate::status::{End, Status};
use crate::texts::{add, add_number};
use arrayvec::ArrayString;
use tetra_records::RecordFault;
use tetra_settings::WordWhy;

fn text_of(why: WordWhy) -> &'static str
    ensures text { result.now ≡ word_text why }
    ensures short { length result.now ≤ 20 }
{
    match why {
        WordWhy::NoCommand => "no command",
        WordWhy::UnknownCommand => "unknown command",
        WordWhy::NotPair => "not a pair",
        WordWhy::UnknownKey => "unknown key",
        WordWhy::NotHere => "not for this command",
        WordWhy::Repeated => "repeated",
        WordWhy::BadNumber => "not a number",
        WordWhy::OutOfRange => "out of range",
        WordWhy::UnknownValue => "unknown value",
        WordWhy::NotUplink => "uplink only",
    }
}

fn text_of_fault(why: RecordFault) -> &'static str
    ensures text { result.now ≡ record_text why }
    ensures short { length result.now ≤ 20 }
{
    match why {
        RecordFault::UnknownKind => "unknown kind",
        RecordFault::WrongKind => "wrong kind",
        RecordFault::PadBit => "pad bit",
        RecordFault::Truncated => "truncated",
    }
}

/// A number between two texts.
fn counted(before: &str, number: u64, after: &str) -> ArrayString<96>
    requires before { length before.now ≤ 30 }
    requires after { length after.now ≤ 6 }
    ensures text { result.bytes ≡ before.now ++ decimal number ++ after.now }
    ensures short { length result.bytes ≤ 56 }
{
    let mut text = ArrayString::new();
    add(&mut text, before);
    add_number(&mut text, number);
    add(&mut text, after);
    text
}

fn refused(slot: u64, count: u64) -> ArrayString<96>
    ensures { result.bytes ≡ codes "refused: first slot " ++ decimal slot ++ codes ", count " ++ decimal count }
{
    let mut text = counted("refused: first slot ", slot, "");
    add(&mut text, ", count ");
    add_number(&mut text, count);
    text
}

fn explained(before: &str, number: u64, why: &str) -> ArrayString<96>
    requires before { length before.now ≤ 30 }
    requires why { length why.now ≤ 20 }
    ensures { result.bytes ≡ before.now ++ decimal number ++ codes ": " ++ why.now }
{
    let mut text = counted(before, number, ": ");
    add(&mut text, why);
    text
}

/// The line that the program prints on standard error, without a newline: at most 96 bytes, and empty for `Done`. This
/// project's own.
pub fn line(end: &End) -> ArrayString<96>
    ensures { result.bytes ≡ line_of end.now }
{
    match end.status {
        Status::Done => ArrayString::new(),
        Status::Refused { slot, count } => refused(slot, count),
        Status::Words { index, why } => explained("word ", index as u64, text_of(why)),
        Status::Input { slot, why } => explained("input: slot ", slot, text_of_fault(why)),
        Status::Read => counted("read failed after ", end.slots, " slots"),
        Status::Write => counted("write failed after ", end.slots, " slots"),
        Status::TooLong => counted("too long: ", end.slots, " slots"),
    }
}

/// The number that the program ends with: 0 for `Done`, 1 for `Refused`, 2 for `Words`, 3 for `Input`, 4 for `Read`, 5
/// for `Write`, 6 for `TooLong`. This project's own.
pub fn exit_code(end: &End) -> u8
    ensures { result ≡ exit_code_of end.now.status }
{
    match end.status {
        Status::Done => 0,
        Status::Refused { .. } => 1,
        Status::Words { .. } => 2,
        Status::Input { .. } => 3,
        Status::Read => 4,
        Status::Write => 5,
        Status::TooLong => 6,
    }
}
