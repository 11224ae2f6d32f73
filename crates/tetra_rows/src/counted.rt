// A summary of `trial` beside one that is counted from what `gen`, `encode` and `decode` write, over uplink signalling and
// TCH/4.8 over eight slots.
use crate::drawn::bit;
use crate::runs::{SURE, run_over};
use std::alloc::Global;
use std::process::Abort;
use std::test::Fail;

/// What was counted so far.
#[derive(Drop)]
struct Counts {
    kinds: u64,
    good: u64,
    bad: u64,
    unchecked: u64,
    notyet: u64,
    equal: u64,
    differ: u64,
    other: u64,
    metric: u64,
}

fn raise(count: &mut u64, by: u64) {
    *count = count.saturating_add(by);
}

/// Whether packed bits begin with these, so many of them.
fn begins(found: &[u8], sent: &[u8], bits: usize) -> bool {
    for k in 0..bits {
        if bit(found, k) != bit(sent, k) {
            return false;
        }
    }
    true
}

/// Counts a field, a mark, a metric and packed bits, beside the bits that were sent in its place.
fn count(counts: &mut Counts, field: &[u8], sent: Option<&[u8]>, bits: usize) {
    match field.first() {
        Some(b'G') => raise(&mut counts.good, 1),
        Some(b'B') => raise(&mut counts.bad, 1),
        Some(b'U') => raise(&mut counts.unchecked, 1),
        _ => raise(&mut counts.notyet, 1),
    }
    if let (Some(high), Some(low)) = (field.get(1), field.get(2)) {
        raise(
            &mut counts.metric,
            u64::from(u16::from_be_bytes([*high, *low])),
        );
    }
    match sent {
        None => raise(&mut counts.other, 1),
        Some(sent) if begins(field.get(3..).unwrap_or(&[]), sent, bits) => raise(
            &mut counts.equal,
            1,
        ),
        Some(_) => raise(&mut counts.differ, 1),
    }
}

/// The first bytes, as many as there are up to a size, and those behind them.
fn cut(bytes: &[u8], size: usize) -> (&[u8], &[u8]) {
    bytes.split_at(size.min(bytes.len()))
}

/// The fields behind the letter of a record and those of its reading, whose sizes go by the letter: F with a block of 34
/// bytes; T, P and Q with half slots of 16 bytes before a load of 36.
fn sizes(letter: u8) -> (usize, usize) {
    match letter {
        b'F' => (34, 39),
        b'T' => (36, 39),
        b'P' => (52, 81),
        _ => (68, 81),
    }
}

/// Counts a slot. `early` is the load of the timeslot that lies seven traffic slots before, where there is one.
fn count_slot(counts: &mut Counts, letter: u8, sent: &[u8], read: &[u8], early: Option<&[u8]>) {
    match letter {
        b'F' => count(counts, read, Some(sent), 268),
        b'T' => count(counts, read, early, 288),
        _ => {
            let (first, behind) = cut(read, 21);
            let (second, load) = cut(behind, 21);
            count(counts, first, Some(sent), 124);
            let other = if letter == b'Q' { sent.get(16..) } else { None };
            count(counts, second, other, 124);
            count(counts, load, early, 288);
        }
    }
}

/// The load in the fields of a record: the last 36 bytes.
fn load_of(sent: &[u8]) -> &[u8] {
    sent.get(sent.len().saturating_sub(36)..).unwrap_or(&[])
}

/// The summary of these records and their readings.
fn counted(alloc: Global, records: &[u8], readings: &[u8]) -> Result<String, Fail> {
    let mut counts = Counts {
        kinds: 0,
        good: 0,
        bad: 0,
        unchecked: 0,
        notyet: 0,
        equal: 0,
        differ: 0,
        other: 0,
        metric: 0,
    };
    let (mut blocks, mut found, mut slots) = (records, readings, 0u32);
    let mut loads: Vec<&[u8]> = Vec::new(alloc);
    // A record has one byte at least.
    for _ in 0..records.len() {
        let Some((letter, behind)) = blocks.split_first() else {
            break;
        };
        let (block_size, read_size) = sizes(*letter);
        let (sent, more) = cut(behind, block_size);
        let (read, rest) = cut(found, read_size.saturating_add(1));
        if *letter != b'F' {
            loads.push(load_of(sent))?;
        }
        let early = loads
            .len()
            .checked_sub(8)
            .and_then(|at| loads.get(at).copied());
        count_record(&mut counts, *letter, sent, read, early);
        (blocks, found, slots) = (more, rest, slots.saturating_add(1));
    }
    text_of(alloc, slots, counts)
}

/// Counts the kind and the fields of a slot by its reading record.
fn count_record(counts: &mut Counts, letter: u8, sent: &[u8], read: &[u8], early: Option<&[u8]>) {
    let heard = if letter == b'Q' { b'P' } else { letter };
    if read.first() == Some(&heard) {
        raise(&mut counts.kinds, 1);
    }
    count_slot(counts, letter, sent, read.get(1..).unwrap_or(&[]), early);
}

fn text_of(alloc: Global, slots: u32, counts: Counts) -> Result<String, Fail> {
    let Counts {
        kinds,
        good,
        bad,
        unchecked,
        notyet,
        equal,
        differ,
        other,
        metric,
    } = counts;
    Ok(format!(in alloc;
        "slots {slots}\nkinds {kinds}\ngood {good}\nbad {bad}\nunchecked {unchecked}\nnotyet {notyet}\n\
            equal {equal}\ndiffer {differ}\nother {other}\nmetric {metric}\n"
    )?)
}

/// What a command that draws writes.
fn drawn(alloc: Global, command: &str, draw: u32) -> Result<Vec<u8>, Fail> {
    let words = format!(in alloc; "{command} dir=ul ts1=d48n8 slots=32 draw={draw}")?;
    Ok(run_over(alloc, &words, &[], SURE, 4_000)?.output)
}

/// The summary of what is made, sent and read.
fn counted_of(alloc: Global, draw: u32) -> Result<String, Fail> {
    let records = drawn(alloc, "gen", draw)?;
    let slots = run_over(alloc, "encode dir=ul ts1=d48n8", &records, SURE, 20_000)?.output;
    let readings = run_over(alloc, "decode dir=ul ts1=d48n8", &slots, SURE, 20_000)?.output;
    counted(alloc, &records, &readings)
}

/// Asserts that a summary says what is counted.
fn is_counted(rt: &(impl Abort + AllocGlobal), draw: u32) -> Result<(), Fail> {
    let summary = drawn(rt.alloc(), "trial", draw)?;
    let wanted = counted_of(rt.alloc(), draw)?;
    says(rt, str::from_utf8(&summary)?, &wanted, draw);
    Ok(())
}

fn says(rt: &impl Abort, summary: &str, wanted: &str, draw: u32) {
    assert_eq!(rt; summary, wanted, "draw {draw}");
}

#[test]
fn summary_counted_from_the_files(rt: HostRuntime) -> Result<(), Fail> {
    for draw in 0..3u32 {
        is_counted(&rt, draw)?;
    }
    Ok(())
}
