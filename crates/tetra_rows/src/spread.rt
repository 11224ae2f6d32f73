// Traffic on all timeslots, over slots that cross frame 18, beside the formulas: what is sent, what is read of it, and that
// its certificates are accepted.
use crate::carrier::{Carrier, Timeslot, Traffic};
use crate::runs::ran_to;
use std::alloc::{AllocError, Global};
use std::process::Abort;
use std::test::Fail;

/// Letters in which blocks over one, four and eight slots come with nothing stolen, with something, and with all.
const LETTERS: &[u8; 46] = b"TTTTTTTTTPTTTTTTTTQTTTTPQPQTPPQQTQQQQQQQQTTTTP";

/// What the run of a command on a carrier with these modes writes over so many slots, into room for so many bytes;
/// asserts that it ends done.
fn written(
    rt: &(impl Abort + AllocGlobal),
    command: &str,
    modes: &str,
    input: &[u8],
    slots: usize,
    room: usize,
) -> Result<Vec<u8>, Fail> {
    let words = format!(in rt.alloc(); "{command} dir=ul mcc=901 mnc=16383 cc=1 {modes}")?;
    let end = format!(in rt.alloc(); "0 {slots} ")?;
    Ok(ran_to(rt, &words, input, room, &end)?.output)
}

/// Whether the bytes of a slot are as they are known.
fn is_sent(known: &[Option<u8>; 510], found: &[u8]) -> bool {
    found
        .iter()
        .zip(known)
        .all(|(byte, known)| known.is_none_or(|known| known == *byte))
}

/// Asserts that slots are as they are known.
fn are_sent(rt: &impl Abort, carrier: &Carrier, slots: &[u8]) {
    assert_eq!(rt; slots.len() / 510, carrier.slots.len());
    for (t, (known, found)) in carrier.slots.iter().zip(slots.chunks(510)).enumerate() {
        assert_slot(rt, is_sent(known, found), t, "sent");
    }
}

fn assert_slot(rt: &impl Abort, is_known: bool, t: usize, how: &str) {
    assert!(rt; is_known, "slot {t} as {how}");
}

/// Asserts that readings are as they are known.
fn are_read(rt: &impl Abort, carrier: &Carrier, readings: &[u8]) {
    let mut rest = readings;
    for (t, known) in carrier.readings.iter().enumerate() {
        let behind = known.behind(rest);
        assert_slot(rt, behind.is_some(), t, "read");
        rest = behind.unwrap_or(rest);
    }
    assert!(rt; rest.is_empty());
}

/// Asserts that a carrier with these modes is sent and read as the formulas say, and that its records agree.
fn holds(rt: &(impl Abort + AllocGlobal), modes: &str, carrier: &Carrier) -> Result<(), Fail> {
    let slots = carrier.slots.len();
    let sent = written(rt, "encode", modes, &carrier.blocks, slots, 204_000)?;
    are_sent(rt, carrier, &sent);
    let read = written(rt, "decode", modes, &sent, slots, 60_000)?;
    are_read(rt, carrier, &read);
    let claimed = written(rt, "decode form=audit", modes, &sent, slots, 8_000_000)?;
    written(rt, "audit", modes, &claimed, slots, 4_000)?;
    Ok(())
}

/// Asserts that so many slots of timeslots with this traffic, each over so many slots, are sent and read as the formulas
/// say.
fn holds_for(
    rt: &(impl Abort + AllocGlobal),
    modes: &str,
    traffic: &[(Traffic, usize); 4],
    letters: &[u8; 46],
    slots: usize,
) -> Result<(), Fail> {
    let timeslots = timeslots(rt.alloc(), traffic)?;
    let carrier = Carrier::new(rt.alloc(), timeslots, letters, slots)?;
    holds(rt, modes, &carrier)
}

fn timeslots(alloc: Global, traffic: &[(Traffic, usize); 4]) -> Result<[Timeslot; 4], AllocError> {
    Ok([
        Timeslot::new(alloc, traffic[0].0, traffic[0].1)?,
        Timeslot::new(alloc, traffic[1].0, traffic[1].1)?,
        Timeslot::new(alloc, traffic[2].0, traffic[2].1)?,
        Timeslot::new(alloc, traffic[3].0, traffic[3].1)?,
    ])
}

const PROTECTED: [(Traffic, usize); 4] = [
    (Traffic::D48, 8),
    (Traffic::D24, 4),
    (Traffic::D48, 1),
    (Traffic::D24, 8),
];

const MIXED: [(Traffic, usize); 4] = [
    (Traffic::D72, 1),
    (Traffic::D48, 4),
    (Traffic::D24, 8),
    (Traffic::Speech, 1),
];

const STOLEN: [(Traffic, usize); 4] = [
    (Traffic::D48, 8),
    (Traffic::D24, 4),
    (Traffic::D48, 1),
    (Traffic::D24, 1),
];

#[test]
fn spread_over_slots(rt: HostRuntime) -> Result<(), Fail> {
    let modes = "ts1=d48n8 ts2=d24n4 ts3=d48n1 ts4=d24n8";
    holds_for(&rt, modes, &PROTECTED, &[b'T'; 46], 200)
}

#[test]
fn stolen_from_data_and_speech(rt: HostRuntime) -> Result<(), Fail> {
    let modes = "ts1=d72 ts2=d48n4 ts3=d24n8 ts4=speech";
    holds_for(&rt, modes, &MIXED, LETTERS, 400)
}

#[test]
fn stolen_from_protected_data(rt: HostRuntime) -> Result<(), Fail> {
    let modes = "ts1=d48n8 ts2=d24n4 ts3=d48n1 ts4=d24n1";
    holds_for(&rt, modes, &STOLEN, LETTERS, 200)
}
