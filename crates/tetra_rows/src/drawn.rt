// Blocks of drawn bits, sent and judged both ways: the code beside plain sums, the certificates and the verdicts beside
// plain rules.
use crate::plain::{code, rules};
use crate::runs::{Outcome, SURE, ran_to, run_over};
use rand_core::utils::NextWord;
use rand_pcg::Pcg32;
use std::alloc::{AllocError, Global};
use std::process::Abort;
use std::test::Fail;

/// So many drawn bits, packed.
pub fn drawn(alloc: Global, pcg: &mut Pcg32, bits: usize) -> Result<Vec<u8>, AllocError> {
    let mut packed = Vec::new(alloc);
    for _ in 0..bits.div_ceil(8) {
        packed.push(pcg.next_word().to_be_bytes()[0])?;
    }
    if let Some(last) = packed.last_mut() {
        let pad = (8 - bits % 8) % 8;
        *last = *last >> pad << pad;
    }
    Ok(packed)
}

/// Bit `k` of packed bits; 0 behind the last of them.
pub fn bit(packed: &[u8], k: usize) -> bool {
    packed
        .get(k / 8)
        .is_some_and(|byte| byte >> (7 - k % 8) & 1 == 1)
}

/// The first bits of packed ones, with zeros behind the last of them.
pub fn unpacked<const N: usize>(packed: &[u8]) -> [bool; N] {
    let mut bits = [false; N];
    for k in 0..N {
        bits[k] = bit(packed, k);
    }
    bits
}

fn turn(file: &mut [u8], place: usize, bits: u8) {
    if let Some(byte) = file.get_mut(place) {
        *byte ^= bits;
    }
}

fn signalling(packed: &[u8], scrambling: &[bool; 464]) -> [u8; 510] {
    code::burst(&code::signalling(&unpacked::<268>(packed), scrambling))
}

fn data(packed: &[u8], scrambling: &[bool; 464]) -> [u8; 510] {
    code::burst(&code::traffic(&unpacked::<432>(packed), scrambling))
}

/// The block records of a slot of SCH/F and one of TCH/7.2.
fn records(alloc: Global, full: &[u8], load: &[u8]) -> Result<Vec<u8>, AllocError> {
    let mut records = Vec::from_slice(alloc, b"F")?;
    records.extend_from_slice(full)?;
    records.push(b'T')?;
    records.extend_from_slice(load)?;
    Ok(records)
}

/// Asserts that a drawn slot of SCH/F and one of TCH/7.2 are sent as by sums.
fn are_sent(
    rt: &(impl Abort + AllocGlobal),
    pcg: &mut Pcg32,
    words: &str,
    colour: &[bool; 30],
) -> Result<(), Fail> {
    let full = drawn(rt.alloc(), pcg, 268)?;
    let load = drawn(rt.alloc(), pcg, 432)?;
    are_sums(rt, words, &full, &load, &code::scrambling(colour))
}

fn are_sums(
    rt: &(impl Abort + AllocGlobal),
    words: &str,
    full: &[u8],
    load: &[u8],
    scrambling: &[bool; 464],
) -> Result<(), Fail> {
    let input = records(rt.alloc(), full, load)?;
    let ran = ran_to(rt, words, &input, 1_020, "0 2 ")?;
    is_slot(
        rt,
        &signalling(full, scrambling),
        ran.output.get(..510),
        words,
    );
    is_slot(rt, &data(load, scrambling), ran.output.get(510..), words);
    Ok(())
}

/// Asserts that bytes are those of a slot.
fn is_slot(rt: &impl Abort, slot: &[u8; 510], found: Option<&[u8]>, words: &str) {
    let found = found.unwrap_or(&[]);
    assert_eq!(rt; found.len(), 510);
    for k in 0..510usize {
        is_byte(rt, found.get(k) == slot.get(k), k, words);
    }
}

fn is_byte(rt: &impl Abort, is_same: bool, k: usize, words: &str) {
    assert!(rt; is_same, "position {k} of {words}");
}

#[test]
fn sent_as_by_sums(rt: HostRuntime) -> Result<(), Fail> {
    let mut pcg = Pcg32::new(1, 1);
    let words = "encode dir=ul ts2=d72";
    are_sent(&rt, &mut pcg, words, &code::colour(0, 0, 0))?;
    let words = "encode dir=ul ts2=d72 mcc=512";
    are_sent(&rt, &mut pcg, words, &code::colour(512, 0, 0))?;
    let words = "encode dir=ul ts2=d72 mcc=901 mnc=16383 cc=1";
    are_sent(&rt, &mut pcg, words, &code::colour(901, 16_383, 1))?;
    let words = "encode cc=62 dir=ul mnc=4660 ts2=d72";
    are_sent(&rt, &mut pcg, words, &code::colour(0, 4_660, 62))
}

/// A slot of drawn bits, of which each value has a drawn size and one in twelve the wrong sign.
fn received(alloc: Global, scrambling: &[bool; 464]) -> Result<[u8; 510], AllocError> {
    let mut pcg = Pcg32::new(2, 1);
    let mut slot = signalling(&drawn(alloc, &mut pcg, 268)?, scrambling);
    for k in 0..510usize {
        let [_, _, sign, size] = pcg.next_word().to_be_bytes();
        let size = size % 128;
        slot[k] = if (slot[k] < 0x80) == (sign % 12 != 0) {
            size
        } else {
            size.wrapping_neg()
        };
    }
    Ok(slot)
}

/// Whether a byte is turned: some of the slot, all of the record before the certificate, and some of the certificate,
/// more of its first and its last rows.
fn is_turned(place: usize) -> bool {
    match place {
        0..510 => place % 7 == 0,
        510..582 => true,
        582..9_638 => place % 97 == 0,
        _ => place % 3 == 0,
    }
}

/// Asserts that an audit says what the rules say.
fn agrees(
    rt: &(impl Abort + AllocGlobal),
    file: &[u8],
    scrambling: &[bool; 464],
    at: usize,
) -> Result<(), Fail> {
    let line = rules::line(rt.alloc(), file, scrambling)?;
    let words = "audit dir=ul mcc=901 mnc=16383 cc=1";
    let ran = run_over(rt.alloc(), words, file, SURE, 128)?;
    is_said(rt, &ran, line.as_str(), at);
    Ok(())
}

/// Asserts that a run said this line of one slot, and ended by it.
fn is_said(rt: &impl Abort, ran: &Outcome, line: &str, at: usize) {
    let end = if line == "0 ok\n" {
        "0 1 "
    } else {
        "1 1 refused: first slot 0, count 1"
    };
    let is_said = ran.output.as_slice() == line.as_bytes() && ran.end.as_str() == end;
    assert!(rt; is_said, "with byte {at} turned: {line}");
}

/// Asserts that an audit says what the rules say when bits of a byte are turned, which are then as they were.
fn agrees_turned(
    rt: &(impl Abort + AllocGlobal),
    file: &mut [u8],
    scrambling: &[bool; 464],
    place: usize,
    bits: u8,
) -> Result<(), Fail> {
    turn(file, place, bits);
    agrees(rt, file, scrambling, place)?;
    turn(file, place, bits);
    Ok(())
}

/// Asserts the same of three ways in which a byte is turned.
fn agrees_with_turns(
    rt: &(impl Abort + AllocGlobal),
    file: &mut [u8],
    scrambling: &[bool; 464],
    place: usize,
) -> Result<(), Fail> {
    agrees_turned(rt, file, scrambling, place, 0x01)?;
    agrees_turned(rt, file, scrambling, place, 0x80)?;
    agrees_turned(rt, file, scrambling, place, 0xFF)
}

/// A drawn slot with its record and its certificate.
fn claim(alloc: Global, scrambling: &[bool; 464]) -> Result<Vec<u8>, Fail> {
    let slot = received(alloc, scrambling)?;
    let words = "decode form=audit dir=ul mcc=901 mnc=16383 cc=1";
    Ok(run_over(alloc, words, &slot, SURE, 9_798)?.output)
}

/// Asserts that the rules say nothing against a claim.
fn is_ok(
    rt: &(impl Abort + AllocGlobal),
    file: &[u8],
    scrambling: &[bool; 464],
) -> Result<(), Fail> {
    let line = rules::line(rt.alloc(), file, scrambling)?;
    assert_eq!(rt; line.as_str(), "0 ok\n");
    Ok(())
}

#[test]
fn judged_as_by_rules(rt: HostRuntime) -> Result<(), Fail> {
    let scrambling = code::scrambling(&code::colour(901, 16_383, 1));
    let mut file = claim(rt.alloc(), &scrambling)?;
    is_ok(&rt, &file, &scrambling)?;
    for place in 0..9_798usize {
        if is_turned(place) {
            agrees_with_turns(&rt, &mut file, &scrambling, place)?;
        }
    }
    Ok(())
}
