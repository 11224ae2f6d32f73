// Values of single calls that were worked out by hand: bytes, keys, sent places, the parity of SCH/F, the access code,
// the phase pairs, the ties of the kinds and four blocks that are spread.
ghost use Rattle.std.specs.Prelude.{◌≡◌, ◌<◌, ◌≤◌, length};

use std::process::Abort;
use tetra_bits::{Bits, Soft, cost, soft_of};
use tetra_bursts::{Allowed, Train, kind, phase_pair};
use tetra_channels::Full;
use tetra_diag::{Gather, Spread};
use tetra_parity::{add4, add8, holds4, holds8};
use tetra_puncture::{P148, P292, Plan, SpeechHalf, SpeechWhole, TwoThirds, keep};
use tetra_rm::{decode, encode, own_rows};
use tetra_scramble::{Colour, Key, key, zero_key};

/// Asserts a number, which is that of this place or of this bit.
fn is_number(rt: &impl Abort, found: i64, wanted: i64, k: usize) {
    assert_eq!(rt; found, wanted, "at {k}");
}

fn has_value(rt: &impl Abort, byte: u8, value: i64) {
    is_number(rt, i64::from(soft_of(byte)), value, usize::from(byte));
}

fn costs(rt: &impl Abort, value: i16, bit: bool, expected: i64) {
    is_number(rt, i64::from(cost(value, bit)), expected, usize::from(bit));
}

fn is_bit(rt: &impl Abort, found: bool, wanted: bool, k: usize) {
    is_number(rt, i64::from(found), i64::from(wanted), k);
}

#[test]
fn values_of_bytes(rt: HostRuntime) {
    has_value(&rt, 0x80, -127);
    has_value(&rt, 0x81, -127);
    has_value(&rt, 0x7F, 127);
    has_value(&rt, 0xFF, -1);
    has_value(&rt, 0x00, 0);
    costs(&rt, -127, false, 127);
    costs(&rt, -127, true, 0);
    costs(&rt, 0, true, 0);
    costs(&rt, 5, true, 5);
}

/// Asserts that these bits stand from a place on.
fn stand(rt: &impl Abort, word: &Bits, from: usize, bits: &[u8]) {
    assert!(rt; from <= word.len() && bits.len() <= word.len() - from);
    for k in 0..bits.len() {
        is_bit(rt, word.get(from + k), bits[k] == b'1', k);
    }
}

fn begins_with(rt: &impl Abort, key: &Key, bits: &[u8]) {
    assert!(rt; bits.len() <= 432);
    for i in 0..bits.len() {
        is_bit(rt, key.get(i), bits[i] == b'1', i);
    }
}

#[test]
fn first_bits_of_keys(rt: HostRuntime) {
    begins_with(&rt, &zero_key(), b"1011111111110100");
    let country = Colour {
        mcc: 512,
        mnc: 0,
        cc: 0,
    };
    begins_with(&rt, &key(&country), b"0");
    let code = Colour {
        mcc: 0,
        mnc: 0,
        cc: 1,
    };
    begins_with(&rt, &key(&code), b"100");
}

/// So many zeros.
fn zeros(rt: &impl Abort, size: usize) -> Bits
    requires { size ≤ 432 }
    ensures { length result ≡ size }
{
    let bits = Bits::zeros(size);
    assert!(rt; bits.len() == size);
    bits
}

#[test]
fn sent_word_of_a_one(rt: HostRuntime) {
    let mut message = zeros(&rt, 76);
    message.set(0, true);
    stand(&rt, &keep::<TwoThirds<80, 120>>(&message), 0, b"111010110");
}

#[test]
fn sent_word_of_zeros(rt: HostRuntime) {
    let word = Full::type3(&zeros(&rt, 268));
    for k in 0..408usize {
        is_bit(&rt, word.get(k), k == 404 || k == 406, k);
    }
}

/// Asserts the place of a sent bit.
fn is_place(rt: &impl Abort, found: usize, wanted: usize) {
    assert_eq!(rt; found, wanted);
}

#[test]
fn places_of_protected_data(rt: HostRuntime) {
    is_place(&rt, P292::place(65), 170);
    is_place(&rt, P292::place(66), 177);
    is_place(&rt, P292::place(432), 1165);
    is_place(&rt, P148::place(36), 49);
    is_place(&rt, P148::place(432), 591);
}

#[test]
fn places_of_speech(rt: HostRuntime) {
    is_place(&rt, SpeechWhole::place(169), 337);
    is_place(&rt, SpeechWhole::place(330), 551);
    is_place(&rt, SpeechHalf::place(85), 169);
    is_place(&rt, SpeechHalf::place(165), 281);
}

#[test]
fn parity_of_speech_in_half_a_slot(rt: HostRuntime) {
    let mut block = zeros(&rt, 30);
    block.set(29, true);
    let mut message = add4(&block);
    assert!(rt; message.len() == 34);
    stand(&rt, &message, 30, b"0011");
    assert!(rt; holds4(&message));
    message.set(33, false);
    assert!(rt; !holds4(&message));
}

#[test]
fn parity_of_speech_of_zeros(rt: HostRuntime) {
    let mut message = add8(&zeros(&rt, 60));
    assert!(rt; message == Bits::zeros(68) && message.len() == 68);
    assert!(rt; holds8(&message));
    message.set(67, true);
    assert!(rt; !holds8(&message));
}

#[test]
fn parity_of_speech_of_a_one(rt: HostRuntime) {
    let mut block = zeros(&rt, 60);
    block.set(59, true);
    let message = add8(&block);
    assert!(rt; message.len() == 68);
    stand(&rt, &message, 60, b"00010011");
}

/// The word of the access message 1: thirteen zeros, a one, and the last row.
const LAST_ROW: &[u8; 30] = b"000000000000010001111101011111";

#[test]
fn access_words(rt: HostRuntime) {
    let word = encode(&own_rows(), 1);
    stand(&rt, &word, 0, LAST_ROW);
    let nothing = decode(&own_rows(), &silent(&rt));
    assert!(rt; nothing.message == 0 && nothing.metric == 0);
    let one = decode(&own_rows(), &heard(&rt, &word));
    assert!(rt; one.message == 1 && one.metric == 0);
}

/// Thirty values that say nothing.
fn silent(rt: &impl Abort) -> Soft
    ensures { length result ≡ 30 }
{
    let mut soft = Soft::new();
    for _ in 0..30usize {
        assert!(rt; soft.len() < 30);
        soft.push(0);
    }
    assert!(rt; soft.len() == 30);
    soft
}

/// The values of bits that come undamaged.
fn heard(rt: &impl Abort, word: &Bits) -> Soft
    ensures { length result ≡ length word.now }
{
    let mut soft = Soft::new();
    for k in 0..word.len() {
        assert!(rt; k < word.len() && soft.len() < 432);
        soft.push(if word.get(k) { -127 } else { 127 });
    }
    assert!(rt; soft.len() == word.len());
    soft
}

#[test]
fn phase_pairs_of_zeros(rt: HostRuntime) {
    assert!(rt; phase_pair(&[false; 230]) == (true, true));
    assert!(rt; phase_pair(&[false; 254]) == (false, false));
}

/// Asserts the kind of a slot of zeros where these kinds are allowed.
fn is_kind(rt: &impl Abort, n: bool, p: bool, train: Train) {
    let found = kind(&[0; 510], true, Allowed { n, p, y: true });
    assert!(rt; found == train);
}

#[test]
fn kinds_of_nothing(rt: HostRuntime) {
    is_kind(&rt, true, true, Train::N);
    is_kind(&rt, false, true, Train::P);
    is_kind(&rt, false, false, Train::Y);
}

/// 432 bits of which this one is 1.
fn one_at(rt: &impl Abort, place: usize) -> Bits
    requires { place < 432 }
    ensures { length result ≡ 432 }
{
    let mut bits = zeros(rt, 432);
    bits.set(place, true);
    bits
}

/// Asserts that these are the values of the first of four blocks.
fn is_first(rt: &impl Abort, values: &Soft) {
    assert!(rt; values.len() == 432);
    for k in 0..432usize {
        let wanted = if k == 3 { -127 } else { 127 };
        is_number(rt, i64::from(values.get(k)), wanted, k);
    }
}

#[test]
fn four_blocks_spread_and_gathered(rt: HostRuntime) {
    let (mut spread, mut gather) = (Spread::<4>::new(), Gather::<4>::new());
    for m in 0..4usize {
        let word = spread.push(&one_at(&rt, 7 * m + 3));
        match gather.push(&heard(&rt, &word)) {
            None => assert!(rt; m < 3),
            Some(values) => {
                assert_eq!(rt; m, 3);
                is_first(&rt, &values);
            }
        }
    }
}
