// That the clauses mean the rows, words and messages that were asked for.
ghost use Rattle.std.specs.Prelude.{◌≡◌, length};

use crate::walk::{decode_by_walk, turned};
use crate::{AccessCode, Rows, decode, encode, own_rows};
use tetra_bits::{Bits, Soft};

/// The bits of a word, the first of 30 highest.
fn number(word: &Bits) -> u32 {
    let mut number = 0;
    for k in 0..word.len() {
        number = (number << 1) | u32::from(word.get(k));
    }
    number
}

/// 30 values, 127 where the bit is 0 and -127 where it is 1.
fn values(word: u32) -> Soft
    ensures { length result ≡ 30 }
{
    let mut soft = Soft::new();
    for k in 0..30usize {
        soft.push(if (word >> (29 - k)) & 1 == 1 {
            -127
        } else {
            127
        });
    }
    soft
}

#[test]
fn first_and_last_row(rt: HostRuntime) {
    let rows = own_rows();
    assert_eq!(rt; rows.0[0], 0x643C);
    assert_eq!(rt; rows.0[13], 0x1F5F);
}

#[test]
fn words(rt: HostRuntime) {
    assert_eq!(rt; number(&encode(&own_rows(), 1)), 0x0001_1F5F);
    assert_eq!(rt; number(&encode(&Rows([0; 14]), 1)), 0x0001_0000);
}

#[test]
fn zeros_are_message_0(rt: HostRuntime) {
    let mut soft = Soft::new();
    soft.resize(30);
    let reading = decode(&own_rows(), &soft);
    assert_eq!(rt; (reading.message, reading.metric), (0, 0));
}

#[test]
fn signs_of_a_word(rt: HostRuntime) {
    let reading = decode(&own_rows(), &values(0x0001_1F5F));
    assert_eq!(rt; (reading.message, reading.metric), (1, 0));
}

#[test]
fn rows_of_zeros(rt: HostRuntime) {
    let reading = decode(&Rows([0; 14]), &values(0x0001_1F5F));
    assert_eq!(rt; (reading.message, reading.metric), (1, 11 * 127));
}

#[test]
fn last_bit_turned(rt: HostRuntime) {
    let soft = values(0x0001_1F5F);
    let one = decode(&own_rows(), &soft);
    let metric = turned(&own_rows(), &soft, one.message, one.metric, 14);
    assert_eq!(rt; metric, 12 * 127);
}

#[test]
fn walk_reads_the_same(rt: HostRuntime) {
    let reading = decode_by_walk(&own_rows(), &values(0x0001_1F5F));
    assert_eq!(rt; (reading.message, reading.metric), (1, 0));
}

#[test]
fn message_of_all_parts(rt: HostRuntime) {
    let word = number(&encode(&own_rows(), 0x2A95));
    let reading = decode(&own_rows(), &values(word ^ 0x0101_0001));
    assert_eq!(rt; (reading.message, reading.metric), (0x2A95, 3 * 127));
}

#[test]
fn one_code_reads_two_fields(rt: HostRuntime) {
    let code = AccessCode::of(&own_rows());
    let word = number(&encode(&own_rows(), 0x2A95));
    let first = code.decode(&values(word));
    let second = code.decode(&values(0x0001_1F5F));
    assert_eq!(rt; (first.message, first.metric), (0x2A95, 0));
    assert_eq!(rt; (second.message, second.metric), (1, 0));
}
