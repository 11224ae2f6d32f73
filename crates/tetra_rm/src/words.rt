// The word of a message.
ghost use Rattle.std.specs.Prelude.{◌≡◌, ◌<◌, ◌≤◌, ◌+◌, ◌++◌, length};
ghost use Rattle.tetra_bits.specs.Digits.{digits};
ghost use Rattle.tetra_rm.specs.Code.{row_part, rows_sum, access_word};

use crate::table::Rows;
use tetra_bits::Bits;

/// Row `r`, counted from 0, where message bit `r` is 1, and 0 where it is not.
fn row_part(rows: &Rows, message: u16, r: usize) -> u16
    requires { r < 14 }
    ensures { result ≡ row_part rows.now.0 (digits 14 message) r }
{
    if (message >> (13 - r)) % 2 == 1 {
        rows.0[r]
    } else {
        0
    }
}

/// The sum modulo 2 of the rows whose message bit is 1.
pub fn sum_of_rows(rows: &Rows, message: u16) -> u16
    ensures { result ≡ rows_sum rows.now.0 (digits 14 message) 14 }
{
    let mut sum = 0;
    for r in 0..14 {
        sum ^= row_part(rows, message, r);
    }
    sum
}

/// Appends the `n` low digits of a number, the highest first.
fn push_digits(bits: &mut Bits, number: u16, n: usize)
    requires digits { n ≤ 16 }
    requires room { length bits.old + n ≤ 432 }
    ensures list { bits.new ≡ bits.old ++ digits n number }
    ensures len { length bits.new ≡ length bits.old + n }
{
    for k in 0..n {
        bits.push((number >> (n - 1 - k)) % 2 == 1);
    }
}

/// The word of a message below 16,384: its 14 bits, the highest first, followed by the 16 bits of the sum modulo 2 of
/// the rows whose message bit is 1. This project's own.
pub fn encode(rows: &Rows, message: u16) -> Bits
    requires { message < 16384 }
    ensures word { result ≡ access_word rows.now.0 (digits 14 message) }
    ensures len { length result ≡ 30 }
{
    let mut word = Bits::new();
    push_digits(&mut word, message, 14);
    push_digits(&mut word, sum_of_rows(rows, message), 16);
    word
}

/// A message below 16,384 as its 14 bits, the most significant first.
pub fn message_bits(message: u16) -> Bits
    requires { message < 16384 }
    ensures bits { result ≡ digits 14 message }
    ensures len { length result ≡ 14 }
{
    let mut bits = Bits::new();
    push_digits(&mut bits, message, 14);
    bits
}
