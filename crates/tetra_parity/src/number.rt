// The parity of a block as a number.
ghost use Rattle.std.specs.Prelude.{◌≡◌, ◌≤◌, ◌<◌, ◌+◌, length, take};
ghost use Rattle.tetra_bits.specs.Digits.{digit, digits};
ghost use Rattle.tetra_parity.specs.Parity.{width, parity_bits, sum_of};

use crate::kind::Parity;
use crate::register::register_of;
use crate::sixteen::sixteen_of;
use tetra_bits::Bits;

/// `X^4 + X + 1`.
const GENERATOR4: u32 = 0b1_0011;

/// `X^7 + X^3 + 1`.
const GENERATOR7: u32 = 0b1000_1001;

/// The parity of the first `size` bits: the digits of a number, the most significant first.
pub fn parity_of(parity: Parity, bits: &Bits, size: usize) -> u32
    requires room { size + width parity ≤ 432 }
    requires there { size ≤ length bits.now }
    ensures { digits (width parity) result ≡ parity_bits parity (take size bits.now) }
{
    match parity {
        Parity::Nothing => 0,
        Parity::Four => register_of::<4, GENERATOR4>(bits, size),
        Parity::Eight => {
            let seven = register_of::<7, GENERATOR7>(bits, size);
            2 * seven + u32::from(sum_of(bits, size) != sum_of_seven(seven))
        }
        Parity::Sixteen => u32::from(sixteen_of(bits, size)),
    }
}

/// The sum modulo 2 of the first `size` bits.
fn sum_of(bits: &Bits, size: usize) -> bool
    requires { size ≤ length bits.now }
    ensures { result ≡ sum_of (take size bits.now) }
{
    let mut sum = false;
    for i in 0..size {
        sum = sum != bits.get(i);
    }
    sum
}

/// The sum modulo 2 of seven binary digits.
fn sum_of_seven(number: u32) -> bool
    ensures { result ≡ sum_of (digits 7 number) }
{
    let mut sum = false;
    for i in 0..7usize {
        sum = sum != digit(number, 7, i);
    }
    sum
}

/// Digit `i`, which counts from 0, of a number in `len` binary digits, the most significant first.
pub fn digit(number: u32, len: usize, i: usize) -> bool
    requires few { len ≤ 32 }
    requires there { i < len }
    ensures { result ≡ digit len number (i + 1) }
{
    number >> (len - 1 - i) & 1 == 1
}
