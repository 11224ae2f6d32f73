// Parity of 16 bits, as the sums of the standard have it: they run by lanes, where a register waits for itself.
ghost use Rattle.std.specs.Prelude.{◌≡◌, ◌≤◌, length, take};
ghost use Rattle.tetra_parity.specs.Parity.{block_rest, generator16, ones_rest, parity16};

use crate::powers::power;
use tetra_bits::Bits;

/// The 16 parity bits of the first `size` bits, at most 416, as a number (EN 300 392-2 clause 8.2.3.3).
pub fn sixteen_of(bits: &Bits, size: usize) -> u16
    requires few { size ≤ 416 }
    requires there { size ≤ length bits.now }
    ensures { result ≡ parity16 (take size bits.now) }
{
    rest_of_block(bits, size) ^ rest_of_ones(size) ^ 0xFFFF
}

/// `X^16 M(X)` modulo the generator, where `M(X)` is the sum of `b(k) X^(size - k)`.
fn rest_of_block(bits: &Bits, size: usize) -> u16
    requires few { size ≤ 416 }
    requires there { size ≤ length bits.now }
    ensures { result ≡ block_rest 16 generator16 (take size bits.now) }
{
    let mut sum = 0;
    for i in 0..size {
        sum ^= u16::from(bits.get(i)) * power(15 + size - i);
    }
    sum
}

/// `X^size L(X)` modulo the generator, where `L(X)` is the sum of `X^0` to `X^15`.
fn rest_of_ones(size: usize) -> u16
    requires { size ≤ 416 }
    ensures { result ≡ ones_rest size }
{
    let mut sum = 0;
    for i in 0..16usize {
        sum ^= power(size + 15 - i);
    }
    sum
}
