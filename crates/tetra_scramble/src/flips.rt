// Scrambling and descrambling.
ghost use Rattle.std.specs.Prelude.{◌≡◌, ◌≤◌, ◌+◌, ◌-◌, cond, length};
ghost use Rattle.std.proofs.Math.IntN.{neg_ℤ};
ghost use Rattle.tetra_bits.specs.Soft.{IsSoft};
ghost use Rattle.tetra_scramble.specs.Flips.{flipped, turned};

use crate::keys::Key;
use tetra_bits::{Bits, Soft};

/// The bits of `x` with key bits added, from key bit `from` on, which counts from 1: bit `i` goes with key bit
/// `from + i - 1`. The key must have these bits (EN 300 392-2 clause 8.2.5).
pub fn flip_bits(x: &Bits, key: &Key, from: usize) -> Bits
    requires first { 1 ≤ from }
    requires last { from - 1 + length x.now ≤ 432 }
    ensures { result ≡ flipped x.now key.now from }
{
    let mut bits = Bits::zeros(x.len());
    for i in 0..x.len() {
        bits.set(i, x.get(i) != key.get(from - 1 + i));
    }
    bits
}

/// Adds key bits to the bits where they stand, as `flip_bits` does.
pub fn flip_bits_in_place(bits: &mut Bits, key: &Key, from: usize)
    requires first { 1 ≤ from }
    requires last { from - 1 + length bits.old ≤ 432 }
    ensures { bits.new ≡ flipped bits.old key.now from }
{
    for i in 0..bits.len() {
        let bit = bits.get(i);
        bits.set(i, bit != key.get(from - 1 + i));
    }
}

/// The values of `x`, the sign turned where a key bit is 1, from key bit `from` on, which counts from 1: value `i` goes
/// with key bit `from + i - 1`. The key must have these bits (EN 300 392-2 clause 8.2.5).
pub fn flip_soft(x: &Soft, key: &Key, from: usize) -> Soft
    requires first { 1 ≤ from }
    requires last { from - 1 + length x.now ≤ 432 }
    ensures { result ≡ turned x.now key.now from }
{
    let mut values = Soft::new();
    flip_soft_into(x, key, from, &mut values);
    values
}

/// The answer of `flip_soft`, written into `values` in place of what stood there.
pub fn flip_soft_into(x: &Soft, key: &Key, from: usize, values: &mut Soft)
    requires first { 1 ≤ from }
    requires last { from - 1 + length x.now ≤ 432 }
    ensures { values.new ≡ turned x.now key.now from }
{
    values.resize(x.len());
    for i in 0..x.len() {
        values.set(i, turned_by(x.get(i), key.get(from - 1 + i)));
    }
}

/// Turns the signs of the values where they stand, as `flip_soft` does.
pub fn flip_soft_in_place(values: &mut Soft, key: &Key, from: usize)
    requires first { 1 ≤ from }
    requires last { from - 1 + length values.old ≤ 432 }
    ensures { values.new ≡ turned values.old key.now from }
{
    for i in 0..values.len() {
        let value = values.get(i);
        values.set(i, turned_by(value, key.get(from - 1 + i)));
    }
}

/// The value, its sign turned where `bit` is 1.
fn turned_by(value: i16, bit: bool) -> i16
    requires { IsSoft value }
    ensures value { result ≡ cond bit (neg_ℤ value) value }
    ensures soft { IsSoft result }
{
    if bit { -value } else { value }
}
