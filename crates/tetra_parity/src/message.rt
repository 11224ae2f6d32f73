// Messages: blocks with their parity.
ghost use Rattle.std.specs.Prelude.{◌≡◌, ◌↔◌, ◌≤◌, ◌+◌, IsTrue, length};
ghost use Rattle.tetra_parity.specs.Marks.{mark_of, IsMarked};
ghost use Rattle.tetra_parity.specs.Parity.{width, with_parity, Holds, holds_of};
ghost use Rattle.tetra_parity.specs.declared.kind.Parity.TheVariants.{Four, Eight, Sixteen};

use crate::kind::Parity;
use crate::number::{digit, parity_of};
use tetra_bits::{Bits, Mark};

/// A block followed by its parity, with at most 432 bits in all.
pub fn with_parity(parity: Parity, block: &Bits) -> Bits
    requires { length block.now + width parity ≤ 432 }
    ensures { result ≡ with_parity parity block.now }
{
    let width = parity.width();
    let number = parity_of(parity, block, block.len());
    let mut message = block.copy();
    for i in 0..width {
        message.push(digit(number, width, i));
    }
    message
}

/// Whether parity holds on a message, which has at least its bits: the last bits are the parity of those before.
pub fn holds(parity: Parity, message: &Bits) -> bool
    requires { width parity ≤ length message.now }
    ensures holds { IsTrue result ↔ Holds parity message.now }
    ensures value { result ≡ holds_of parity message.now }
{
    let width = parity.width();
    let size = message.len() - width;
    let number = parity_of(parity, message, size);
    for i in 0..width {
        if message.get(size + i) != digit(number, width, i) {
            return false;
        }
    }
    true
}

/// The mark of a message, which has at least the bits of its parity: Unchecked where there is none, else Good where it
/// holds and Bad where it does not. This project's own.
pub fn mark(parity: Parity, message: &Bits) -> Mark
    requires { width parity ≤ length message.now }
    ensures value { result ≡ mark_of parity message.now }
    ensures marked { IsMarked parity result message.now }
{
    match parity {
        Parity::Nothing => Mark::Unchecked,
        Parity::Four | Parity::Eight | Parity::Sixteen => {
            if holds(parity, message) {
                Mark::Good
            } else {
                Mark::Bad
            }
        }
    }
}

/// A block of at most 416 bits, followed by its 16 parity bits (EN 300 392-2 clause 8.2.3.3).
pub fn add16(block: &Bits) -> Bits
    requires { length block.now ≤ 416 }
    ensures { result ≡ with_parity Sixteen block.now }
{
    with_parity(Parity::Sixteen, block)
}

/// Whether parity holds on a message of at least 16 bits: the last 16 are the parity of those before.
pub fn holds16(message: &Bits) -> bool
    requires { 16 ≤ length message.now }
    ensures holds { IsTrue result ↔ Holds Sixteen message.now }
    ensures value { result ≡ holds_of Sixteen message.now }
{
    holds(Parity::Sixteen, message)
}

/// A block of 60 bits, followed by its 8 parity bits (this project's own).
pub fn add8(block: &Bits) -> Bits
    requires { length block.now ≡ 60 }
    ensures { result ≡ with_parity Eight block.now }
{
    with_parity(Parity::Eight, block)
}

/// Whether parity holds on a message of 68 bits: the last 8 are the parity of the 60 before.
pub fn holds8(message: &Bits) -> bool
    requires { length message.now ≡ 68 }
    ensures holds { IsTrue result ↔ Holds Eight message.now }
    ensures value { result ≡ holds_of Eight message.now }
{
    holds(Parity::Eight, message)
}

/// A block of 30 bits, followed by its 4 parity bits (this project's own).
pub fn add4(block: &Bits) -> Bits
    requires { length block.now ≡ 30 }
    ensures { result ≡ with_parity Four block.now }
{
    with_parity(Parity::Four, block)
}

/// Whether parity holds on a message of 34 bits: the last 4 are the parity of the 30 before.
pub fn holds4(message: &Bits) -> bool
    requires { length message.now ≡ 34 }
    ensures holds { IsTrue result ↔ Holds Four message.now }
    ensures value { result ≡ holds_of Four message.now }
{
    holds(Parity::Four, message)
}
