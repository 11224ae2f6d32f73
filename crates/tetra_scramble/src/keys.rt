// The key as a list of bits.
ghost use Rattle.std.specs.Prelude.{◌≡◌, ◌<◌, Bool, List, length};
ghost use Rattle.tetra_bits.specs.Order.{bit_at};

use std::marker::Model;

/// The first 432 bits of a scrambling sequence, numbered from 1 (EN 300 392-2 clause 8.2.5). Seen as the list of its
/// bits.
#[derive(Drop)]
pub struct Key {
    bits: [bool; 432],
}

impl Model for Key {
    ghost Value = { List Bool };

    ghost view = { λ s. s.bits };

    ghost invariant = { λ s. length s.bits ≡ 432 };
}

impl Key {
    /// The key with these bits.
    pub(crate) fn of_bits(bits: [bool; 432]) -> Key
        ensures { result ≡ bits }
    {
        Key { bits }
    }

    /// The bit at `i`, which counts from 0: `get(0)` is key bit 1.
    pub fn get(&self, i: usize) -> bool
        requires { i < 432 }
        ensures value { result ≡ bit_at self.now i }
        ensures size { length self.now ≡ 432 }
    {
        self.bits[i]
    }
}
