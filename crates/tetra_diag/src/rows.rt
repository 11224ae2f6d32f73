// What is read of a ring: its words, value by value, and its blocks, bit by bit.
ghost use Rattle.std.specs.Prelude.{◌≡◌, ◌<◌, Bool, ℤ, List, length};
ghost use Rattle.tetra_bits.specs.Order.{bit_at};
ghost use Rattle.tetra_bits.specs.Soft.{IsSoft, value_at};

use tetra_bits::{Bits, Soft};

/// A slot word that is kept, however it is laid out.
pub trait WordRow {
    /// Its soft values.
    ghost values: { Self → List ℤ };

    /// The value at `i`, which counts from 0.
    fn value(&self, i: usize) -> i16
        requires { i < length (values self.now) }
        ensures value { result ≡ value_at (values self.now) i }
        ensures soft { IsSoft result };
}

/// A block that is kept, however it is laid out.
pub trait BlockRow {
    /// Its bits.
    ghost bits: { Self → List Bool };

    /// The bit at `i`, which counts from 0.
    fn bit(&self, i: usize) -> bool
        requires { i < length (bits self.now) }
        ensures { result ≡ bit_at (bits self.now) i };
}

impl WordRow for Soft {
    ghost values = { λ s. s };

    fn value(&self, i: usize) -> i16 {
        self.get(i)
    }
}

impl BlockRow for Bits {
    ghost bits = { λ s. s };

    fn bit(&self, i: usize) -> bool {
        self.get(i)
    }
}
