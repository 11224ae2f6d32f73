// What is read of a slot.
ghost use Rattle.std.specs.Prelude.{◌≡◌, ◌≤◌};
ghost use Rattle.tetra_bits.specs.Packed.{bytes_for};
ghost use Rattle.tetra_settings.specs.Readings.{sizes, message_bits, field_values, certificate_rows};

use arrayvec::ArrayVec;
use tetra_bits::{Bits, Mark, Reading};

/// The fields of a slot that are read.
#[derive(Clone, Copy, Debug, PartialEq, Eq)]
pub enum FieldName {
    /// AACH.
    Aach,
    /// BSCH.
    Sync,
    /// SCH/HD, BNCH or STCH.
    Half,
    /// SCH/HU.
    Hu,
    /// SCH/F.
    Full,
    /// TCH/7.2.
    D72,
    /// TCH/4.8.
    D48,
    /// TCH/2.4.
    D24,
    /// Speech of a whole slot.
    Whole,
    /// Speech of a half slot.
    Single,
}

/// The sizes of a field.
#[derive(Clone, Copy, Debug, PartialEq, Eq)]
pub struct FieldSizes {
    /// The bits of the whole message, parity included.
    pub bits: usize,
    /// The soft values that it is read from.
    pub values: usize,
    /// The steps of its trellis; 0 where it has none.
    pub steps: usize,
}

impl FieldSizes {
    const fn new(bits: usize, values: usize, steps: usize) -> FieldSizes
        ensures { result ≡ record { bits = bits; values = values; steps = steps } }
    {
        FieldSizes {
            bits,
            values,
            steps,
        }
    }
}

impl FieldName {
    /// The sizes of the field (EN 300 392-2 clause 8.2; of speech and the access code this project's own).
    pub fn sizes(self) -> FieldSizes
        ensures sizes { result ≡ sizes self }
        ensures few { (result.bits ≤ 432) × (result.values ≤ 432) × (result.steps ≤ 292) }
    {
        match self {
            FieldName::Aach => FieldSizes::new(14, 30, 0),
            FieldName::Sync => FieldSizes::new(76, 120, 80),
            FieldName::Half => FieldSizes::new(140, 216, 144),
            FieldName::Hu => FieldSizes::new(108, 168, 112),
            FieldName::Full => FieldSizes::new(284, 432, 288),
            FieldName::D72 => FieldSizes::new(432, 432, 0),
            FieldName::D48 => FieldSizes::new(288, 432, 292),
            FieldName::D24 => FieldSizes::new(144, 432, 148),
            FieldName::Whole => FieldSizes::new(282, 432, 184),
            FieldName::Single => FieldSizes::new(141, 216, 94),
        }
    }

    /// The bytes that hold the bits of the field.
    pub fn message_bytes(self) -> usize
        ensures bytes { result ≡ bytes_for (message_bits self) }
        ensures few { result ≤ 54 }
    {
        self.sizes().bits.div_ceil(8)
    }

    /// The rows of the certificate of the field, one more than its steps; 0 where it has no trellis.
    pub fn certificate_rows(self) -> usize
        ensures rows { result ≡ certificate_rows self }
        ensures few { result ≤ 293 }
    {
        let steps = self.sizes().steps;
        if steps == 0 { 0 } else { steps + 1 }
    }
}

/// A field with its reading.
#[derive(Drop)]
pub struct Field {
    pub name: FieldName,
    pub reading: Reading,
}

impl Default for Field {
    ghost is_default = { λ _. Unit {0} };

    /// An AACH without bits, which nothing rests on: a list of fixed capacity asks for some value.
    fn default() -> Self {
        Field {
            name: FieldName::Aach,
            reading: Reading {
                mark: Mark::Unchecked,
                metric: 0,
                bits: Bits::new(),
                potentials: None,
            },
        }
    }
}

/// The readings of a slot: its letter as a byte, and its fields in their order, on the downlink the AACH first.
#[derive(Drop)]
pub struct SlotReading {
    pub letter: u8,
    pub fields: ArrayVec<Field, 4>,
}
