// The checker by itself, on a table that may come from anywhere.
use tetra_bits::{Bits, Potentials, Soft};
use tetra_cert::{Verdict, check};
use tetra_puncture::TwoThirds;

/// 8 steps, of which 12 bits are sent: 4 bits and four tail bits.
type Short = TwoThirds<8, 12>;

/// The verdicts on a table of zeros over values that say nothing, and on the same table with one entry changed.
pub fn check_tables() -> (Verdict, Verdict) {
    let mut soft = Soft::new();
    soft.resize(12);
    let message = Bits::zeros(4);
    let mut table = Potentials::new();
    table.resize(9);
    let silent = check::<Short>(&soft, &message, &table);
    let mut row = [0; 16];
    row[3] = 1;
    table.set_row(5, row);
    (silent, check::<Short>(&soft, &message, &table))
}
