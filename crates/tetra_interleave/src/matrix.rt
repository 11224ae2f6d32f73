// The matrix of speech.
ghost use Rattle.std.specs.Prelude.{◌≡◌, ◌≤◌, ◌<◌, ◌+◌, ◌-◌, ◌*◌, ℕ, Bool, List, ℤ, pos, false, length};
ghost use Rattle.tetra_interleave.specs.Matrix.{matrix_place};
ghost use Rattle.tetra_interleave.specs.Placed.{IsPlaced, entry_from, placed, taken};
ghost use Rattle.tetra_bits.specs.lemmas.InPlace.{Begins};

use tetra_bits::{Bits, Soft};

/// A matrix of `ROWS` rows and `COLS` columns, written by rows and read by columns (this project's own):
/// entry i goes to place `ROWS ((i - 1) mod COLS) + (i - 1) div COLS + 1`. It has at most 432 entries, and
/// each list has `ROWS COLS`.
pub struct Matrix<const ROWS: usize, const COLS: usize>;

impl<const ROWS: usize, const COLS: usize> Matrix<ROWS, COLS> {
    /// The bits at their places.
    pub fn bits_out(x: &Bits) -> Bits
        requires fits { ROWS * COLS ≤ 432 }
        requires size { length x.now ≡ ROWS * COLS }
        ensures places { IsPlaced false (ROWS * COLS) (matrix_place ROWS COLS) x.now result }
        ensures value { result ≡ placed false (ROWS * COLS) (matrix_place ROWS COLS) x.now }
        ensures back { taken false (ROWS * COLS) (matrix_place ROWS COLS) result ≡ x.now }
        ensures only { (z : List Bool) → IsPlaced false (ROWS * COLS) (matrix_place ROWS COLS) z result → z ≡ x.now }
    {
        bits_by_columns::<COLS, ROWS>(x)
    }

    /// The list that has these bits at its places.
    pub fn bits_back(x: &Bits) -> Bits
        requires fits { ROWS * COLS ≤ 432 }
        requires size { length x.now ≡ ROWS * COLS }
        ensures places { IsPlaced false (ROWS * COLS) (matrix_place ROWS COLS) result x.now }
        ensures value { result ≡ taken false (ROWS * COLS) (matrix_place ROWS COLS) x.now }
        ensures out { placed false (ROWS * COLS) (matrix_place ROWS COLS) result ≡ x.now }
        ensures only { (z : List Bool) → IsPlaced false (ROWS * COLS) (matrix_place ROWS COLS) result z → z ≡ x.now }
    {
        bits_by_columns::<ROWS, COLS>(x)
    }

    /// The list that has these soft values at its places.
    pub fn soft_back(x: &Soft) -> Soft
        requires fits { ROWS * COLS ≤ 432 }
        requires size { length x.now ≡ ROWS * COLS }
        ensures places { IsPlaced (pos 0) (ROWS * COLS) (matrix_place ROWS COLS) result x.now }
        ensures value { result ≡ taken (pos 0) (ROWS * COLS) (matrix_place ROWS COLS) x.now }
        ensures out { placed (pos 0) (ROWS * COLS) (matrix_place ROWS COLS) result ≡ x.now }
        ensures only { (z : List ℤ) → IsPlaced (pos 0) (ROWS * COLS) (matrix_place ROWS COLS) result z → z ≡ x.now }
    {
        let mut all = Soft::new();
        Self::soft_back_into(x, &mut all);
        all
    }

    /// Fills `all` with the list that has these soft values at its places.
    pub fn soft_back_into(x: &Soft, all: &mut Soft)
        requires fits { ROWS * COLS ≤ 432 }
        requires size { length x.now ≡ ROWS * COLS }
        ensures places { IsPlaced (pos 0) (ROWS * COLS) (matrix_place ROWS COLS) all.new x.now }
        ensures value { all.new ≡ taken (pos 0) (ROWS * COLS) (matrix_place ROWS COLS) x.now }
        ensures out { placed (pos 0) (ROWS * COLS) (matrix_place ROWS COLS) all.new ≡ x.now }
        ensures only { (z : List ℤ) → IsPlaced (pos 0) (ROWS * COLS) (matrix_place ROWS COLS) all.new z → z ≡ x.now }
    {
        values_by_columns::<ROWS, COLS>(x, all);
    }
}

/// The bits of a matrix whose columns, of `ROWS` entries each, stand one behind the other: row by row.
fn bits_by_columns<const ROWS: usize, const COLS: usize>(x: &Bits) -> Bits
    requires few { ROWS * COLS ≤ 432 }
    requires size { length x.now ≡ ROWS * COLS }
    ensures { result ≡ taken false (ROWS * COLS) (matrix_place ROWS COLS) x.now }
{
    let mut all = Bits::zeros(ROWS * COLS);
    for row in 0..ROWS {
        take_row_of_bits::<ROWS, COLS>(x, row, &mut all);
    }
    all
}

/// Takes the bits of one row, which stand `ROWS` places apart. Rows count from 0. No place is divided.
fn take_row_of_bits<const ROWS: usize, const COLS: usize>(x: &Bits, row: usize, all: &mut Bits)
    requires few { ROWS * COLS ≤ 432 }
    requires size { length x.now ≡ ROWS * COLS }
    requires row { row < ROWS }
    requires room { length all.old ≡ ROWS * COLS }
    ensures room { length all.new ≡ ROWS * COLS }
    ensures taken { Begins (entry_from false (matrix_place ROWS COLS) x.now) false (COLS * row) all.old
        → Begins (entry_from false (matrix_place ROWS COLS) x.now) false (COLS * (row + 1)) all.new }
{
    for col in 0..COLS {
        all.set(COLS * row + col, x.get(ROWS * col + row));
    }
}

/// The same as `bits_by_columns` of soft values, into a list that is there.
fn values_by_columns<const ROWS: usize, const COLS: usize>(x: &Soft, all: &mut Soft)
    requires few { ROWS * COLS ≤ 432 }
    requires size { length x.now ≡ ROWS * COLS }
    ensures { all.new ≡ taken (pos 0) (ROWS * COLS) (matrix_place ROWS COLS) x.now }
{
    all.resize(ROWS * COLS);
    for row in 0..ROWS {
        take_row_of_values::<ROWS, COLS>(x, row, all);
    }
}

/// The same as `take_row_of_bits` of soft values.
fn take_row_of_values<const ROWS: usize, const COLS: usize>(x: &Soft, row: usize, all: &mut Soft)
    requires few { ROWS * COLS ≤ 432 }
    requires size { length x.now ≡ ROWS * COLS }
    requires row { row < ROWS }
    requires room { length all.old ≡ ROWS * COLS }
    ensures room { length all.new ≡ ROWS * COLS }
    ensures taken { Begins (entry_from (pos 0) (matrix_place ROWS COLS) x.now) (pos 0) (COLS * row) all.old
        → Begins (entry_from (pos 0) (matrix_place ROWS COLS) x.now) (pos 0) (COLS * (row + 1)) all.new }
{
    for col in 0..COLS {
        all.set(COLS * row + col, x.get(ROWS * col + row));
    }
}

// Which way the places go, on a few entries.
#[cfg(test)]
mod tests {
    use super::Matrix;
    use tetra_bits::Bits;

    fn one_at(i: usize) -> Bits
        ensures { length result ≡ 432 }
    {
        let mut all = Bits::new();
        for k in 1..433usize {
            all.push(k == i);
        }
        all
    }

    #[test]
    fn places(rt: HostRuntime) {
        for (entry, place) in [(2usize, 25usize), (18, 409), (19, 2), (432, 432)] {
            let sent = Matrix::<24, 18>::bits_out(&one_at(entry));
            assert!(rt; sent == one_at(place));
            assert!(rt; Matrix::<24, 18>::bits_back(&sent) == one_at(entry));
        }
    }
}
