// A place for potentials.
ghost use Rattle.std.specs.Prelude.{◌≡◌, ◌<◌, ◌≤◌, [], ℕ, List, length, slice_index_or, slice_set};

use crate::potentials::Potentials;

/// Where a decoder writes potentials: a list of at most 293 rows of 16 entries, filled in place. What it held before is
/// gone. So a certificate can be written where it is wanted, with no copy. This project's own.
pub trait Table {
    /// Its rows.
    ghost rows_of: { Self → List (List ℕ) };

    /// Makes it `rows` long, from 0 to 293, whatever the rows then hold.
    fn begin(&mut self, rows: usize)
        requires { rows ≤ 293 }
        ensures { length (rows_of self.new) ≡ rows };

    /// The number of rows.
    fn count(&self) -> usize
        ensures { result ≡ length (rows_of self.now) };

    /// Row `t`, which counts from 0.
    fn row_at(&self, t: usize) -> &[u32; 16]
        requires { t < length (rows_of self.now) }
        ensures row { result.now ≡ slice_index_or (rows_of self.now) t [] }
        ensures sixteen { length result.now ≡ 16 };

    /// Writes row `t`, which is there.
    fn put_row(&mut self, t: usize, row: [u32; 16])
        requires { t < length (rows_of self.old) }
        ensures rows { rows_of self.new ≡ slice_set (rows_of self.old) t row }
        ensures sixteen { length row ≡ 16 };
}

impl Table for Potentials {
    ghost rows_of = { λ rows. rows };

    fn begin(&mut self, rows: usize) {
        self.resize(rows);
    }

    fn count(&self) -> usize {
        self.rows()
    }

    fn row_at(&self, t: usize) -> &[u32; 16] {
        self.row(t)
    }

    fn put_row(&mut self, t: usize, row: [u32; 16]) {
        self.set_row(t, row);
    }
}
