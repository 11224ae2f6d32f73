// Sums of rows, in tables by a part of the message.
ghost use Rattle.std.specs.Prelude.{◌≡◌, ◌<◌, ◌≤◌, ◌+◌, ◌^◌, ℕ, bit_xor, slice_index};
ghost use Rattle.tetra_rm.specs.Search.{IsPartSums};

use crate::table::Rows;

/// A table for one bit more, which stands before the others and whose row is `row`.
fn grow_sums(sums: &mut [u16; 64], size: usize, row: u16)
    requires room { size + size ≤ 64 }
    ensures first { (k : ℕ) → k < size → slice_index sums.new k ≡ slice_index sums.old k }
    ensures second { (k : ℕ) → k < size → slice_index sums.new (size + k) ≡ bit_xor (slice_index sums.old k) row }
{
    for at in 0..size {
        sums[size + at] = sums[at] ^ row;
    }
}

/// The sums of the rows of all messages that are 0 but for `n` bits from bit `from` on, counted from 0; `n` is at most 6.
pub fn part_sums(rows: &Rows, from: usize, n: usize) -> [u16; 64]
    requires there { from + n ≤ 14 }
    requires few { n ≤ 6 }
    ensures { IsPartSums rows.now.0 from n result }
{
    let mut sums = [0; 64];
    let mut size = 1;
    for k in 0..n {
        grow_sums(&mut sums, size, rows.0[from + n - 1 - k]);
        size *= 2;
    }
    sums
}
