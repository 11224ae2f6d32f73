// The bytes of a reading record, read back.
ghost use Rattle.std.specs.Prelude.{◌≡◌, ◌<◌, ◌≤◌, ◌+◌, ◌*◌, ℕ, length, slice_index};
ghost use Rattle.std.specs.Simd.Lanes.{Each1};
ghost use Rattle.tetra_bits.specs.Packed.{bytes_for};
ghost use Rattle.tetra_audit.specs.Claims.{number_at, claimed_row, claimed_table};

use std::simd::prelude::*;
use tetra_bits::Potentials;

/// The sixteen numbers of 32 bytes, two bytes each, the higher byte first.
#[inline(always)]
fn numbers_of(bytes: u8x32) -> [u32; 16]
    requires long { length bytes ≡ 32 }
    requires bytes { Each1 (λ k. k < 256) bytes }
    ensures long { length result ≡ 16 }
    ensures value { (s : ℕ) → s < 16 → slice_index result s ≡ number_at bytes s }
{
    let turned = bytes.swizzle([
        1, 0, 3, 2, 5, 4, 7, 6, 9, 8, 11, 10, 13, 12, 15, 14, 17, 16, 19, 18, 21, 20, 23, 22, 25,
        24, 27, 26, 29, 28, 31, 30,
    ]);
    u16x16::from_le_bytes(turned).cast::<u32>().to_array()
}

/// Row `t` of a table, counted from 0.
fn row_at(bytes: &[u8], t: usize) -> [u32; 16]
    requires { 32 * (t + 1) ≤ length bytes.now }
    ensures { result ≡ claimed_row bytes.now (t + 1) }
{
    numbers_of(u8x32::from_slice(&bytes[32 * t..]))
}

/// Reads a table of `rows` rows, written over the potentials that are there.
pub fn read_table(bytes: &[u8], rows: usize, table: &mut Potentials)
    requires few { rows ≤ 293 }
    requires size { length bytes.now ≡ 32 * rows }
    ensures table { table.new ≡ claimed_table bytes.now rows }
    ensures rows { length table.new ≡ rows }
{
    table.resize(rows);
    for t in 0..rows {
        table.set_row(t, row_at(bytes, t));
    }
}
