// Reading records.
ghost use Rattle.std.specs.Prelude.{◌≡◌, ◌<◌, ◌≤◌, ◌+◌, ◌*◌, ◌/◌, ◌++◌, ◌∷◌, [], ℕ, length, take, slice_index};
ghost use Rattle.std.specs.List.{All};
ghost use Rattle.arrayvec.specs.ArrayVec.{array_vec_len};
ghost use Rattle.tetra_bits.specs.Readings.{entry, mark_byte};
ghost use Rattle.tetra_bits.specs.Packed.{bytes_for, packed};
ghost use Rattle.tetra_settings.specs.Readings.{IsWellFormed, IsField};
ghost use Rattle.tetra_records.specs.Readings.{two_bytes, row_bytes, table_bytes, field_bytes, parts_bytes, reading_spelling, IsSmall, ArePartsSmall};
ghost use Rattle.tetra_records.specs.Rooms.{room_of};

use arrayvec::ArrayVec;
use std::simd::prelude::*;
use tetra_bits::{Bits, Outcome, Potentials, Table, pack};
use tetra_settings::{Field, Form, SlotReading};

/// The reading record: a letter, and for each field a mark, a metric of two bytes, the bits packed, and
/// in form `Audit` the certificate of a trellis field, a row of 16 potentials before each step and one
/// behind the last, two bytes each. The reading is well formed, and each metric and potential is at
/// most 65,535. This project's own.
pub fn reading_bytes(reading: &SlotReading, form: Form) -> ArrayVec<u8, 18743>
    requires formed { IsWellFormed reading.now }
    requires small { All IsSmall reading.now.fields.items }
    ensures { result.items ≡ reading_spelling form reading.now }
{
    let mut record = ArrayVec::new();
    add_reading(reading, form, &mut record);
    record
}

/// Puts the reading record behind what stands in `out`, which has room for the longest one: on the downlink a letter P
/// with its access field, two half slots and protected data, each with its certificate.
pub fn add_reading<const N: usize>(reading: &SlotReading, form: Form, out: &mut ArrayVec<u8, N>)
    requires formed { IsWellFormed reading.now }
    requires small { All IsSmall reading.now.fields.items }
    requires room { array_vec_len out.old + 18743 ≤ N }
    ensures { out.new.items ≡ out.old.items ++ reading_spelling form reading.now }
{
    out.push(reading.letter);
    for field in reading.fields.as_slice() {
        add_field(field, form, out);
    }
}

/// Writes what `add_reading` appends into `bytes`, from place `at` on, over what stands there, and answers where it ends.
/// There is room for the longest record.
pub fn write_reading(reading: &SlotReading, form: Form, bytes: &mut [u8], at: usize) -> usize
    requires formed { IsWellFormed reading.now }
    requires small { All IsSmall reading.now.fields.items }
    requires room { at + 18743 ≤ length bytes.old }
    ensures bytes { take result bytes.new ≡ take at bytes.old ++ reading_spelling form reading.now }
    ensures end { result ≤ at + 18743 }
    ensures size { length bytes.new ≡ length bytes.old }
{
    bytes[at] = reading.letter;
    let mut end = at + 1;
    for field in reading.fields.as_slice() {
        end = write_field(field, form, bytes, end);
    }
    end
}

/// Puts the part of a reading record that is a field's behind what stands in `out`: its mark, its metric, its bits packed,
/// and in form `Audit` its certificate. A record is its letter and then its fields, so it can be made field by field, where
/// there is no room for all of them. Metric and potentials are at most 65,535, and there is room for the field.
#[tactic(auto, unfolding(crate::specs::Readings::field_bytes))]
pub fn add_field<const N: usize>(field: &Field, form: Form, out: &mut ArrayVec<u8, N>)
    requires field { IsField field.now }
    requires small { IsSmall field.now }
    requires room { array_vec_len out.old + room_of field.now.name ≤ N }
    ensures bytes { out.new.items ≡ out.old.items ++ field_bytes form field.now }
    ensures len { array_vec_len out.new ≤ array_vec_len out.old + room_of field.now.name }
{
    let reading = &field.reading;
    out.push(reading.mark.byte());
    add_number(reading.metric, out);
    let bits = pack(&reading.bits);
    out.try_extend_from_slice(bits.as_slice()).unwrap();
    if let (Form::Audit, Some(potentials)) = (form, &reading.potentials) {
        add_table(potentials, out);
    }
}

/// Writes what `add_field` appends into `bytes`, from place `at` on, over what stands there, and answers where it ends. So a
/// record is made in place, field by field. Metric and potentials are at most 65,535, and there is room for the field.
pub fn write_field(field: &Field, form: Form, bytes: &mut [u8], at: usize) -> usize
    requires field { IsField field.now }
    requires small { IsSmall field.now }
    requires room { at + room_of field.now.name ≤ length bytes.old }
    ensures bytes { take result bytes.new ≡ take at bytes.old ++ field_bytes form field.now }
    ensures end { result ≤ at + room_of field.now.name }
    ensures size { length bytes.new ≡ length bytes.old }
{
    let reading = &field.reading;
    let outcome = Outcome {
        mark: reading.mark,
        metric: reading.metric,
    };
    match &reading.potentials {
        Some(potentials) => write_parts(outcome, &reading.bits, potentials, form, bytes, at),
        None => put_head(outcome, &reading.bits, bytes, at),
    }
}

/// Writes what `write_field` writes from a field that was read in parts, from place `at` on, and answers where it ends: its
/// outcome, its message packed, and in form `Audit` the rows of its table, two bytes for each entry. A field without a
/// certificate has a table without rows. Metric and entries are at most 65,535, and there is room for the field, its rows
/// included. This project's own.
#[tactic(auto, unfolding(crate::specs::Readings::parts_bytes))]
pub fn write_parts<T: Table>(
    outcome: Outcome,
    message: &Bits,
    table: &T,
    form: Form,
    bytes: &mut [u8],
    at: usize,
) -> usize
    requires small { ArePartsSmall outcome (T.rows_of table.now) }
    requires room { at + 3 + bytes_for (length message.now) + 32 * length (T.rows_of table.now) ≤ length bytes.old }
    ensures bytes { take result bytes.new ≡ take at bytes.old ++ parts_bytes form outcome message.now (T.rows_of table.now) }
    ensures end { result ≤ at + 3 + bytes_for (length message.now) + 32 * length (T.rows_of table.now) }
    ensures size { length bytes.new ≡ length bytes.old }
{
    let end = put_head(outcome, message, bytes, at);
    match form {
        Form::Plain => end,
        Form::Audit => put_table(table, bytes, end),
    }
}

/// Writes the mark, the metric and the bits of a field at a place, and answers where they end.
fn put_head(outcome: Outcome, message: &Bits, bytes: &mut [u8], at: usize) -> usize
    requires small { outcome.metric ≤ 65535 }
    requires room { at + 3 + bytes_for (length message.now) ≤ length bytes.old }
    ensures bytes { take result bytes.new
        ≡ take at bytes.old ++ (mark_byte outcome.mark ∷ two_bytes outcome.metric) ++ packed message.now }
    ensures end { result ≡ at + 3 + bytes_for (length message.now) }
    ensures size { length bytes.new ≡ length bytes.old }
{
    let head = [
        outcome.mark.byte(),
        (outcome.metric / 256) as u8,
        (outcome.metric % 256) as u8,
    ];
    let end = put_bytes(&head, bytes, at);
    put_bytes(pack(message).as_slice(), bytes, end)
}

/// Writes bytes at a place, and answers where they end.
fn put_bytes(piece: &[u8], bytes: &mut [u8], at: usize) -> usize
    requires { at + length piece.now ≤ length bytes.old }
    ensures bytes { take result bytes.new ≡ take at bytes.old ++ piece.now }
    ensures end { result ≡ at + length piece.now }
    ensures size { length bytes.new ≡ length bytes.old }
{
    let end = at + piece.len();
    bytes[at..end].copy_from_slice(piece);
    end
}

fn add_number<const N: usize>(number: u32, out: &mut ArrayVec<u8, N>)
    requires small { number ≤ 65535 }
    requires room { array_vec_len out.old + 2 ≤ N }
    ensures bytes { out.new.items ≡ out.old.items ++ two_bytes number }
    ensures len { array_vec_len out.new ≡ array_vec_len out.old + 2 }
{
    out.push((number / 256) as u8);
    out.push((number % 256) as u8);
}

/// The bytes of a row, two for each of its 16 entries, the higher one first.
#[inline(always)]
fn bytes_of_row(row: &[u32; 16]) -> u8x32
    requires small { (s : ℕ) → slice_index row.now s ≤ 65535 }
    ensures { result ≡ row_bytes row.now }
{
    u32x16::from_array(*row).to_le_bytes().swizzle([
        1, 0, 5, 4, 9, 8, 13, 12, 17, 16, 21, 20, 25, 24, 29, 28, 33, 32, 37, 36, 41, 40, 45, 44,
        49, 48, 53, 52, 57, 56, 61, 60,
    ])
}

/// Writes a row at a place.
#[inline(always)]
fn put_row(row: &[u32; 16], bytes: &mut [u8], at: usize)
    requires small { (s : ℕ) → slice_index row.now s ≤ 65535 }
    requires room { at + 32 ≤ length bytes.old }
    ensures bytes { take (at + 32) bytes.new ≡ take at bytes.old ++ row_bytes row.now }
    ensures size { length bytes.new ≡ length bytes.old }
{
    bytes_of_row(row).copy_to_slice(&mut bytes[at..]);
}

/// Writes a table at a place, row by row, and answers where it ends.
#[tactic(auto, unfolding(tetra_bits::specs::Readings::entry))]
fn put_table<T: Table>(table: &T, bytes: &mut [u8], at: usize) -> usize
    requires small { (t s : ℕ) → entry (T.rows_of table.now) t s ≤ 65535 }
    requires room { at + 32 * length (T.rows_of table.now) ≤ length bytes.old }
    ensures bytes { take result bytes.new ≡ take at bytes.old ++ table_bytes (T.rows_of table.now) }
    ensures end { result ≡ at + 32 * length (T.rows_of table.now) }
    ensures size { length bytes.new ≡ length bytes.old }
{
    for t in 0..table.count() {
        put_row(table.row_at(t), bytes, at + 32 * t);
    }
    at + 32 * table.count()
}

/// Makes a list longer by so many zeros, at most 1,024 at a time.
fn add_zeros<const N: usize>(more: usize, out: &mut ArrayVec<u8, N>)
    requires { array_vec_len out.old + more ≤ N }
    ensures front { take (length out.old.items) out.new.items ≡ out.old.items }
    ensures len { array_vec_len out.new ≡ array_vec_len out.old + more }
{
    for t in 0..more / 1024 {
        out.try_extend_from_slice(&[0; 1024]).unwrap();
    }
    out.try_extend_from_slice(&[0; 1024][..more % 1024])
        .unwrap();
}

/// Puts a table behind what stands in `out`, which is made long enough first.
fn add_table<const N: usize>(potentials: &Potentials, out: &mut ArrayVec<u8, N>)
    requires small { (t s : ℕ) → entry potentials.now t s ≤ 65535 }
    requires room { array_vec_len out.old + 32 * length potentials.now ≤ N }
    ensures bytes { out.new.items ≡ out.old.items ++ table_bytes potentials.now }
    ensures len { array_vec_len out.new ≡ array_vec_len out.old + 32 * length potentials.now }
{
    let at = out.len();
    add_zeros(32 * potentials.rows(), out);
    put_table(potentials, out.as_mut_slice(), at);
}
