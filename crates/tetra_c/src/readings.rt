// What is read of a slot, as C has it.
ghost use Rattle.std.specs.Prelude.{◌≡◌, ◌≤◌, take, length, map, All};
ghost use Rattle.tetra_session.specs.Begun.{IsLastGood};
ghost use Rattle.tetra_session.specs.Fronts.{IsFrontField};
ghost use Rattle.tetra_session.specs.Heard.{is_good};
ghost use Rattle.tetra_session.specs.Readers.{read_field};
ghost use Rattle.tetra_c.specs.Bytes.{bytes_of};
ghost use Rattle.tetra_c.specs.Readings.{mark_number, name_number, IsPut, ArePutTo};

use tetra_bits::{Bits, Mark, Table};
use tetra_rm::AccessCode;
use tetra_session::{FrontField, is_good, read_heard};
use tetra_settings::FieldName;

/// What is read of a field: the number of its name (0 AACH, 1 BSCH, 2 a half slot, 3 SCH/HU, 4 SCH/F, 5 TCH/7.2, 6 TCH/4.8,
/// 7 TCH/2.4, 8 speech of a whole slot, 9 speech of half a slot) and of its mark (0 good, 1 bad, 2 unchecked, 3 not yet),
/// its metric, its message, a byte for each of `bits` bits, and its certificate, `rows` rows of 16 potentials. What stands
/// behind these is not looked at.
#[repr(C)]
#[derive(Drop)]
pub struct TetraField {
    pub metric: u32,
    pub name: u8,
    pub mark: u8,
    pub bits: u16,
    pub rows: u16,
    pub message: [u8; 432],
    pub potentials: [[u32; 16]; 293],
}

/// What is read of a slot: its letter as a byte of ASCII, and its fields, of which there are `count`.
#[repr(C)]
#[derive(Drop)]
pub struct TetraReading {
    pub letter: u8,
    pub count: u8,
    pub fields: [TetraField; 4],
}

/// The number of a mark.
fn mark_number(mark: Mark) -> u8
    ensures { result ≡ mark_number mark }
{
    match mark {
        Mark::Good => 0,
        Mark::Bad => 1,
        Mark::Unchecked => 2,
        Mark::NotYet => 3,
    }
}

/// The number of a field's name.
fn name_number(name: FieldName) -> u8
    ensures { result ≡ name_number name }
{
    match name {
        FieldName::Aach => 0,
        FieldName::Sync => 1,
        FieldName::Half => 2,
        FieldName::Hu => 3,
        FieldName::Full => 4,
        FieldName::D72 => 5,
        FieldName::D48 => 6,
        FieldName::D24 => 7,
        FieldName::Whole => 8,
        FieldName::Single => 9,
    }
}

/// Writes bits at the front of a list of bytes.
fn put_message(bits: &Bits, bytes: &mut [u8; 432])
    ensures { take (length bits.now) bytes.new ≡ bytes_of bits.now }
{
    for k in 0..bits.len() {
        bytes[k] = u8::from(bits.get(k));
    }
}

/// The same row, which has 16 entries.
fn whole_row(row: &[u32; 16]) -> &[u32; 16]
    ensures row { result.now ≡ row.now }
    ensures sixteen { length row.now ≡ 16 }
{
    row
}

impl Table for TetraField {
    ghost use Rattle.tetra_c.specs.Readings.{rows_of};

    ghost rows_of = { rows_of };

    fn begin(&mut self, rows: usize) {
        self.rows = rows as u16;
    }

    fn count(&self) -> usize {
        usize::from(self.rows).min(293)
    }

    fn row_at(&self, t: usize) -> &[u32; 16] {
        whole_row(&self.potentials[t])
    }

    fn put_row(&mut self, t: usize, row: [u32; 16]) {
        self.potentials[t] = row;
    }
}

/// Reads a field of a front, and writes what is read of it. Answers whether it is Good. `message` is filled on the way.
fn put_field(
    code: &AccessCode,
    heard: &FrontField,
    message: &mut Bits,
    out: &mut TetraField,
) -> bool
    requires { IsFrontField heard.now }
    ensures put { IsPut (read_field code.now.0 heard.now) out.new }
    ensures good { result ≡ is_good (read_field code.now.0 heard.now).reading.mark }
{
    let outcome = read_heard(code, heard, message, out);
    out.name = name_number(heard.name);
    out.mark = mark_number(outcome.mark);
    out.metric = outcome.metric;
    out.bits = message.len() as u16;
    out.rows = out.count() as u16;
    put_message(message, &mut out.message);
    is_good(outcome.mark)
}

/// Reads the fields of a front from place `from` on, one at a time, and writes what is read of each at its place. Answers
/// whether the last of them is Good. `message` is filled on the way.
pub fn put_fields(
    code: &AccessCode,
    fields: &[FrontField],
    from: usize,
    message: &mut Bits,
    out: &mut [TetraField; 4],
) -> bool
    requires formed { All IsFrontField fields.now }
    requires few { length fields.now ≤ 4 }
    ensures put { ArePutTo (map (read_field code.now.0) fields.now) out.old from
        → ArePutTo (map (read_field code.now.0) fields.now) out.new (length fields.now) }
    ensures last { from ≡ 0 → IsLastGood code.now.0 fields.now result }
{
    let mut good = false;
    for i in from..fields.len() {
        good = put_field(code, &fields[i], message, &mut out[i]);
    }
    good
}
