// The bytes behind a letter, read as blocks.
ghost use Rattle.std.specs.Prelude.{◌≡◌, ◌≢◌, ◌⊎◌, ◌<◌, ◌≤◌, ◌↔◌, ◌+◌, ◌++◌, ◌∷◌, [], List, ℕ, Bool, length, take, drop, slice_index, IfOk, IsErr, MatchResult, All};
ghost use Rattle.tetra_bits.specs.Packed.{packed, bytes_for};
ghost use Rattle.tetra_settings.specs.declared.blocks.SlotBlocks.{SlotBlocks};
ghost use Rattle.tetra_settings.specs.Blocks.{Lengths, FitsAccess, field_bits};
ghost use Rattle.tetra_records.specs.Spelling.{access_spelling, behind_letter, fields_spelling};
ghost use Rattle.tetra_records.specs.Layouts.{access_bytes, mask_bytes, head_bytes, first_sent, second_sent, bits_in, mask_in, fields_bytes, record_bytes, IsOf, AccessHasPad, MaskHasPad, IsSent, FieldsHavePad, RecordHasPad};

use tetra_bits::{BadPad, Bits, unpack};
use tetra_settings::{Body, Dir, Letter, Mode, SlotBlocks, field_bits};

/// What is known of a record before the bytes behind its letter are read.
#[derive(Clone, Copy, Debug, PartialEq, Eq)]
pub struct Layout {
    pub dir: Dir,
    pub letter: Letter,
    pub mode: Mode,
}

/// The bytes of the AACH.
pub fn access_len(dir: Dir) -> usize
    ensures { result ≡ access_bytes dir }
{
    match dir {
        Dir::Dl => 2,
        Dir::Ul => 0,
    }
}

/// The bytes in front of the fields: of the AACH and of the mask.
pub fn head_len(layout: Layout) -> usize
    ensures { result ≡ head_bytes layout }
{
    access_len(layout.dir) + if layout.letter == Letter::C { 1 } else { 0 }
}

/// Which subslots a mask sends.
pub fn sent_by(letter: Letter, mask: u8) -> (bool, bool)
    ensures first { result.0 ≡ first_sent letter mask }
    ensures second { result.1 ≡ second_sent letter mask }
{
    if letter == Letter::C {
        (mask / 128 % 2 == 1, mask / 64 % 2 == 1)
    } else {
        (false, false)
    }
}

/// The bytes of fields with so many bits.
pub fn fields_len(bits: &[usize; 3]) -> usize
    requires { All (λ n. n ≤ 432) bits.now }
    ensures { result ≡ fields_bytes bits.now }
{
    let [a, b, c] = *bits;
    (a + 7) / 8 + (b + 7) / 8 + (c + 7) / 8
}

/// The AACH, where there is one.
fn read_access(dir: Dir, head: &[u8]) -> Result<Option<u16>, BadPad>
    requires { access_bytes dir ≤ length head.now }
    ensures access { IfOk result (λ access. FitsAccess dir access
        × (access_spelling access ≡ take (access_bytes dir) head.now)) }
    ensures pad { MatchResult result (λ _. AccessHasPad dir head.now → ⊥) (λ _. AccessHasPad dir head.now) }
{
    match dir {
        Dir::Ul => Ok(None),
        Dir::Dl if head[1] % 4 != 0 => Err(BadPad),
        Dir::Dl => Ok(Some(u16::from(head[0]) * 64 + u16::from(head[1]) / 4)),
    }
}

/// The mask, where the letter has one.
fn mask_of(layout: Layout, head: &[u8]) -> u8
    requires { head_bytes layout ≤ length head.now }
    ensures { result ≡ mask_in layout head.now }
{
    if layout.letter == Letter::C {
        head[access_len(layout.dir)]
    } else {
        0
    }
}

/// Which subslots are sent.
fn read_mask(letter: Letter, mask: u8) -> Result<(bool, bool), BadPad>
    ensures sent { IfOk result (λ sent. IsSent letter mask sent.0 sent.1) }
    ensures pad { MatchResult result (λ _. MaskHasPad letter mask → ⊥) (λ _. MaskHasPad letter mask) }
{
    if letter == Letter::C && mask % 64 != 0 {
        return Err(BadPad);
    }
    Ok(sent_by(letter, mask))
}

/// The three fields of a record; those that are not there are empty.
#[derive(Drop)]
pub struct Fields {
    pub a: Bits,
    pub b: Bits,
    pub c: Bits,
}

/// Three fields of `a`, `b` and `c` bits, each packed.
fn read_fields(bytes: &[u8], a: usize, b: usize, c: usize) -> Result<Fields, BadPad>
    requires few { (a ≤ 432) × (b ≤ 432) × (c ≤ 432) }
    requires size { length bytes.now ≡ fields_bytes (a ∷ b ∷ c ∷ []) }
    ensures fields { IfOk result (λ f. Lengths (f.a ∷ f.b ∷ f.c ∷ []) (a ∷ b ∷ c ∷ [])
        × (fields_spelling (f.a ∷ f.b ∷ f.c ∷ []) ≡ bytes.now)) }
    ensures pad { MatchResult result
        (λ _. FieldsHavePad (a ∷ b ∷ c ∷ []) bytes.now → ⊥)
        (λ _. FieldsHavePad (a ∷ b ∷ c ∷ []) bytes.now) }
{
    let (first, rest) = bytes.split_at((a + 7) / 8);
    let (second, third) = rest.split_at((b + 7) / 8);
    let Ok(a) = unpack(first, a) else {
        return Err(BadPad);
    };
    let Ok(b) = unpack(second, b) else {
        return Err(BadPad);
    };
    let Ok(c) = unpack(third, c) else {
        return Err(BadPad);
    };
    Ok(Fields { a, b, c })
}

/// The blocks of the bytes behind a letter, of which there are as many as the record has. `BadPad` exactly where a pad
/// bit is 1.
pub fn parse(layout: Layout, bytes: &[u8]) -> Result<SlotBlocks, BadPad>
    requires head { head_bytes layout ≤ length bytes.now }
    requires size { length (drop (head_bytes layout) bytes.now) ≡ fields_bytes (bits_in layout bytes.now) }
    ensures made { IfOk result (λ blocks. IsOf layout blocks × (behind_letter blocks ≡ bytes.now)) }
    ensures pad { MatchResult result (λ _. RecordHasPad layout bytes.now → ⊥) (λ _. RecordHasPad layout bytes.now) }
{
    let Ok(access) = read_access(layout.dir, bytes) else {
        return Err(BadPad);
    };
    let Ok(sent) = read_mask(layout.letter, mask_of(layout, bytes)) else {
        return Err(BadPad);
    };
    let [a, b, c] = field_bits(layout.letter, layout.mode, sent);
    let Ok(fields) = read_fields(&bytes[head_len(layout)..], a, b, c) else {
        return Err(BadPad);
    };
    Ok(SlotBlocks {
        aach: access,
        body: Body::from_fields(layout.letter, sent, fields.a, fields.b, fields.c),
    })
}
