// Blocks as bytes.
ghost use Rattle.std.specs.Prelude.{◌≡◌, ◌≤◌, ◌+◌, ◌++◌, ◌<◌, [], length, IfSome};
ghost use Rattle.std.specs.Option.{option_map_or};
ghost use Rattle.arrayvec.specs.ArrayVec.{array_vec_len};
ghost use Rattle.tetra_bits.specs.Packed.{packed, bytes_for};
ghost use Rattle.tetra_settings.specs.Blocks.{AreWellFormed};
ghost use Rattle.tetra_records.specs.Spelling.{access_spelling, mask_spelling, spelling};

use arrayvec::ArrayVec;
use tetra_bits::{Bits, pack};
use tetra_settings::{Body, SlotBlocks};

/// Appends the AACH, where there is one.
fn append_access(out: &mut ArrayVec<u8, 89>, access: Option<u16>)
    requires room { array_vec_len out.old ≤ 87 }
    requires small { IfSome access (λ message. message < 16384) }
    ensures { out.new.items ≡ out.old.items ++ access_spelling access }
{
    if let Some(message) = access {
        out.push((message / 64) as u8);
        out.push((message % 64 * 4) as u8);
    }
}

/// Appends the mask, where the body has subslots.
fn append_mask(out: &mut ArrayVec<u8, 89>, body: &Body)
    requires { array_vec_len out.old ≤ 88 }
    ensures { out.new.items ≡ out.old.items ++ mask_spelling body.now }
{
    if let Body::Control { first, second } = body {
        out.push(u8::from(first.is_some()) * 128 + u8::from(second.is_some()) * 64);
    }
}

/// Appends a field, packed, where there is one.
#[tactic(auto, using(crate::proofs::Fields::packed_length, crate::proofs::Fields::packed_none))]
fn append_field(out: &mut ArrayVec<u8, 89>, field: Option<&Bits>)
    requires { array_vec_len out.old + bytes_for (length (option_map_or (λ bits. bits.now) field [])) ≤ 89 }
    ensures { out.new.items ≡ out.old.items ++ packed (option_map_or (λ bits. bits.now) field.entry []) }
{
    if let Some(bits) = field {
        out.try_extend_from_slice(pack(bits).as_slice()).unwrap();
    }
}

/// The record of well formed blocks. This project's own.
pub fn block_bytes(blocks: &SlotBlocks) -> ArrayVec<u8, 89>
    requires { AreWellFormed blocks.now }
    ensures { result.items ≡ spelling blocks.now }
{
    let mut out = ArrayVec::new();
    out.push(blocks.body.letter().byte());
    append_access(&mut out, blocks.aach);
    append_mask(&mut out, &blocks.body);
    let [a, b, c] = blocks.body.fields();
    append_field(&mut out, a);
    append_field(&mut out, b);
    append_field(&mut out, c);
    out
}
