// The blocks of a slot as C has them.
ghost use Rattle.std.specs.Prelude.{◌≡◌, ◌≤◌, ◌<◌, IsTrue, IfOk, length, take, slice_index};
ghost use Rattle.std.specs.Result.{result_err};
ghost use Rattle.tetra_settings.specs.Blocks.{Fits};
ghost use Rattle.tetra_settings.specs.Validity.{IsValid};
ghost use Rattle.tetra_c.specs.Bytes.{is_one};
ghost use Rattle.tetra_c.specs.Blocks.{AreShort, are_short, field, are_read, fields_fault, has_lengths, has_access, may_carry, misfit, access_of, blocks_under, blocks_of};

use crate::bytes::{are_bits, bits_of, is_bit};
use crate::fault::Fault;
use tetra_bits::Bits;
use tetra_settings::{
    Body, Dir, Letter, Settings, SlotBlocks, allows, field_bits, mode_at, slot_use,
};

/// The blocks of a slot: its letter as a byte of ASCII (F, H, S, T, P, Q, C), and its fields in the order of a block
/// record, one byte a bit.
#[repr(C)]
#[derive(Clone, Copy)]
pub struct TetraBlocks {
    pub letter: u8,
    /// The message of the access field, below 16,384, on the downlink; 0 on the uplink.
    pub aach: u16,
    /// Whether the first subslot is sent, 0 or 1. Letter C alone has subslots.
    pub sends_first: u8,
    /// Whether the second subslot is sent, 0 or 1.
    pub sends_second: u8,
    /// How many bits each field has; 0 where there is no field.
    pub bits: [u16; 3],
    /// The bits of each field, at the front, each 0 or 1.
    pub fields: [[u8; 432]; 3],
}

/// Whether no field is longer than 432 bits.
fn are_short(blocks: &TetraBlocks) -> bool
    ensures value { result ≡ are_short blocks.now }
    ensures short { IsTrue result → AreShort blocks.now }
{
    blocks.bits[0] <= 432 && blocks.bits[1] <= 432 && blocks.bits[2] <= 432
}

/// The bytes of a field of so many bits.
fn front(field: &[u8; 432], bits: u16) -> &[u8]
    requires { bits ≤ 432 }
    ensures bytes { result.now ≡ take bits field.now }
    ensures size { length result.now ≡ bits }
{
    &field[..usize::from(bits)]
}

/// Whether each byte that stands for a bit is 0 or 1.
fn are_read(blocks: &TetraBlocks) -> bool
    requires { AreShort blocks.now }
    ensures { result ≡ are_read blocks.now }
{
    is_bit(blocks.sends_first)
        && is_bit(blocks.sends_second)
        && are_bits(front(&blocks.fields[0], blocks.bits[0]))
        && are_bits(front(&blocks.fields[1], blocks.bits[1]))
        && are_bits(front(&blocks.fields[2], blocks.bits[2]))
}

/// Finds fields that are too long, and bytes that are no bits.
pub fn check_fields(blocks: &TetraBlocks) -> Result<(), Fault>
    ensures fault { result_err result ≡ fields_fault blocks.now }
    ensures short { IfOk result (λ _. AreShort blocks.now) }
{
    if !are_short(blocks) {
        return Err(Fault::Length);
    }
    if !are_read(blocks) {
        return Err(Fault::Bit);
    }
    Ok(())
}

/// Whether the subslots are sent.
fn sent(blocks: &TetraBlocks) -> (bool, bool)
    ensures first { result.0 ≡ is_one blocks.now.sends_first }
    ensures second { result.1 ≡ is_one blocks.now.sends_second }
{
    (blocks.sends_first == 1, blocks.sends_second == 1)
}

/// Whether the fields have these lengths.
fn has_lengths(blocks: &TetraBlocks, lengths: &[usize; 3]) -> bool
    ensures { result ≡ has_lengths blocks.now lengths.now }
{
    usize::from(blocks.bits[0]) == lengths[0]
        && usize::from(blocks.bits[1]) == lengths[1]
        && usize::from(blocks.bits[2]) == lengths[2]
}

/// Whether the direction has the access message.
fn has_access(dir: Dir, message: u16) -> bool
    ensures { result ≡ has_access dir message }
{
    match dir {
        Dir::Dl => message < 16_384,
        Dir::Ul => message == 0,
    }
}

/// Whether slot `turn` may carry the blocks under this letter.
fn may_carry(settings: &Settings, turn: u32, blocks: &TetraBlocks, letter: Letter) -> bool
    requires { IsValid settings.now }
    ensures { result ≡ may_carry settings.now turn blocks.now letter }
{
    allows(settings.dir, slot_use(settings, turn), letter)
        && has_lengths(
            blocks,
            &field_bits(letter, mode_at(settings, turn), sent(blocks)),
        )
        && has_access(settings.dir, blocks.aach)
}

/// The bits of field `k`, counted from 0.
fn field(blocks: &TetraBlocks, k: usize) -> Bits
    requires short { AreShort blocks.now }
    requires field { k < 3 }
    ensures bits { result ≡ field blocks.now k }
    ensures size { length result ≡ slice_index blocks.now.bits k }
{
    bits_of(front(&blocks.fields[k], blocks.bits[k]))
}

/// The access message, where the direction has one.
fn access(dir: Dir, message: u16) -> Option<u16>
    ensures { result ≡ access_of dir message }
{
    match dir {
        Dir::Dl => Some(message),
        Dir::Ul => None,
    }
}

/// The blocks under their letter, which the slot may carry.
fn blocks_under(settings: &Settings, turn: u32, blocks: &TetraBlocks, letter: Letter) -> SlotBlocks
    requires valid { IsValid settings.now }
    requires short { AreShort blocks.now }
    requires fits { IsTrue (may_carry settings.now turn blocks.now letter) }
    ensures value { result ≡ blocks_under settings.now.dir blocks.now letter }
    ensures fits { Fits settings.now turn result }
{
    SlotBlocks {
        aach: access(settings.dir, blocks.aach),
        body: Body::from_fields(
            letter,
            sent(blocks),
            field(blocks, 0),
            field(blocks, 1),
            field(blocks, 2),
        ),
    }
}

/// The blocks, where slot `turn` may carry them.
pub fn fitting_blocks(
    settings: &Settings,
    turn: u32,
    blocks: &TetraBlocks,
) -> Result<SlotBlocks, Fault>
    requires valid { IsValid settings.now }
    requires short { AreShort blocks.now }
    ensures fault { result_err result ≡ misfit settings.now turn blocks.now }
    ensures value { IfOk result (λ found. found ≡ blocks_of settings.now.dir blocks.now) }
    ensures fits { IfOk result (Fits settings.now turn) }
{
    match Letter::from_byte(blocks.letter) {
        Some(letter) if may_carry(settings, turn, blocks, letter) => {
            Ok(blocks_under(settings, turn, blocks, letter))
        }
        _ => Err(Fault::Misfit),
    }
}
