// The key by a register.
ghost use Rattle.std.specs.Prelude.{◌≡◌, ℕ, ◌<◌, ◌≤◌, ◌^◌, ◌+◌, ◌/◌, ◌%◌, Bool, List, [], length, slice_index, slice_index_or};
ghost use Rattle.tetra_bits.specs.Digits.{digits};
ghost use Rattle.tetra_scramble.specs.Colour.{IsColour, colour_bits};
ghost use Rattle.tetra_scramble.specs.Key.{IsKey, key_from, key_of, zero_key_bits, no_colour};
ghost use Rattle.tetra_scramble.specs.Register.{HoldsLast, IsWritten, AreNext};

use crate::colour::Colour;
use crate::keys::Key;
use std::simd::prelude::*;

/// The key of a colour in range.
pub fn key(colour: &Colour) -> Key
    requires { IsColour colour.now }
    ensures value { result ≡ key_of colour.now }
    ensures sums { IsKey (colour_bits colour.now) result }
{
    key_of_number(u32::from(colour.mcc) << 20 | u32::from(colour.mnc) << 6 | u32::from(colour.cc))
}

/// The key of BSCH, for which all bits of the colour are 0.
pub fn zero_key() -> Key
    ensures value { result ≡ zero_key_bits }
    ensures sums { IsKey no_colour result }
{
    key_of_number(0)
}

/// What each four bits of the register add to the 32 bits that come next. The register holds the last bit of the key at its
/// top and the 31 before it below. Row 0 is of its top four bits, row 7 of its lowest: entry `v` of a row has a one at bit
/// `j`, counted from 0, where the key bit `j + 1` places on has an odd number of the ones of these four bits, `v`, in its
/// sum. A bit further on than the next is taken back to the 32 that are there by the sums of those between.
static NEXT: [[u32; 16]; 8] = [
    [
        0x00000000, 0x87B9B455, 0x0F7368AA, 0x88CADCFF, 0xD663CBFF, 0x51DA7FAA, 0xD910A355,
        0x5EA91700, 0x64428D55, 0xE3FB3900, 0x6B31E5FF, 0xEC8851AA, 0xB22146AA, 0x3598F2FF,
        0xBD522E00, 0x3AEB9A55,
    ],
    [
        0x00000000, 0xA9A1E4EF, 0x9BC6D375, 0x3267379A, 0x378DA6EA, 0x9E2C4205, 0xAC4B759F,
        0x05EA9170, 0xA79E577F, 0x0E3FB390, 0x3C58840A, 0x95F960E5, 0x9013F195, 0x39B2157A,
        0x0BD522E0, 0xA274C60F,
    ],
    [
        0x00000000, 0x9071841B, 0xE866129D, 0x78179686, 0x18493F91, 0x8838BB8A, 0xF02F2D0C,
        0x605EA917, 0x30927F22, 0xA0E3FB39, 0xD8F46DBF, 0x4885E9A4, 0x28DB40B3, 0xB8AAC4A8,
        0xC0BD522E, 0x50CCD635,
    ],
    [
        0x00000000, 0xA58F49EB, 0x4B1E93D6, 0xEE91DA3D, 0x963D27AC, 0x33B26E47, 0xDD23B47A,
        0x78ACFD91, 0x2C7A4F58, 0x89F506B3, 0x6764DC8E, 0xC2EB9565, 0xBA4768F4, 0x1FC8211F,
        0xF159FB22, 0x54D6B2C9,
    ],
    [
        0x00000000, 0x16D0A534, 0x2DA14A68, 0x3B71EF5C, 0x5B4294D0, 0x4D9231E4, 0x76E3DEB8,
        0x60337B8C, 0xB68529A0, 0xA0558C94, 0x9B2463C8, 0x8DF4C6FC, 0xEDC7BD70, 0xFB171844,
        0xC066F718, 0xD6B6522C,
    ],
    [
        0x00000000, 0xA70EC1AC, 0x869899F3, 0x2196585F, 0xC5B4294D, 0x62BAE8E1, 0x432CB0BE,
        0xE4227112, 0x8B68529A, 0x2C669336, 0x0DF0CB69, 0xAAFE0AC5, 0x4EDC7BD7, 0xE9D2BA7B,
        0xC844E224, 0x6F4A2388,
    ],
    [
        0x00000000, 0x8851AAB0, 0x10A35560, 0x98F2FFD0, 0xE9C3B06B, 0x61921ADB, 0xF960E50B,
        0x71314FBB, 0xD38760D6, 0x5BD6CA66, 0xC32435B6, 0x4B759F06, 0x3A44D0BD, 0xB2157A0D,
        0x2AE785DD, 0xA2B62F6D,
    ],
    [
        0x00000000, 0xC8851AAB, 0x910A3556, 0x598F2FFD, 0x22146AAC, 0xEA917007, 0xB31E5FFA,
        0x7B9B4551, 0x4428D558, 0x8CADCFF3, 0xD522E00E, 0x1DA7FAA5, 0x663CBFF4, 0xAEB9A55F,
        0xF7368AA2, 0x3FB39009,
    ],
];

/// The key of the 30 bits of a number, by a register of the last 32 bits, which begins with these 30 and two ones.
fn key_of_number(number: u32) -> Key
    requires { number < 2 ^ 30 }
    ensures { result ≡ key_from (digits 30 number) }
{
    let mut register = number * 4 + 3;
    let mut bits = [false; 432];
    for chunk in 0..13usize {
        register = next_32(register);
        write_16(&mut bits, 32 * chunk, register);
        write_16(&mut bits, 32 * chunk + 16, register >> 16);
    }
    write_16(&mut bits, 416, next_32(register));
    Key::of_bits(bits)
}

/// The register 32 bits on: all its bits are new.
fn next_32(register: u32) -> u32
    ensures { (e : List Bool) (n : ℕ) → HoldsLast e n register → HoldsLast e (n + 32) result }
{
    added_by(0, register >> 28)
        ^ added_by(1, register >> 24)
        ^ added_by(2, register >> 20)
        ^ added_by(3, register >> 16)
        ^ added_by(4, register >> 12)
        ^ added_by(5, register >> 8)
        ^ added_by(6, register >> 4)
        ^ added_by(7, register)
}

/// What the lowest four bits of `digits` add where they are those of this row.
fn added_by(row: usize, digits: u32) -> u32
    requires { row < 8 }
    ensures { result ≡ slice_index (slice_index_or NEXT row []) (digits % 16) }
{
    NEXT[row][(digits % 16) as usize]
}

/// The powers of two that bring the lowest sixteen bits of a number, the lowest first, to the top of sixteen bits.
const UP: [u16; 16] = [
    32768, 16384, 8192, 4096, 2048, 1024, 512, 256, 128, 64, 32, 16, 8, 4, 2, 1,
];

/// The lowest sixteen bits of a number, the lowest first, side by side.
fn lowest_16(number: u32) -> [u16; 16]
    ensures { (j : ℕ) → j < 16 → slice_index result j ≡ number / 2 ^ j % 2 }
{
    let same = u16x16::splat((number % 65_536) as u16);
    ((same * u16x16::from_array(UP)) >> 15).to_array()
}

/// Writes the lowest sixteen bits of `next`, the lowest first, behind the first `from` bits of a key.
fn write_16(bits: &mut [bool; 432], from: usize, next: u32)
    requires room { from + 16 ≤ 432 }
    ensures key { (e : List Bool) → IsWritten e from bits.old → AreNext e from next → IsWritten e (from + 16) bits.new }
    ensures size { length bits.new ≡ 432 }
{
    let lowest = lowest_16(next);
    for j in 0..16usize {
        bits[from + j] = lowest[j] == 1;
    }
}
