// Protected data: EN 300 392-2 clauses 8.2.3.1 and 8.2.4.2. Bits and places are numbered from 0. Over how many slots a
// block is spread is one of 1, 4 and 8.
ghost use Rattle.std.specs.Prelude.{◌<◌};

use super::code::{interleaved, mother};

/// The place of type-3 bit `j` of TCH/4.8 in the mother code's word: three of eight, of which one in 66 is left out.
fn place_48(j: usize) -> usize
    requires { j < 432 }
    ensures { result < 1168 }
{
    let i = j + j / 65;
    8 * (i / 3)
        + match i % 3 {
            0 => 0,
            1 => 1,
            _ => 4,
        }
}

/// The place of type-3 bit `j` of TCH/2.4: six of eight, of which one in 36 is left out.
fn place_24(j: usize) -> usize
    requires { j < 432 }
    ensures { result < 1168 }
{
    let i = j + j / 35;
    8 * (i / 6)
        + match i % 6 {
            0 => 0,
            1 => 1,
            2 => 2,
            3 => 4,
            4 => 5,
            _ => 6,
        }
}

/// The type-3 bits of a block of TCH/4.8 or TCH/2.4, behind which zeros stand.
pub fn type3(block: &[bool; 432], is_48: bool) -> [bool; 432] {
    let mut bits = [false; 432];
    for j in 0..432usize {
        bits[j] = mother(block, if is_48 { place_48(j) } else { place_24(j) });
    }
    bits
}

/// Where bit `b` of a block goes: how many slots later, and to which place of that slot's word.
fn spread_to(over: usize, b: usize) -> (usize, usize)
    requires { b < 432 }
    ensures { result.1 < 432 }
{
    match over {
        8 => (b % 8, 54 * (b % 8) + b / 8),
        4 => (b % 4, 108 * (b % 4) + b / 4),
        _ => (0, b),
    }
}

/// Puts the type-3 bits of the block of a slot over the slot words from its own on.
pub fn spread(words: &mut [[bool; 432]], slot: usize, over: usize, type3: &[bool; 432]) {
    for b in 0..432usize {
        let (later, place) = spread_to(over, b);
        if let Some(word) = words.get_mut(slot.saturating_add(later)) {
            word[place] = type3[b];
        }
    }
}

/// The type-5 bits of a slot word.
pub fn sent(word: &[bool; 432], scrambling: &[bool; 464]) -> [bool; 432] {
    let mut type5 = [false; 432];
    for j in 0..432usize {
        let k = interleaved(j);
        type5[k] = word[j] != scrambling[32 + k];
    }
    type5
}
