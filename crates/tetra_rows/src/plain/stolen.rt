// Half slots that are stolen from traffic, on the uplink: EN 300 392-2 clauses 8.2, 8.3.1 and 9.4.4. Bits are numbered
// from 0, and so are the halves of a slot.
ghost use Rattle.std.specs.Prelude.{◌<◌};

use super::code::{burst as whole_burst, mother, place, type2, written};

/// The training sequence of a slot with a stolen half.
pub const TRAINING: &[u8; 22] = b"0111101001000011011110";

/// Puts a block on STCH into a half of the type-5 bits of a slot, whatever stood there.
pub fn steal(type5: &mut [bool; 432], half: usize, block: &[bool; 124], scrambling: &[bool; 464])
    requires { half < 2 }
{
    let type2 = type2(block);
    for j in 0..216usize {
        let k = (101 * (j + 1)) % 216;
        type5[216 * half + k] = mother(&type2, place(j)) != scrambling[32 + k];
    }
}

/// The slot that carries 432 type-5 bits of which a half is stolen.
pub fn burst(type5: &[bool; 432]) -> [u8; 510] {
    let mut slot = whole_burst(type5);
    for k in 0..22usize {
        slot[254 + k] = written(TRAINING[k] == b'1');
    }
    slot
}
