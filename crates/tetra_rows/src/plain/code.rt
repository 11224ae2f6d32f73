// SCH/F and TCH/7.2 on the uplink: EN 300 392-2 clauses 8.2, 8.3.1 and 9.4.4. The silent positions are
// this project's own.
ghost use Rattle.std.specs.Prelude.{◌<◌, ◌≤◌, ◌*◌, length};

/// The distances of the scrambling recurrence.
const DISTANCES: [usize; 14] = [1, 2, 4, 5, 7, 8, 10, 11, 12, 16, 22, 23, 26, 32];

/// The powers of D in the four generators of the mother code.
const GENERATORS: [[bool; 5]; 4] = [
    [true, true, false, false, true],
    [true, false, true, true, true],
    [true, true, true, false, true],
    [true, true, false, true, true],
];

const TAIL: &[u8; 4] = b"1100";

pub const TRAINING: &[u8; 22] = b"1101000011101001110100";

/// The country code, the network code and the colour code, 30 bits, each most significant bit first.
pub fn colour(mcc: u32, mnc: u32, cc: u32) -> [bool; 30] {
    let mut bits = [false; 30];
    for k in 0..10usize {
        bits[k] = (mcc >> (9 - k)) & 1 == 1;
    }
    for k in 0..14usize {
        bits[10 + k] = (mnc >> (13 - k)) & 1 == 1;
    }
    for k in 0..6usize {
        bits[24 + k] = (cc >> (5 - k)) & 1 == 1;
    }
    bits
}

/// The scrambling sequence from p(-31) on: key bit k, from 0, is entry k + 32. Each bit is the sum of the bits at the
/// fourteen distances before it.
pub fn scrambling(colour: &[bool; 30]) -> [bool; 464] {
    let mut p = [true; 464];
    for k in 0..30usize {
        p[31 - k] = colour[k];
    }
    for k in 32..464usize {
        let mut sum = false;
        for d in 1..33usize {
            if DISTANCES.contains(&d) {
                sum = sum != p[k - d];
            }
        }
        p[k] = sum;
    }
    p
}

/// The rest of X^n by X^16 + X^12 + X^5 + 1.
fn rest(n: usize) -> u16 {
    let mut rest = 1u16;
    for _ in 0..n {
        rest = (rest << 1) ^ if rest < 0x8000 { 0 } else { 0x1021 };
    }
    rest
}

/// The parity of K bits: the rest of X^16 M(X) + X^K L(X), to which L(X) is added, where L(X) is the sum of the powers
/// below 16.
pub fn parity(block: &[bool]) -> u16
    requires { length block.now ≤ 268 }
{
    let count = block.len();
    let mut sum = 0xFFFF;
    for k in 0..count {
        if block[k] {
            sum ^= rest(count + 15 - k);
        }
    }
    for power in count..count + 16 {
        sum ^= rest(power);
    }
    sum
}

/// The type-2 bits: the block, its parity and four tail bits 0. Behind those of a block of fewer than 268 bits stand zeros.
pub fn type2(block: &[bool]) -> [bool; 288]
    requires { length block.now ≤ 268 }
{
    let count = block.len();
    let mut bits = [false; 288];
    for k in 0..count {
        bits[k] = block[k];
    }
    let parity = parity(block);
    for k in 0..16usize {
        bits[count + k] = (parity >> (15 - k)) & 1 == 1;
    }
    bits
}

/// Whether generator i has the power j of D.
pub fn has_power(i: usize, j: usize) -> bool
    requires output { i < 4 }
    requires power { j < 5 }
{
    GENERATORS[i][j]
}

/// A bit of the mother code's word: the sum of the bits at the powers of its generator, where the bits before the first
/// are 0.
pub fn mother(type2: &[bool], place: usize) -> bool
    requires { place < 4 * length type2.now }
{
    let mut sum = false;
    for j in 0..5usize {
        if j <= place / 4 && has_power(place % 4, j) {
            sum = sum != type2[place / 4 - j];
        }
    }
    sum
}

/// The place of type-3 bit j in the mother code's word: three of eight are sent.
pub fn place(j: usize) -> usize
    requires { j < 432 }
    ensures { result < 1152 }
{
    8 * (j / 3)
        + match j % 3 {
            0 => 0,
            1 => 1,
            _ => 4,
        }
}

/// The place of type-3 bit j among the type-4 bits.
pub fn interleaved(j: usize) -> usize
    requires { j < 432 }
    ensures { result < 432 }
{
    (103 * (j + 1)) % 432
}

/// The position of type-5 bit k in the slot.
pub fn position(k: usize) -> usize
    requires { k < 432 }
    ensures { result < 510 }
{
    if k < 216 { 38 + k } else { 60 + k }
}

/// The byte of a sent bit.
pub fn written(bit: bool) -> u8 {
    if bit { 0x81 } else { 0x7F }
}

/// The slot that carries 432 type-5 bits.
pub fn burst(type5: &[bool; 432]) -> [u8; 510] {
    let mut slot = [0; 510];
    for k in 0..4usize {
        slot[34 + k] = written(TAIL[k] == b'1');
        slot[492 + k] = written(TAIL[k] == b'1');
    }
    for k in 0..22usize {
        slot[254 + k] = written(TRAINING[k] == b'1');
    }
    for k in 0..432usize {
        slot[position(k)] = written(type5[k]);
    }
    slot
}

/// The type-5 bits of a block on SCH/F.
pub fn signalling(block: &[bool; 268], scrambling: &[bool; 464]) -> [bool; 432] {
    let type2 = type2(block);
    let mut type5 = [false; 432];
    for j in 0..432usize {
        let k = interleaved(j);
        type5[k] = mother(&type2, place(j)) != scrambling[32 + k];
    }
    type5
}

/// The type-5 bits of a block on TCH/7.2.
pub fn traffic(block: &[bool; 432], scrambling: &[bool; 464]) -> [bool; 432] {
    let mut type5 = [false; 432];
    for k in 0..432usize {
        type5[k] = block[k] != scrambling[32 + k];
    }
    type5
}
