// Values of single steps that were worked out by hand: rows of the trellis, and one turn of the walk over the messages of
// the access code.
use std::process::Abort;
use tetra_bits::{Soft, Wide};
use tetra_mother::Quarter;
use tetra_puncture::{Labels, TwoThirds};
use tetra_rm::walk::turned;
use tetra_rm::{decode, own_rows};
use tetra_trellis::lanes::lane_row;

/// The values of 80 steps, zeros but for the first of the last four.
fn values(rt: &impl Abort, value: i16) -> Wide {
    let mut wide = Wide::new();
    for k in 0..320usize {
        let one = if k == 316 { value } else { 0 };
        assert!(rt; wide.len() < 320 && -127 <= one && one <= 127);
        wide.push(one);
    }
    wide
}

/// The row before the last step of 80, which takes bit 0 alone, over this value of the first of its four places and zeros
/// of the others.
fn row_before_last(rt: &impl Abort, value: i16, after: &[u32; 16]) -> [u32; 16] {
    let wide = values(rt, value);
    assert!(rt; wide.len() == 320);
    for s in 0..16usize {
        assert!(rt; after[s] <= 1 << 31);
    }
    lane_row::<TwoThirds<80, 120>, false>(&wide, &Labels::of::<Quarter>(), 79, after).row
}

#[test]
fn rows_before_the_last_step(rt: HostRuntime) {
    let mut states = [0; 16];
    let mut halves = [0; 16];
    for s in 0..16usize {
        states[s] = s as u32;
        halves[s] = s as u32 / 2;
    }
    assert!(rt; row_before_last(&rt, 0, &states) == halves);
    let mut ones = [0; 16];
    for (s, bit) in b"0101010110101010".iter().enumerate() {
        assert!(rt; s < 16);
        ones[s] = if *bit == b'1' { 127 } else { 0 };
    }
    assert!(rt; row_before_last(&rt, 127, &[0; 16]) == ones);
}

/// The 16 bits of the access word of message 1 behind its message bits.
const LAST_ROW: u16 = 0x1F5F;

#[test]
fn one_turn_of_the_walk(rt: HostRuntime) {
    let mut soft = Soft::new();
    for k in 0..30u32 {
        assert!(rt; soft.len() < 30);
        let is_one = k == 13 || (k > 13 && LAST_ROW >> (29 - k) & 1 == 1);
        soft.push(if is_one { -127 } else { 127 });
    }
    assert!(rt; soft.len() == 30);
    let read = decode(&own_rows(), &soft);
    assert!(rt; read.message == 1 && read.metric == 0);
    let metric = turned(&own_rows(), &soft, read.message, read.metric, 14);
    assert_eq!(rt; metric, 1_524);
}
