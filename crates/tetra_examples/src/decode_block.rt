// The trellis decoder by itself, on the punctured block of a half slot.
use tetra_bits::{Bits, Soft};
use tetra_puncture::{TwoThirds, keep};
use tetra_trellis::solve;

/// 144 steps of the mother code of rate 1/4, of which 216 bits are sent: 140 bits and four tail bits.
type HalfSlot = TwoThirds<144, 216>;

/// The metric of a received block in which every fortieth value has the wrong sign, and whether the message is the one
/// that was sent.
pub fn decode_block() -> (u32, bool) {
    let mut message = Bits::zeros(140);
    message.set(0, true);
    message.set(77, true);
    let word = keep::<HalfSlot>(&message);
    let mut soft = Soft::new();
    soft.resize(216);
    for k in 0..216usize {
        let strength = if k % 40 == 7 { -20 } else { 100 };
        soft.set(k, if word.get(k) { -strength } else { strength });
    }
    let solved = solve::<HalfSlot>(&soft);
    (solved.metric, solved.message == message)
}
