// Frames to type-4 bits.
ghost use Rattle.std.specs.Prelude.{◌≡◌, length};
ghost use Rattle.tetra_speech.specs.Words.{whole_message, whole_type4, half_message, half_type4};

use crate::frames::{alternated, half_sorted, joined, part, whole_sorted};
use crate::sorting::class_two;
use tetra_bits::Bits;
use tetra_interleave::Matrix;
use tetra_parity::{add4, add8};
use tetra_puncture::{SpeechHalf, SpeechWhole, keep};

/// The 432 type-4 bits of two frames of 137 bits in a whole slot: 102 uncoded bits and 330 coded ones, through a matrix
/// of 24 rows and 18 columns. This project's own.
pub fn encode_whole(a: &Bits, b: &Bits) -> Bits
    requires a { length a.now ≡ 137 }
    requires b { length b.now ≡ 137 }
    ensures bits { result ≡ whole_type4 a.now b.now }
    ensures size { length result ≡ 432 }
{
    let sorted = whole_sorted(&whole_message(a, b));
    let sent = keep::<SpeechWhole>(&part(&sorted, 102, 180));
    Matrix::<24, 18>::bits_out(&joined(&part(&sorted, 0, 102), &sent))
}

/// The 216 type-4 bits of a frame of 137 bits in half a slot: 51 uncoded bits and 165 coded ones, through a matrix of 24
/// rows and 9 columns. This project's own.
pub fn encode_half(frame: &Bits) -> Bits
    requires { length frame.now ≡ 137 }
    ensures bits { result ≡ half_type4 frame.now }
    ensures size { length result ≡ 216 }
{
    let sorted = half_sorted(&half_message(frame));
    let sent = keep::<SpeechHalf>(&part(&sorted, 51, 90));
    Matrix::<24, 9>::bits_out(&joined(&part(&sorted, 0, 51), &sent))
}

/// Frames A and B and the 8 parity bits of their class 2: 282 bits.
fn whole_message(a: &Bits, b: &Bits) -> Bits
    requires a { length a.now ≡ 137 }
    requires b { length b.now ≡ 137 }
    ensures bits { result ≡ whole_message a.now b.now }
    ensures size { length result ≡ 282 }
{
    let protected = add8(&alternated(&class_two(a), &class_two(b)));
    joined(&joined(a, b), &part(&protected, 60, 8))
}

/// A frame and the 4 parity bits of its class 2: 141 bits.
fn half_message(frame: &Bits) -> Bits
    requires { length frame.now ≡ 137 }
    ensures bits { result ≡ half_message frame.now }
    ensures size { length result ≡ 141 }
{
    joined(frame, &part(&add4(&class_two(frame)), 30, 4))
}
