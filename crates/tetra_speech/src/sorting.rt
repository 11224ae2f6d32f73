// Frames to classes and back.
ghost use Rattle.std.specs.Prelude.{◌≡◌, ◌≤◌, ◌<◌, ◌+◌, ◌++◌, length, All};
ghost use Rattle.tetra_bits.specs.Order.{bit_at};
ghost use Rattle.tetra_speech.specs.Classes.{class_2, class_place, bits_at, classes_of, frame_of};
ghost use Rattle.tetra_speech.specs.Laws.{AreClasses};

use crate::tables::{CLASS_0, CLASS_1, CLASS_2, Classes};
use tetra_bits::Bits;

/// The classes of a frame of 137 bits.
pub fn classes(frame: &Bits) -> Classes
    requires { length frame.now ≡ 137 }
    ensures classes { result ≡ classes_of frame.now }
    ensures sizes { AreClasses result }
{
    Classes {
        zero: bits_at(&CLASS_0, frame),
        one: bits_at(&CLASS_1, frame),
        two: bits_at(&CLASS_2, frame),
    }
}

/// The bits of class 2 of a frame of 137 bits.
pub(crate) fn class_two(frame: &Bits) -> Bits
    requires { length frame.now ≡ 137 }
    ensures bits { result ≡ bits_at class_2 frame.now }
    ensures size { length result ≡ 30 }
{
    bits_at(&CLASS_2, frame)
}

/// The frame of 137 bits that has these classes, of 51, 56 and 30 bits.
pub fn unclasses(c: &Classes) -> Bits
    requires { AreClasses c.now }
    ensures frame { result ≡ frame_of c.now }
    ensures size { length result ≡ 137 }
{
    let mut frame = Bits::zeros(137);
    for i in 0..137usize {
        frame.set(class_place(i) - 1, class_bit(c, i));
    }
    frame
}

/// The bits of a frame at places that are numbered from 1.
pub(crate) fn bits_at(places: &[usize], frame: &Bits) -> Bits
    requires size { length frame.now ≡ 137 }
    requires few { length places.now ≤ 56 }
    requires within { All (λ place. (1 ≤ place) × (place ≤ 137)) places.now }
    ensures bits { result ≡ bits_at places.now frame.now }
    ensures size { length result ≡ length places.now }
{
    let mut bits = Bits::zeros(places.len());
    for i in 0..places.len() {
        bits.set(i, frame.get(places[i] - 1));
    }
    bits
}

/// The place in the frame, numbered from 1, of bit `i`, counted from 0, of the three classes behind one another.
pub(crate) fn class_place(i: usize) -> usize
    requires { i < 137 }
    ensures value { result ≡ class_place (i + 1) }
    ensures within { (1 ≤ result) × (result ≤ 137) }
{
    if i < 51 {
        CLASS_0[i]
    } else if i < 107 {
        CLASS_1[i - 51]
    } else {
        CLASS_2[i - 107]
    }
}

/// Bit `i`, counted from 0, of the three classes behind one another.
fn class_bit(c: &Classes, i: usize) -> bool
    requires sizes { AreClasses c.now }
    requires within { i < 137 }
    ensures { result ≡ bit_at (c.now.zero ++ c.now.one ++ c.now.two) i }
{
    if i < 51 {
        c.zero.get(i)
    } else if i < 107 {
        c.one.get(i - 51)
    } else {
        c.two.get(i - 107)
    }
}
