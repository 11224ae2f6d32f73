// Laws of speech.
ghost use Rattle.tetra_speech.specs.Laws.{ClassesAreUndone, EachInOneClass, PartsAreUndone, UndamagedSpeechArrives, UndamagedSpeechIsRead};

use tetra_interleave::{all_are_undone, matrices_are_one_to_one, stay_undamaged};
use tetra_parity::blocks_are_good;

/// A law: every bit of a frame stands in exactly one class.
pub fn each_in_one_class()
    ensures { EachInOneClass }
{}

/// A law: a frame is found again from its classes, and classes of their sizes from their frame.
pub fn classes_are_undone()
    ensures { ClassesAreUndone }
{
    each_in_one_class();
    all_are_undone();
}

/// A law: the bits of a reading are found again from their uncoded and their coded part, and these from the bits.
pub fn parts_are_undone()
    ensures { PartsAreUndone }
{
    classes_are_undone();
}

/// A law: values that have the signs of the type-3 bits of frames, none of them 0, are read as these frames with their
/// parity, Good and with metric 0.
pub fn undamaged_speech_is_read()
    ensures { UndamagedSpeechIsRead }
{
    parts_are_undone();
    blocks_are_good();
}

/// A law: values that have the signs of type-4 bits, none of them 0, have those of the type-3 bits in their order.
pub fn undamaged_speech_arrives()
    ensures { UndamagedSpeechArrives }
{
    matrices_are_one_to_one();
    stay_undamaged();
}
