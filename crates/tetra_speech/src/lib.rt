//! The speech channel: frames of 137 bits in three classes, of which one is sent uncoded, in whole slots of two frames
//! and half slots of one; and back, from received soft values to the first-least bits. It is after EN 300 395-2 clause
//! 5; all its numbers are this project's own. Nothing here takes memory.
#![tactic(auto)]

mod decoding;
mod encoding;
mod frames;
mod laws;
mod sorting;
mod tables;

pub use decoding::{
    decode_half, decode_half_into, decode_whole, decode_whole_into, half_front_into, values,
    whole_front_into,
};
pub use encoding::{encode_half, encode_whole};
pub use frames::{part, trellis_part, uncoded_part};
pub use laws::{
    classes_are_undone, each_in_one_class, parts_are_undone, undamaged_speech_arrives,
    undamaged_speech_is_read,
};
pub use sorting::{classes, unclasses};
pub use tables::Classes;
