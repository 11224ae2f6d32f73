//! Scrambling: the key of a colour, and what it does to bits and to soft values (EN 300 392-2 clause 8.2.5).
#![tactic(auto)]

mod colour;
mod flips;
mod keys;
mod laws;
mod register;

pub use colour::Colour;
pub use flips::{flip_bits, flip_bits_in_place, flip_soft, flip_soft_in_place, flip_soft_into};
pub use keys::Key;
pub use laws::{
    flipped_back, key_is_key, only_key, stays_none_wrong, stays_undamaged, turned_back,
};
pub use register::{key, zero_key};

#[cfg(test)]
mod tests;
