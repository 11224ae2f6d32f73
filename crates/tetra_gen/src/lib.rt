//! Blocks of slots and damage, made of a number, for tests of the whole chain. Equal settings give equal blocks and equal
//! damage. Nothing here takes memory.
#![tactic(auto)]

mod blocks;
mod damage;
mod laws;
mod maker;
mod words;

pub use damage::Damage;
pub use laws::{access_is_a_field, damage_keeps_length, damage_keeps_soft, made_fit};
pub use maker::Maker;

#[cfg(test)]
mod tests;
