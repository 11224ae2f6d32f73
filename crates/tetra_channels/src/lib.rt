//! The logical channels of the lower MAC, each a short composition of the stages of EN 300 392-2
//! clause 8: parity, mother code and puncturing, block interleaving, scrambling; and back, from
//! received soft values to the first-least message. Nothing here takes memory.
#![tactic(auto)]

mod access;
mod coded;
mod laws;
mod message;
mod potentials;
mod raw;

pub use access::Aach;
pub use coded::{Bsch, Coded, Data24, Data48, Full, Half, Hu};
pub use laws::aliases_are_channels;
pub use potentials::drop_potentials;
pub use raw::Raw72;

#[cfg(test)]
mod tests;
