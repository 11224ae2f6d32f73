//! Parity of the blocks of the logical channels. Nothing here takes memory.
#![tactic(auto)]

mod kind;
mod laws;
mod message;
mod number;
mod powers;
mod register;
mod sixteen;

pub use kind::Parity;
pub use laws::{blocks_are_good, marks_are_right, parity_holds, tests_parity};
pub use message::{add4, add8, add16, holds, holds4, holds8, holds16, mark, with_parity};

#[cfg(test)]
mod tests;
