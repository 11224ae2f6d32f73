//! Diagonal interleaving of protected data over 1, 4 or 8 slots, and back. Nothing here takes memory.
#![tactic(auto)]

mod gather;
mod laws;
mod ring;
mod rows;
mod spread;
#[cfg(test)]
mod tests;

pub use gather::{Gather, gather_ring};
pub use laws::{gathered_from_last, none_wrong_arrives, spread_from_last, undamaged_arrives};
pub use rows::{BlockRow, WordRow};
pub use spread::{Spread, spread_ring};
