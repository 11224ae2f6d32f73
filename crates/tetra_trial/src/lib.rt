//! The trial: blocks that are made of a number are sent, damaged and received, slot by slot, and what is read is counted
//! against what was sent. This project's own. Nothing here takes memory.
#![tactic(auto)]

mod counting;
mod kept;
mod loads;
mod passage;
mod sent;
mod tally;

pub use counting::trial;
pub use tally::Tally;

#[cfg(test)]
mod tests;
