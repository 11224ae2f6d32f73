//! The lower MAC for C: a static library whose exports take structs of plain data, which the caller keeps, and answer
//! 0 or the number of a fault. Nothing here takes memory, and no export has a condition that C could break by a
//! value: lengths, bytes, numbers and states are tested.
#![tactic(auto)]

mod blocks;
mod bytes;
mod check;
mod colour;
mod fault;
mod kept_blocks;
mod kept_words;
mod readings;
mod receiver;
mod records;
mod rings;
mod sender;
mod settings;
mod soft;
mod verdict;

pub use blocks::TetraBlocks;
pub use colour::TetraColour;
pub use fault::Fault;
pub use kept_blocks::{TetraKeptBlock, TetraKeptBlocks};
pub use kept_words::{TetraKeptWord, TetraKeptWords};
pub use readings::{TetraField, TetraReading};
pub use receiver::TetraReceiver;
pub use records::TetraAudit;
pub use sender::TetraSender;
pub use settings::TetraSettings;
pub use verdict::TetraVerdict;

#[cfg(test)]
mod receiver_tests;
#[cfg(test)]
mod sender_tests;
