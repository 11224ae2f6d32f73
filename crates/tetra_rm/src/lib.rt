//! The access code of 14 message bits and 16 further bits. Its rows are this project's own.
#![tactic(auto)]

mod access;
mod keys;
mod lanes;
mod laws;
mod searching;
mod sums;
mod table;
pub mod walk;
mod words;

pub use access::{AccessCode, decode};
pub use laws::{undamaged_arrives, words_differ};
pub use searching::RmReading;
pub use table::{Rows, own_rows};
pub use words::{encode, message_bits};

#[cfg(test)]
mod tests;
