//! The words of the command line, the time of a slot, and the types that the crates above share.
#![tactic(auto)]

mod blocks;
mod keys;
mod laws;
mod readings;
mod slots;
mod types;
mod values;
mod words;

pub use blocks::{Body, SlotBlocks, field_bits, fits, load_bits};
pub use laws::{all_letters, fitting_are_well_formed};
pub use readings::{Field, FieldName, FieldSizes, SlotReading};
pub use slots::{LETTERS, Letter, SlotUse, allows, clock, letters, mode_at, slot_use};
pub use types::{Command, Dir, Form, Mode, Settings, Span, WordFault, WordWhy};
pub use words::read_words;

#[cfg(test)]
mod tests;
