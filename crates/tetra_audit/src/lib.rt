//! The audit of reading records: whether a record claims what is defined for the soft values of a slot,
//! whoever wrote it. Its certificates are checked by rules, so that nothing stands on a decoder.
#![tactic(auto)]

mod claims;
mod fields;
mod laws;
mod layouts;
pub mod pair;
mod slots;
mod verdict;

pub use laws::{agrees_exactly, own_records_agree};
pub use layouts::claim_len;
pub use slots::{audit_slot, audit_slot_with};
pub use verdict::{FieldWhy, SlotVerdict};
