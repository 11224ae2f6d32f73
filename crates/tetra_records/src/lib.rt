//! Block records and reading records, to the byte. Their layouts are this project's own.
#![tactic(auto)]

mod faults;
mod laws;
mod parsing;
mod readings;
mod records;
mod spelling;

pub use faults::{NextFault, RecordFault};
pub use laws::records_are_unambiguous;
pub use readings::{
    add_field, add_reading, reading_bytes, write_field, write_parts, write_reading,
};
pub use records::next_record;
pub use spelling::block_bytes;

#[cfg(test)]
mod tests;
