//! A run of the program, from the words and the bytes that come in to the bytes that go out.
//!
//! Each command that reads is a shape: which inputs a slot may have, how they are spelled, what is written for them and
//! how a run ends. One loop serves them all. A command that reads nothing is a series: so many outputs, each of its
//! number. The outcome of a run, what stands after a fault and all texts are this project's own.
#![tactic(auto)]

mod auditor;
mod decoder;
mod encoder;
mod engine;
mod intake;
mod laws;
mod lines;
mod refusals;
mod rehearsal;
mod series;
mod slots;
mod status;
mod summary;
mod texts;
mod verdicts;
mod work;

pub use engine::run;
pub use laws::{decoded_agrees, encoded_is_decoded, one_cut, one_end};
pub use lines::{exit_code, line};
pub use rehearsal::rehearse;
pub use status::{End, Status};
