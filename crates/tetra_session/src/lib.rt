//! The four timeslots of a session: what is sent and what is read, slot by slot.
#![tactic(auto)]

mod fields;
mod front;
mod gathering;
mod laws;
mod receiver;
mod receiving;
mod sender;
mod sending;
mod spans;
mod spots;
mod spreading;
mod tables;
mod words;

pub use fields::{Work, is_good, read_heard};
pub use front::{Front, FrontField};
pub use gathering::Gathers;
pub use laws::{data_arrives, heard_apart, sent_apart, slots_arrive, written_slots_arrive};
pub use receiver::Receiver;
pub use receiving::{hear_before_load, hear_rest, hear_turn, read_turn};
pub use sender::Sender;
pub use sending::send_turn;
pub use spans::depth;
pub use spreading::Spreads;
pub use tables::Tables;
