//! Sources and sinks of bytes that count their faults.
//!
//! A source is read and a sink is written piece by piece, and any call may fail. Each keeps a count of
//! its faults, so that a caller can prove that no answer speaks of a fault that did not happen. Contracts
//! speak of the bytes that a source still has and of those that a sink took, where they are known.
//! All of this is this project's own.
#![tactic(auto)]

mod ahead;
mod calls;
mod filling;
mod memory_sink;
mod memory_source;
mod streams;
mod sure;
mod system;

pub use ahead::ReadAhead;
pub use filling::{Filled, fill, put_all};
pub use memory_sink::MemSink;
pub use memory_source::MemSource;
pub use streams::{Sink, SinkFault, Source, SourceFault};
pub use sure::{SureSink, SureSource};
pub use system::{StdSink, StdSource};
