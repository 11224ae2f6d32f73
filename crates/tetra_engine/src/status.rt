// How a run ends.
use tetra_records::RecordFault;
use tetra_settings::WordWhy;

/// Why a run ended. This project's own.
#[derive(Clone, Copy, Debug, PartialEq, Eq)]
pub enum Status {
    /// The input was read to its end, and all its output was written. A command that reads nothing wrote all of it.
    Done,
    /// The same, and the audit refused `count` slots, of which `slot` is the first.
    Refused { slot: u64, count: u64 },
    /// The word with this index, from 0, is faulty. Nothing was read or written.
    Words { index: usize, why: WordWhy },
    /// The bytes of this slot, from 0, are not an input of it.
    Input { slot: u64, why: RecordFault },
    /// A read failed.
    Read,
    /// A write or the flush failed.
    Write,
    /// There are bytes behind as many slots as the words allow.
    TooLong,
}

/// How a run ended.
#[derive(Clone, Copy, Debug, PartialEq, Eq)]
pub struct End {
    /// Why it ended.
    pub status: Status,
    /// How many slots went out whole; of `trial` all that its words ask for, where the summary went out whole, and else
    /// none.
    pub slots: u64,
}
