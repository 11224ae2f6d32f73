// Why no record was read.
use tetra_io::SourceFault;
use thiserror::Error;

/// What is wrong with the bytes of a record, in the order in which it is tested.
#[derive(Clone, Copy, Debug, PartialEq, Eq, Error)]
pub enum RecordFault {
    /// The first byte is none of the seven letters.
    #[error("UnknownKind")]
    UnknownKind,
    /// The slot may not carry the letter.
    #[error("WrongKind")]
    WrongKind,
    /// A pad bit is 1 in a record that is whole.
    #[error("PadBit")]
    PadBit,
    /// The bytes end inside the record.
    #[error("Truncated")]
    Truncated,
}

/// Why no record was read: the source failed, or its bytes are no record.
#[derive(Debug, Drop, Error)]
pub enum NextFault {
    #[error("Source")]
    Source(SourceFault),
    #[error("Bad")]
    Bad(RecordFault),
}
