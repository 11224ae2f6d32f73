// The types of commands and settings.
use tetra_rm::Rows;
use tetra_scramble::Colour;
use thiserror::Error;

/// What the program does. This project's own.
#[derive(Clone, Copy, Debug, PartialEq, Eq)]
pub enum Command {
    /// Block records to slots.
    Encode,
    /// Slots to reading records.
    Decode,
    /// Slots with reading records to verdicts.
    Audit,
    /// Block records from a number.
    Gen,
    /// Block records from a number, sent, damaged and received, to a summary.
    Trial,
}

/// The direction of the link.
#[derive(Clone, Copy, Debug, PartialEq, Eq)]
pub enum Dir {
    /// The downlink, from the base station.
    Dl,
    /// The uplink, to the base station.
    Ul,
}

/// Over how many traffic slots of its timeslot a block of protected data is interleaved: 1, 4 or 8.
#[derive(Clone, Copy, Debug, PartialEq, Eq)]
pub enum Span {
    One,
    Four,
    Eight,
}

/// What a timeslot carries in frames 1 to 17. In frame 18 each timeslot but `Cb` is signalling.
#[derive(Clone, Copy, Debug, PartialEq, Eq)]
pub enum Mode {
    /// Signalling.
    Sig,
    /// Control bursts in two subslots, on the uplink alone.
    Cb,
    /// TCH/7.2: 432 bits a slot, unprotected.
    D72,
    /// TCH/4.8: 288 bits a slot.
    D48(Span),
    /// TCH/2.4: 144 bits a slot.
    D24(Span),
    /// Speech: two frames of 137 bits a slot.
    Speech,
}

/// Whether a reading record has certificates.
#[derive(Clone, Copy, Debug, PartialEq, Eq)]
pub enum Form {
    /// None.
    Plain,
    /// One behind each field that a trellis was solved for.
    Audit,
}

/// What the words of a command line set.
#[derive(Clone, Copy, Debug, PartialEq, Eq)]
pub struct Settings {
    pub dir: Dir,
    /// Network and colour code, which make the scrambling key.
    pub colour: Colour,
    /// What timeslots 1 to 4 carry.
    pub modes: [Mode; 4],
    /// The place of slot 0 in the cycle of 4,320 slots, from 0 to 4,319.
    pub at: u16,
    /// The most slots that are read, from 1 to 16,777,216.
    pub max: u32,
    pub form: Form,
    /// The number from which blocks and damage are drawn.
    pub draw: u64,
    /// The number of slots that are made, from 1 to 1,000,000.
    pub slots: u32,
    /// How many turned signs are drawn for a slot, at most 510.
    pub damage: u16,
    /// The rows of the access code.
    pub rows: Rows,
}

/// Why a word is faulty, in the order in which the reasons are tried.
#[derive(Clone, Copy, Debug, PartialEq, Eq)]
pub enum WordWhy {
    /// There are no words.
    NoCommand,
    /// The first word is no command.
    UnknownCommand,
    /// The word has no `=`.
    NotPair,
    /// There is no such key.
    UnknownKey,
    /// The command does not take the key.
    NotHere,
    /// An earlier word has the key.
    Repeated,
    /// The value is not `0`, and not digits of which the first is not 0.
    BadNumber,
    /// The number is outside the range of its key.
    OutOfRange,
    /// The key does not have the value.
    UnknownValue,
    /// All words pass, but on the downlink this is the first that gives `cb`.
    NotUplink,
}

/// The first faulty word, counted from 0, with its first reason.
#[derive(Clone, Copy, Debug, PartialEq, Eq, Error)]
#[error("WordFault")]
pub struct WordFault {
    pub index: usize,
    pub why: WordWhy,
}
