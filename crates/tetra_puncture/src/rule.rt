// The rules of an accepted table.

/// A rule that a table of potentials has to meet beside a message, at a step and a state. This project's own.
#[derive(Clone, Copy, PartialEq, Eq, Debug, Drop)]
pub enum Rule {
    /// Behind the last step the entry is 0.
    End,
    /// The entry is at most the cost of bit 0 and the entry that it leads to.
    Edge0,
    /// Where bit 1 is allowed, the entry is at most its cost and the entry that it leads to.
    Edge1,
    /// At a state that the message passes, the entry is the cost of the bit taken there and the entry that it leads to.
    Path,
    /// Where the message takes 1, the cost of bit 0 and the entry that it leads to are greater than the entry.
    Tie,
}
