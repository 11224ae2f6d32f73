// What is answered about a message and its table.
use tetra_puncture::Rule;

/// What the rules say of a message and a table of potentials. This project's own.
#[derive(Clone, Copy, PartialEq, Eq, Debug, Drop)]
pub enum Verdict {
    /// All rules hold.
    Accepted,
    /// The first rule that does not hold, in the order of step, state, and then `End`, `Edge0`,
    /// `Edge1`, `Path`, `Tie`. Steps and states count from 0.
    Refused { step: u16, state: u8, rule: Rule },
}
