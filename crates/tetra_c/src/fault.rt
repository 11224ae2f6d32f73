// Why a call does nothing.
ghost use Rattle.std.specs.Prelude.{◌≡◌};
ghost use Rattle.tetra_c.specs.Faults.{number_of};

/// Why a call does nothing.
#[derive(Clone, Copy, PartialEq, Eq, Debug, Drop)]
pub enum Fault {
    /// A list is longer or shorter than it may be.
    Length,
    /// A byte that stands for a bit is neither 0 nor 1.
    Bit,
    /// A number of the colour is out of its range.
    Colour,
    /// The direction is none, or a timeslot has a mode that is none or that the direction does not have.
    Mode,
    /// The place of slot 0 is not below 4,320.
    Place,
    /// There were 16,777,216 slots.
    Turn,
    /// What is kept of a timeslot is not what its mode keeps.
    Kept,
    /// The slot may not carry the blocks.
    Misfit,
    /// There is no such field, or none that has a certificate.
    Field,
}

impl Fault {
    /// The number that C gets, below 0.
    pub fn number(self) -> i32
        ensures { result ≡ number_of self }
    {
        match self {
            Fault::Length => -1,
            Fault::Bit => -2,
            Fault::Colour => -3,
            Fault::Mode => -4,
            Fault::Place => -5,
            Fault::Turn => -6,
            Fault::Kept => -7,
            Fault::Misfit => -8,
            Fault::Field => -9,
        }
    }
}
