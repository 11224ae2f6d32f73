// The kinds of parity.
ghost use Rattle.std.specs.Prelude.{◌≡◌};
ghost use Rattle.tetra_parity.specs.Parity.{width};

/// The parity of a block, behind which it stands.
#[derive(Clone, Copy, PartialEq, Eq, Debug, Drop)]
pub enum Parity {
    /// No parity.
    Nothing,
    /// The 4 bits of speech in half a slot, this project's own.
    Four,
    /// The 8 bits of speech in a whole slot, this project's own: 7 bits and the overall bit.
    Eight,
    /// The 16 bits of the signalling channels, EN 300 392-2 clause 8.2.3.3.
    Sixteen,
}

impl Parity {
    /// The number of its bits.
    pub fn width(self) -> usize
        ensures { result ≡ width self }
    {
        match self {
            Parity::Nothing => 0,
            Parity::Four => 4,
            Parity::Eight => 8,
            Parity::Sixteen => 16,
        }
    }
}
