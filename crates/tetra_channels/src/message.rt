// Blocks with their parity.
ghost use Rattle.std.specs.Prelude.{◌≡◌};
ghost use Rattle.tetra_channels.specs.Channels.{parity_of};

use tetra_parity::Parity;

/// The kind of `PAR` parity bits, 16 or none.
pub fn parity_of<const PAR: usize>() -> Parity
    ensures { result ≡ parity_of PAR }
{
    if PAR == 16 {
        Parity::Sixteen
    } else {
        Parity::Nothing
    }
}
