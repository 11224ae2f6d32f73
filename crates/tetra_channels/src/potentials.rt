// Readings without a certificate.
ghost use Rattle.std.specs.Prelude.{◌≡◌, None};

use tetra_bits::Potentials;

/// Leaves no potentials. Where there are none nothing is written: an assignment of none would write over all their room.
pub fn drop_potentials(potentials: &mut Option<Potentials>)
    ensures { potentials.new ≡ None }
{
    if potentials.is_some() {
        *potentials = None;
    }
}
