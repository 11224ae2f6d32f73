// A trial without damage, on the uplink.
ghost use Rattle.std.specs.Prelude.{◌≡◌};

use crate::{Tally, trial};
use tetra_rm::own_rows;
use tetra_scramble::Colour;
use tetra_settings::{Dir, Form, Mode, Settings};

#[test]
fn undamaged_uplink(rt: HostRuntime) {
    let settings = Settings {
        dir: Dir::Ul,
        colour: Colour {
            mcc: 0,
            mnc: 0,
            cc: 0,
        },
        modes: [Mode::Sig; 4],
        at: 0,
        max: 1,
        form: Form::Plain,
        draw: 0,
        slots: 10,
        damage: 0,
        rows: own_rows(),
    };
    let tally = trial(&settings);
    assert!(rt;
        tally
            == Tally {
                slots: 10,
                kinds: 10,
                good: 10,
                bad: 0,
                unchecked: 0,
                notyet: 0,
                equal: 10,
                differ: 0,
                other: 0,
                metric: 0,
            }
    );
}
