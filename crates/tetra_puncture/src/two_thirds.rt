// The plans of rate 2/3.
ghost use Rattle.std.specs.Prelude.{◌≡◌};

use crate::plan::Plan;
use tetra_mother::Quarter;

/// Rate 2/3 after the mother code of rate 1/4 (EN 300 392-2 clause 8.2.3): of each eight mother bits,
/// the outputs of two steps, the places 1, 2 and 5 are sent.
///
/// Sound where `STEPS` is even and from 6 to 288, and `2 SENT = 3 STEPS`.
pub struct TwoThirds<const STEPS: usize, const SENT: usize>;

impl<const STEPS: usize, const SENT: usize> Plan for TwoThirds<STEPS, SENT> {
    ghost use Rattle.tetra_puncture.specs.Places.{two_thirds, IsTwoThirds};
    ghost use Rattle.tetra_puncture.specs.lemmas.TwoThirds.{two_thirds_sizes, two_thirds_rise, two_thirds_lie, two_thirds_differ};
    ghost use Rattle.std.specs.Prelude.{refl};

    type Code = Quarter;

    ghost STEPS = { STEPS };

    ghost SENT = { SENT };

    ghost plan = { two_thirds STEPS SENT };

    ghost IsSound = { IsTwoThirds STEPS SENT };

    ghost same_steps = { refl };

    ghost same_sent = { refl };

    ghost same_outs = { refl };

    ghost same_taps = { refl };

    ghost sizes = { two_thirds_sizes STEPS SENT };

    ghost rise = { two_thirds_rise STEPS SENT };

    ghost lie = { two_thirds_lie STEPS SENT };

    ghost differ = { two_thirds_differ STEPS SENT };

    const STEPS: usize = STEPS;

    const SENT: usize = SENT;

    fn place(j: usize) -> usize {
        const PATTERN: [usize; 3] = [1, 2, 5];
        let i = j - 1;
        8 * (i / 3) + PATTERN[i % 3]
    }
}
