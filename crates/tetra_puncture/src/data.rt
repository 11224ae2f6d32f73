// The plans of the other channels of data.
ghost use Rattle.std.specs.Prelude.{◌≡◌};

use crate::plan::Plan;
use tetra_mother::Quarter;

/// Rate 292/432 after the mother code of rate 1/4 (EN 300 392-2 clause 8.2.3): the places of rate 2/3, but each 66th
/// of them is passed over. That is output 1 of the steps 44, 88, 132, 176, 220 and 264.
pub struct P292;

impl Plan for P292 {
    ghost use Rattle.tetra_puncture.specs.Places.{p292};
    ghost use Rattle.tetra_puncture.specs.lemmas.P292.{p292_sizes, p292_rise, p292_lie, p292_differ};
    ghost use Rattle.std.specs.Prelude.{refl};

    type Code = Quarter;

    ghost STEPS = { 292 };

    ghost SENT = { 432 };

    ghost plan = { p292 };

    ghost IsSound = { Unit {0} };

    ghost same_steps = { refl };

    ghost same_sent = { refl };

    ghost same_outs = { refl };

    ghost same_taps = { refl };

    ghost sizes = { λ sound. p292_sizes };

    ghost rise = { λ sound. p292_rise };

    ghost lie = { λ sound. p292_lie };

    ghost differ = { λ sound. p292_differ };

    const STEPS: usize = 292;

    const SENT: usize = 432;

    fn place(j: usize) -> usize {
        const PATTERN: [usize; 3] = [1, 2, 5];
        let i = j - 1 + (j - 1) / 65;
        8 * (i / 3) + PATTERN[i % 3]
    }
}

/// Rate 148/432 after the mother code of rate 1/4 (EN 300 392-2 clause 8.2.3): of each eight mother bits the places
/// 1, 2, 3, 5, 6 and 7 are sent, but each 36th of them is passed over. That is output 3 of a step, so output 1 of
/// each step is sent.
pub struct P148;

impl Plan for P148 {
    ghost use Rattle.tetra_puncture.specs.Places.{p148};
    ghost use Rattle.tetra_puncture.specs.lemmas.P148.{p148_sizes, p148_rise, p148_lie, p148_differ};
    ghost use Rattle.std.specs.Prelude.{refl};

    type Code = Quarter;

    ghost STEPS = { 148 };

    ghost SENT = { 432 };

    ghost plan = { p148 };

    ghost IsSound = { Unit {0} };

    ghost same_steps = { refl };

    ghost same_sent = { refl };

    ghost same_outs = { refl };

    ghost same_taps = { refl };

    ghost sizes = { λ sound. p148_sizes };

    ghost rise = { λ sound. p148_rise };

    ghost lie = { λ sound. p148_lie };

    ghost differ = { λ sound. p148_differ };

    const STEPS: usize = 148;

    const SENT: usize = 432;

    fn place(j: usize) -> usize {
        const PATTERN: [usize; 6] = [1, 2, 3, 5, 6, 7];
        let i = j - 1 + (j - 1) / 35;
        8 * (i / 6) + PATTERN[i % 6]
    }
}
