// Soft values at the places of the mother word.
ghost use Rattle.std.specs.Prelude.{◌≡◌, ◌<◌, ◌≤◌, ◌+◌, length};
ghost use Rattle.tetra_puncture.specs.Spread.{IsSpread, IsSpreadTo, spread_values};

use crate::plan::Plan;
use crate::sending::TURN;
use tetra_bits::{Soft, Wide};
use tetra_mother::Mother;

/// The `SENT` values of `soft` at the places of the plan in the mother word, and 0 at the places that are not sent.
pub fn spread<P: Plan>(soft: &Soft) -> Wide
    requires sound { P.IsSound }
    requires size { length soft.now ≡ P.SENT }
    ensures values { result ≡ spread_values P.plan soft.now }
    ensures placed { IsSpread P.plan soft.now result }
{
    let mut wide = Wide::new();
    spread_into::<P>(soft, &mut wide);
    wide
}

/// The answer of `spread`, written into `wide` in place of what stood there.
pub fn spread_into<P: Plan>(soft: &Soft, wide: &mut Wide)
    requires sound { P.IsSound }
    requires size { length soft.now ≡ P.SENT }
    ensures values { wide.new ≡ spread_values P.plan soft.now }
    ensures placed { IsSpread P.plan soft.now wide.new }
{
    *wide = Wide::new();
    wide.resize(P::Code::OUTS * P::STEPS);
    let turns = P::SENT / TURN;
    for turn in 0..turns {
        put::<P>(soft, wide, TURN * turn, TURN);
    }
    put::<P>(soft, wide, TURN * turns, P::SENT - TURN * turns);
}

/// Writes so many values at their places, from value `first` on, which counts from 0.
fn put<P: Plan>(soft: &Soft, wide: &mut Wide, first: usize, count: usize)
    requires sound { P.IsSound }
    requires size { length soft.now ≡ P.SENT }
    requires last { first + count ≤ P.SENT }
    requires placed { IsSpreadTo P.plan soft.now first wide.old }
    ensures placed { IsSpreadTo P.plan soft.now (first + count) wide.new }
{
    for i in 0..count {
        let place = P::place(first + i + 1);
        wide.set(place - 1, soft.get(first + i));
    }
}
