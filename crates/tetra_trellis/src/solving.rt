// The first-least message, its metric and the costs to go.
ghost use Rattle.std.specs.Prelude.{◌≡◌, ◌<◌, ◌≤◌, ◌+◌, ◌*◌, ℕ, length};
ghost use Rattle.tetra_bits.specs.Readings.{entry, HasRows};
ghost use Rattle.tetra_bits.specs.Soft.{AllWithin};
ghost use Rattle.tetra_puncture.specs.Best.{best_of, message_metric};
ghost use Rattle.tetra_puncture.specs.Rules.{IsAccepted};
ghost use Rattle.tetra_puncture.specs.Spread.{spread_values};
ghost use Rattle.tetra_puncture.specs.ToGo.{potentials_of};
ghost use Rattle.tetra_puncture.specs.Trellis.{AllCostsToGo};

use crate::rows::fill;
use crate::tracing::trace;
use tetra_bits::{Bits, Potentials, Soft, Table, Wide};
use tetra_puncture::{Labels, Plan, spread_into};

/// What a received block is solved to. This project's own.
#[derive(Drop)]
pub struct Solved {
    /// The first-least message, `STEPS - 4` bits.
    pub message: Bits,
    /// Its metric.
    pub metric: u32,
    /// The costs to go, `STEPS + 1` rows: one before each step and one behind the last. They certify the message.
    pub potentials: Potentials,
}

/// Fills `message` with the first-least message, `STEPS - 4` bits, and a table with the costs to go, `STEPS + 1` rows of
/// 16, which certify it, and answers the metric. What they held before is gone. `soft` has `SENT` values.
pub fn solve_table<P: Plan, T: Table>(soft: &Soft, message: &mut Bits, table: &mut T) -> u32
    requires sound { P.IsSound }
    requires size { length soft.now ≡ P.SENT }
    ensures message { message.new ≡ best_of P.plan soft.now }
    ensures size { length message.new + 4 ≡ P.STEPS }
    ensures metric { result ≡ message_metric P.plan soft.now message.new }
    ensures rows { length (T.rows_of table.new) ≡ P.STEPS + 1 }
    ensures states { HasRows (T.rows_of table.new) }
    ensures potentials { AllCostsToGo P.plan (spread_values P.plan soft.now) (T.rows_of table.new) }
    ensures exact { T.rows_of table.new ≡ potentials_of P.plan soft.now }
    ensures within { (top t s : ℕ) → AllWithin top soft.now → t ≤ P.STEPS → s < 16
        → entry (T.rows_of table.new) t s ≤ top * P.SENT }
    ensures metric_within { (top : ℕ) → AllWithin top soft.now → result ≤ top * P.SENT }
    ensures accepted { IsAccepted P.plan (spread_values P.plan soft.now) message.new (T.rows_of table.new) }
{
    let mut wide = Wide::new();
    spread_into::<P>(soft, &mut wide);
    let _places = wide.len();
    let labels = Labels::of::<P::Code>();
    let mut marks = [0; 288];
    fill::<P, T>(&wide, &labels, table, &mut marks);
    trace::<P>(&marks, message);
    table.row_at(0)[0]
}

/// `solve_table` over the rows of potentials that are there.
pub fn solve_into<P: Plan>(soft: &Soft, message: &mut Bits, potentials: &mut Potentials) -> u32
    requires sound { P.IsSound }
    requires size { length soft.now ≡ P.SENT }
    ensures message { message.new ≡ best_of P.plan soft.now }
    ensures size { length message.new + 4 ≡ P.STEPS }
    ensures metric { result ≡ message_metric P.plan soft.now message.new }
    ensures rows { length potentials.new ≡ P.STEPS + 1 }
    ensures states { HasRows potentials.new }
    ensures potentials { AllCostsToGo P.plan (spread_values P.plan soft.now) potentials.new }
    ensures exact { potentials.new ≡ potentials_of P.plan soft.now }
    ensures within { (top t s : ℕ) → AllWithin top soft.now → t ≤ P.STEPS → s < 16
        → entry potentials.new t s ≤ top * P.SENT }
    ensures metric_within { (top : ℕ) → AllWithin top soft.now → result ≤ top * P.SENT }
    ensures accepted { IsAccepted P.plan (spread_values P.plan soft.now) message.new potentials.new }
{
    solve_table::<P, Potentials>(soft, message, potentials)
}

/// The first-least message of a plan over received soft values, its metric, and the costs to go. `soft`
/// has `SENT` values.
pub fn solve<P: Plan>(soft: &Soft) -> Solved
    requires sound { P.IsSound }
    requires size { length soft.now ≡ P.SENT }
    ensures message { result.message ≡ best_of P.plan soft.now }
    ensures size { length result.message + 4 ≡ P.STEPS }
    ensures metric { result.metric ≡ message_metric P.plan soft.now result.message }
    ensures rows { length result.potentials ≡ P.STEPS + 1 }
    ensures states { HasRows result.potentials }
    ensures potentials { AllCostsToGo P.plan (spread_values P.plan soft.now) result.potentials }
    ensures exact { result.potentials ≡ potentials_of P.plan soft.now }
    ensures within { (top t s : ℕ) → AllWithin top soft.now → t ≤ P.STEPS → s < 16
        → entry result.potentials t s ≤ top * P.SENT }
    ensures metric_within { (top : ℕ) → AllWithin top soft.now → result.metric ≤ top * P.SENT }
    ensures accepted { IsAccepted P.plan (spread_values P.plan soft.now) result.message result.potentials }
{
    let mut message = Bits::new();
    let mut potentials = Potentials::new();
    let metric = solve_into::<P>(soft, &mut message, &mut potentials);
    Solved {
        message,
        metric,
        potentials,
    }
}
