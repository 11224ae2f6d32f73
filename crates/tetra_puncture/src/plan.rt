// A plan: a mother code and the places of its word that are sent.
ghost use Rattle.std.specs.Prelude.{◌≡◌, ◌≤◌, ℕ};
ghost use Rattle.tetra_puncture.specs.Plan.{CodePlan, HasSizes, PlacesRise, PlacesLie, WordsDiffer};

use tetra_mother::Mother;

/// A punctured code: a mother code, the number of steps of a message, and the places of the mother word
/// that are sent, in order (EN 300 392-2 clause 8.2.3).
///
/// The laws hold of each sound plan: it has 6 to 292 steps and sends at most 432 bits, its places rise
/// strictly and lie in the mother word, and different messages have different words.
pub trait Plan {
    type Code: Mother;

    ghost STEPS: { ℕ };

    ghost SENT: { ℕ };

    /// The plan as plain data.
    ghost plan: { CodePlan };

    /// Whether the numbers of the plan fit together.
    ghost IsSound: { Type 0 };

    /// The number of steps of a message, of which the last four take the tail bits.
    const STEPS: usize;
    /// The number of bits that are sent.
    const SENT: usize;

    /// The place of sent bit `j` in the mother word. Sent bits and places are counted from 1.
    fn place(j: usize) -> usize
        requires sound { IsSound }
        requires first { 1 ≤ j }
        requires last { j ≤ SENT }
        ensures { result ≡ plan.place j };

    ghost same_steps: { plan.steps ≡ STEPS };

    ghost same_sent: { plan.sent ≡ SENT };

    ghost same_outs: { plan.outs ≡ Self.Code.OUTS };

    ghost same_taps: { plan.taps ≡ Self.Code.taps };

    ghost sizes: { IsSound → HasSizes plan };

    ghost rise: { IsSound → PlacesRise plan };

    ghost lie: { IsSound → PlacesLie plan };

    ghost differ: { IsSound → WordsDiffer plan };
}
