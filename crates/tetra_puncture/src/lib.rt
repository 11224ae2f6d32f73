//! Puncturing: which bits of a mother word are sent (EN 300 392-2 clause 8.2.3), and what is said of
//! any punctured code: its first-least message, its costs to go, what a step costs, and the rules that show them.
#![tactic(auto)]

ghost use Rattle.std.specs.Prelude.{◌≡◌, ◌≤◌, length};

mod branches;
mod butterflies;
mod data;
mod lanes;
mod laws;
mod masks;
mod outputs;
mod plan;
mod quarter;
mod rule;
mod sending;
mod speech;
mod spreading;
mod stepping;
mod two_thirds;

pub use branches::{BranchCosts, Labels, LaneCosts, branch_cost, branch_costs, lane_costs};
pub use data::{P148, P292};
pub use laws::{
    accepted_is_certified, cost_to_go_is_found, cost_to_go_is_one, costs_to_go_are_accepted,
    least_branch_is_row_entry, words_differ,
};
pub use masks::is_paired;
pub use plan::Plan;
pub use rule::Rule;
pub use sending::{keep, keep_into};
pub use speech::{SpeechHalf, SpeechWhole};
pub use spreading::{spread, spread_into};
pub use stepping::{MarkedRow, marked_row, zero_row};
pub use two_thirds::TwoThirds;

// The clauses say every value. This calls each function once at the smallest plan: a 1 and zeros, whose
// word is written out, and values at the places that are sent; and each other plan once, by the front of such a word.
#[cfg(test)]
mod tests {
    use super::{P148, P292, Plan, SpeechHalf, SpeechWhole, TwoThirds, keep, spread};
    use tetra_bits::{Bits, Soft};

    fn one_and_zeros(size: usize) -> Bits
        requires few { size ≤ 288 }
        requires some { 1 ≤ size }
        ensures { length result ≡ size }
    {
        let mut message = Bits::new();
        message.push(true);
        for _k in 1..size {
            message.push(false);
        }
        message
    }

    fn begins<P: Plan>(front: &[bool]) -> bool
        requires sound { P.IsSound }
        requires size { length front.now ≤ P.SENT }
    {
        let word = keep::<P>(&one_and_zeros(P::STEPS - 4));
        for i in 0..front.len() {
            if word.get(i) != front[i] {
                return false;
            }
        }
        true
    }

    #[test]
    fn one_and_zeros_are_sent(rt: HostRuntime) {
        let two_thirds = [true, true, true, false, true, false, true, true, false];
        assert!(rt; begins::<TwoThirds<6, 9>>(&two_thirds));
        assert!(rt; begins::<P292>(&two_thirds));
        assert!(rt; begins::<P148>(&[true, true, true, true, false, true, false, true, true]));
        let speech = [true, true, true, true, false, true, true, true, false];
        assert!(rt; begins::<SpeechWhole>(&speech));
        assert!(rt; begins::<SpeechHalf>(&speech));
    }

    #[test]
    fn three_of_eight(rt: HostRuntime) {
        let mut soft = Soft::new();
        for _k in 0..9usize {
            soft.push(7);
        }
        let wide = spread::<TwoThirds<6, 9>>(&soft);
        let expected = [7, 7, 0, 0, 7, 0, 0, 0];
        for i in 0..8usize {
            assert!(rt; wide.get(i) == expected[i]);
        }
    }
}
