//! The trellis decoder: from received soft values the first-least message of a punctured code, its
//! metric, and the costs to go, which certify it. Nothing here takes memory.
#![tactic(auto)]

ghost use Rattle.std.specs.Prelude.{◌≡◌, ◌≤◌, ◌+◌, length};

pub mod lanes;
mod rows;
mod solving;
mod tracing;

pub use solving::{Solved, solve, solve_into, solve_table};

// The clauses say what is solved. Here two small plans are compared with all their messages, by the sent word and the
// cost of each of its bits, over values so small that ties are frequent; and zeros, which say nothing, are solved.
#[cfg(test)]
mod tests {
    use super::solve;
    use tetra_bits::{Bits, Soft, cost};
    use tetra_puncture::{Plan, TwoThirds, keep};

    fn numbered(number: u32, free: usize) -> Bits
        requires { free ≤ 8 }
        ensures { length result ≡ free }
    {
        let mut bits = Bits::new();
        for i in 0..free {
            bits.push((number >> (free - 1 - i)) % 2 == 1);
        }
        bits
    }

    fn metric<P: Plan>(soft: &Soft, message: &Bits) -> u32
        requires sound { P.IsSound }
        requires size { length soft.now ≡ P.SENT }
        requires free { length message.now + 4 ≡ P.STEPS }
    {
        let word = keep::<P>(message);
        let mut sum = 0;
        for j in 0..P::SENT {
            sum += cost(soft.get(j), word.get(j));
        }
        sum
    }

    fn agrees<P: Plan>(soft: &Soft, messages: u32) -> bool
        requires sound { P.IsSound }
        requires size { length soft.now ≡ P.SENT }
        requires few { P.STEPS ≤ 12 }
    {
        let free = P::STEPS - 4;
        let mut first = 0;
        let mut least = u32::MAX;
        for number in 0..messages {
            let metric = metric::<P>(soft, &numbered(number, free));
            if metric < least {
                first = number;
                least = metric;
            }
        }
        let solved = solve::<P>(soft);
        solved.metric == least && solved.message == numbered(first, free)
    }

    fn values(seed: u32, size: usize) -> Soft
        requires { size ≤ 12 }
        ensures { length result ≡ size }
    {
        let mut soft = Soft::new();
        let mut state = seed;
        for _k in 0..size {
            state = state.wrapping_mul(1664525).wrapping_add(1013904223);
            soft.push([-2, -1, 0, 1, 2][(state >> 24) as usize % 5]);
        }
        soft
    }

    #[test]
    fn as_by_all_messages(rt: HostRuntime) {
        for seed in 0..300 {
            assert!(rt; agrees::<TwoThirds<6, 9>>(&values(seed, 9), 4));
            assert!(rt; agrees::<TwoThirds<8, 12>>(&values(seed, 12), 16));
        }
    }

    #[test]
    fn zeros_say_nothing(rt: HostRuntime) {
        let mut soft = Soft::new();
        for _k in 0..120usize {
            soft.push(0);
        }
        let solved = solve::<TwoThirds<80, 120>>(&soft);
        assert!(rt; solved.metric == 0);
        for t in 0..76usize {
            assert!(rt; !solved.message.get(t));
        }
        assert!(rt; solved.message.len() == 76 && solved.potentials.rows() == 81);
        for t in 0..81usize {
            assert!(rt; *solved.potentials.row(t) == [0; 16]);
        }
    }
}
