// The message, by the marks.
ghost use Rattle.std.specs.Prelude.{◌≡◌, ◌<◌, ◌≤◌, ◌+◌, ◌*◌, ◌/◌, ◌%◌, ℕ, length};
ghost use Rattle.tetra_mother.specs.Mother.{number, next_state};
ghost use Rattle.tetra_puncture.specs.Butterflies.{lane_of, IsMarked};
ghost use Rattle.tetra_puncture.specs.Plan.{IsMessage};

use tetra_bits::Bits;
use tetra_puncture::Plan;

/// Follows the marks from state 0 on: a bit is 0 where the state is marked. The state is kept as its lane, which has its
/// last bit highest.
pub fn trace<P: Plan>(marks: &[u16; 288], message: &mut Bits)
    requires sound { P.IsSound }
    ensures message { IsMessage P.plan message.new }
    ensures marked { IsMarked marks.now message.new }
{
    let free = P::STEPS - 4;
    message.resize(free);
    let mut lane = 0;
    for t in 0..free {
        let bit = (marks[t] >> lane) % 2 == 0;
        message.set(t, bit);
        lane = lane % 8 / 2 + 8 * (lane % 2) + 4 * u16::from(bit);
    }
}
