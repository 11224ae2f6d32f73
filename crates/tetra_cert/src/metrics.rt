// The metric of a message.
ghost use Rattle.std.specs.Prelude.{◌≡◌, ◌≤◌, ◌*◌, ◌^◌, ℕ, length};
ghost use Rattle.tetra_bits.specs.Cost.{metric};
ghost use Rattle.tetra_bits.specs.Soft.{AllWithin};
ghost use Rattle.tetra_puncture.specs.Best.{message_metric};
ghost use Rattle.tetra_puncture.specs.Plan.{IsMessage};

use tetra_bits::{Bits, Soft, cost};
use tetra_puncture::{Plan, keep};

/// The metric of `message` (`STEPS - 4` bits) over the received values `soft` (`SENT` of them): the sum
/// of the costs of the bits of its sent word. This project's own.
pub fn metric<P: Plan>(soft: &Soft, message: &Bits) -> u32
    requires sound { P.IsSound }
    requires values { length soft.now ≡ P.SENT }
    requires message { IsMessage P.plan message.now }
    ensures value { result ≡ message_metric P.plan soft.now message.now }
    ensures within { (top : ℕ) → AllWithin top soft.now → result ≤ top * P.SENT }
{
    word_metric(soft, &keep::<P>(message))
}

/// The sum of the costs of the bits of `word`.
fn word_metric(soft: &Soft, word: &Bits) -> u32
    requires { length soft.now ≡ length word.now }
    ensures { result ≡ metric soft.now word.now }
{
    let mut sum = 0;
    for k in 0..soft.len() {
        sum += cost(soft.get(k), word.get(k));
    }
    sum
}
