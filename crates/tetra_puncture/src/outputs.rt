// The outputs of a mother code, each as the list of all its bits.
ghost use Rattle.std.specs.Prelude.{◌≡◌, ◌+◌, ◌<◌, ◌≤◌, ℕ, Bool, List, length, slice_index_or, false};
ghost use Rattle.tetra_mother.specs.Mother.{output};
ghost use Rattle.tetra_puncture.specs.Plan.{tailed};
ghost use Rattle.tetra_puncture.specs.Outputs.{IsPadded, AreOutputs, taps_sum};

use tetra_bits::Bits;
use tetra_mother::Mother;

/// Each output of a mother code over all steps: output `i`, counted from 1, of step `t`, counted from 1, is the entry
/// `t - 1` of list `i - 1`. Lists past the last output are zeros.
pub type Outputs = [[bool; 292]; 4];

/// The bits that go in, with four zeros in front of them and zeros behind: entry `t + 4` goes in at step `t`, which
/// counts from 0.
fn padded(message: &Bits) -> [bool; 296]
    requires { length message.now ≤ 288 }
    ensures { IsPadded message.now result }
{
    let mut bits = [false; 296];
    for i in 0..message.len() {
        bits[i + 4] = message.get(i);
    }
    bits
}

/// The sum modulo 2 of the bits that the taps take at step `t`, which counts from 0.
fn sum_at(bits: &[bool; 296], taps: [bool; 5], t: usize) -> bool
    requires { t < 292 }
    ensures { result ≡ taps_sum bits.now taps t }
{
    let [a, b, c, d, e] = taps;
    (bits[t + 4] & a) ^ (bits[t + 3] & b) ^ (bits[t + 2] & c) ^ (bits[t + 1] & d) ^ (bits[t] & e)
}

/// Output `i`, counted from 1, of all steps.
fn output_of<M: Mother>(bits: &[bool; 296], i: usize) -> [bool; 292]
    requires first { 1 ≤ i }
    requires last { i ≤ M.OUTS }
    ensures { (m : List Bool) → IsPadded m bits.now → (t : ℕ) → t < 292
        → slice_index_or result t false ≡ output M.taps (tailed m) (t + 1) i }
{
    let taps = [
        M::tap(i, 0),
        M::tap(i, 1),
        M::tap(i, 2),
        M::tap(i, 3),
        M::tap(i, 4),
    ];
    let mut output = [false; 292];
    for t in 0..292usize {
        output[t] = sum_at(bits, taps, t);
    }
    output
}

/// All outputs of a message of at most 288 bits and of the tail bits behind it (EN 300 392-2 clause 8.2.3).
pub fn outputs_of<M: Mother>(message: &Bits) -> Outputs
    requires { length message.now ≤ 288 }
    ensures { AreOutputs M.taps M.OUTS message.now result }
{
    let bits = padded(message);
    let mut outputs = [[false; 292]; 4];
    for i in 0..M::OUTS {
        outputs[i] = output_of::<M>(&bits, i + 1);
    }
    outputs
}
