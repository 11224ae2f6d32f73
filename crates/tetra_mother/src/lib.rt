//! Mother codes: convolutional codes of constraint length five, before puncturing.
//!
//! Output `i` of step `k` is the sum modulo 2 of `b(k-j) g(i,j)` over `j` from 0 to 4, where `b` are
//! the bits that go in, those before the first being 0, and `g(i,j)` is 1 where generator `i` has
//! the term `D^j` (EN 300 392-2 clause 8.2.3). The state form gives the same outputs from the four
//! bits before a step.
#![tactic(auto)]

ghost use Rattle.std.specs.Prelude.{◌≡◌, ◌<◌, ◌≤◌, ◌+◌, ◌-◌, ◌*◌, ℕ, Bool, List, length, slice_index_or, false};
ghost use Rattle.tetra_mother.specs.Mother.{output, next_state, edge, state_before, bit_back};

/// A mother code, given by its generators.
pub trait Mother {
    ghost OUTS: { ℕ };

    /// Whether generator `i`, counted from 1, has the term `D^j`.
    ghost taps: { ℕ → ℕ → Bool };

    /// The number of outputs of a step, which is the number of generators: 1 to 4.
    const OUTS: usize;

    /// Whether generator `i`, counted from 1, has the term `D^j`: whether output `i` of a step adds
    /// the bit that went in `j` steps before.
    fn tap(i: usize, j: usize) -> bool
        requires first { 1 ≤ i }
        requires last { i ≤ OUTS }
        requires delay { j ≤ 4 }
        ensures { result ≡ taps i j };

    ghost few: { (1 ≤ OUTS) × (OUTS ≤ 4) };
}

/// The mother code of rate 1/4 (EN 300 392-2 clause 8.2.3):
///
/// | generator | polynomial |
/// |---|---|
/// | G1 | `1 + D + D^4` |
/// | G2 | `1 + D^2 + D^3 + D^4` |
/// | G3 | `1 + D + D^2 + D^4` |
/// | G4 | `1 + D + D^3 + D^4` |
pub struct Quarter;

impl Mother for Quarter {
    ghost use Rattle.tetra_mother.specs.Generators.{quarter};
    ghost use Rattle.std.proofs.Common.{rules};

    ghost OUTS = { 4 };

    ghost taps = { quarter };

    ghost few = { Prim.search rules };

    const OUTS: usize = 4;

    fn tap(i: usize, j: usize) -> bool {
        // The row of a generator, from D^0 to D^4.
        const TAPS: [[bool; 5]; 4] = [
            [true, true, false, false, true],
            [true, false, true, true, true],
            [true, true, true, false, true],
            [true, true, false, true, true],
        ];
        TAPS[i - 1][j]
    }
}

/// The mother code of speech, of rate 1/3 (this project's own numbers, after EN 300 395-2 clause 5):
///
/// | generator | polynomial |
/// |---|---|
/// | G1 | `1 + D + D^2 + D^3 + D^4` |
/// | G2 | `1 + D + D^3 + D^4` |
/// | G3 | `1 + D^2 + D^4` |
pub struct Third;

impl Mother for Third {
    ghost use Rattle.tetra_mother.specs.Generators.{third};
    ghost use Rattle.std.proofs.Common.{rules};

    ghost OUTS = { 3 };

    ghost taps = { third };

    ghost few = { Prim.search rules };

    const OUTS: usize = 3;

    fn tap(i: usize, j: usize) -> bool {
        // The row of a generator, from D^0 to D^4.
        const TAPS: [[bool; 5]; 3] = [
            [true, true, true, true, true],
            [true, true, false, true, true],
            [true, false, true, false, true],
        ];
        TAPS[i - 1][j]
    }
}

/// Output `out` of step `step` for the bits that go in, by the sum that defines it. Steps and
/// outputs are counted from 1, so that step `k` takes `bits[k - 1]`.
pub fn code<M: Mother>(bits: &[bool], step: usize, out: usize) -> bool
    requires first { 1 ≤ step }
    requires last { step ≤ length bits.now }
    requires out_first { 1 ≤ out }
    requires out_last { out ≤ M.OUTS }
    ensures { result ≡ output M.taps bits.now step out }
{
    let mut sum = false;
    for j in 0..5 {
        if j < step && bits[step - j - 1] && M::tap(out, j) {
            sum = !sum;
        }
    }
    sum
}

/// The state to which `bit` leads from `state`. A state is 0 to 15: the four bits before a step, the
/// last one highest. No bits, as before the first step, are state 0.
pub fn next(state: u8, bit: bool) -> u8
    requires { state < 16 }
    ensures value { result ≡ next_state state bit }
    ensures small { result < 16 }
    ensures walks { (bits : List Bool) (k : ℕ) → state ≡ state_before bits k → bit ≡ bit_back bits k 0
        → result ≡ state_before bits (k + 1) }
{
    state / 2 + if bit { 8 } else { 0 }
}

/// The outputs of a step that takes `bit` in `state`, which is 0 to 15. Output `i` is the entry `i - 1`;
/// entries past the last output are false.
pub fn outs<M: Mother>(state: u8, bit: bool) -> [bool; 4]
    requires { state < 16 }
    ensures outputs { (i : ℕ) → 1 ≤ i → i ≤ M.OUTS → slice_index_or result (i - 1) false ≡ edge M.taps state bit i }
    ensures rest { (i : ℕ) → M.OUTS < i → slice_index_or result (i - 1) false ≡ false }
    ensures size { length result ≡ 4 }
    ensures word { (bits : List Bool) (k i : ℕ) → state ≡ state_before bits k → bit ≡ bit_back bits k 0
        → 1 ≤ i → i ≤ M.OUTS → slice_index_or result (i - 1) false ≡ output M.taps bits k i }
{
    let mut all = [false; 4];
    for i in 0..M::OUTS {
        all[i] = output_of::<M>(state, bit, i + 1);
    }
    all
}

/// Output `out` of a step that takes `bit` in `state`.
fn output_of<M: Mother>(state: u8, bit: bool, out: usize) -> bool
    requires small { state < 16 }
    requires out_first { 1 ≤ out }
    requires out_last { out ≤ M.OUTS }
    ensures { result ≡ edge M.taps state bit out }
{
    let mut sum = bit && M::tap(out, 0);
    for j in 1..5 {
        let is_set = (state >> (4 - j)) % 2 == 1;
        if is_set && M::tap(out, j) {
            sum = !sum;
        }
    }
    sum
}

// The clauses say every value. This calls each function once at a concrete code: after one bit that is
// set, G2 skips its own D.
#[cfg(test)]
mod tests {
    use super::{Quarter, Third, code, next, outs};

    #[test]
    fn one_bit_writes_a_generator(rt: HostRuntime) {
        let bits = [true, false, false];
        assert!(rt; code::<Quarter>(&bits, 1, 2));
        assert!(rt; !code::<Quarter>(&bits, 2, 2));
        assert!(rt; outs::<Quarter>(0, true)[1]);
        assert!(rt; !outs::<Quarter>(next(0, true), false)[1]);
        assert!(rt; code::<Third>(&bits, 2, 2));
        assert!(rt; !code::<Third>(&bits, 2, 3));
    }
}
