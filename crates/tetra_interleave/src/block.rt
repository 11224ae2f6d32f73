// Block interleavers.
ghost use Rattle.std.specs.Prelude.{◌≡◌, ◌<◌, ◌≤◌, ◌+◌, ◌-◌, ◌*◌, ◌%◌, ℕ, Bool, List, ℤ, pos, false, length, slice_index_or};
ghost use Rattle.tetra_bits.specs.Numbered.{numbered};
ghost use Rattle.tetra_interleave.specs.Block.{IsBlock, block_place};
ghost use Rattle.tetra_interleave.specs.Placed.{IsPlaced, placed, taken};
ghost use Rattle.tetra_interleave.specs.Steps.{step_entry, IsTwice};
ghost use Rattle.tetra_bits.specs.Soft.{IsSoft, value_at};
ghost use Rattle.tetra_bits.specs.lemmas.InPlace.{Begins};

use tetra_bits::{Bits, Soft};

/// The block interleaver of `K` entries, EN 300 392-2 clause 8.2.4: entry i goes to place
/// `1 + (A i mod K)`, for i from 1 to `K`. `K` is at most 432, `A` and `INV` are below `K`, and
/// `A INV mod K` is 1. Each list has `K` entries.
pub struct Block<const K: usize, const A: usize, const INV: usize>;

impl<const K: usize, const A: usize, const INV: usize> Block<K, A, INV> {
    /// The bits at their places.
    pub fn bits_out(x: &Bits) -> Bits
        requires fits { IsBlock K A INV }
        requires size { length x.now ≡ K }
        ensures places { IsPlaced false K (block_place K A) x.now result }
        ensures value { result ≡ placed false K (block_place K A) x.now }
        ensures back { taken false K (block_place K A) result ≡ x.now }
        ensures only { (z : List Bool) → IsPlaced false K (block_place K A) z result → z ≡ x.now }
    {
        bits_by_steps::<K>(x, K - 1, INV)
    }

    /// The list that has these bits at its places.
    pub fn bits_back(x: &Bits) -> Bits
        requires fits { IsBlock K A INV }
        requires size { length x.now ≡ K }
        ensures places { IsPlaced false K (block_place K A) result x.now }
        ensures value { result ≡ taken false K (block_place K A) x.now }
        ensures out { placed false K (block_place K A) result ≡ x.now }
        ensures only { (z : List Bool) → IsPlaced false K (block_place K A) result z → z ≡ x.now }
    {
        bits_by_steps::<K>(x, A, A)
    }

    /// The list that has these soft values at its places.
    pub fn soft_back(x: &Soft) -> Soft
        requires fits { IsBlock K A INV }
        requires size { length x.now ≡ K }
        ensures places { IsPlaced (pos 0) K (block_place K A) result x.now }
        ensures value { result ≡ taken (pos 0) K (block_place K A) x.now }
        ensures out { placed (pos 0) K (block_place K A) result ≡ x.now }
        ensures only { (z : List ℤ) → IsPlaced (pos 0) K (block_place K A) result z → z ≡ x.now }
    {
        let mut all = Soft::new();
        Self::soft_back_into(x, &mut all);
        all
    }

    /// Fills `all` with the list that has these soft values at its places.
    pub fn soft_back_into(x: &Soft, all: &mut Soft)
        requires fits { IsBlock K A INV }
        requires size { length x.now ≡ K }
        ensures places { IsPlaced (pos 0) K (block_place K A) all.new x.now }
        ensures value { all.new ≡ taken (pos 0) K (block_place K A) x.now }
        ensures out { placed (pos 0) K (block_place K A) all.new ≡ x.now }
        ensures only { (z : List ℤ) → IsPlaced (pos 0) K (block_place K A) all.new z → z ≡ x.now }
    {
        values_by_steps::<K>(x, A, A, all);
    }
}

/// How many entries are taken in a turn: in a loop of this length no place waits for the one before it.
const TURN: usize = 8;

/// The bits from place `from` on, each `by` places further modulo `K`. Places count from 0 here.
fn bits_by_steps<const K: usize>(x: &Bits, from: usize, by: usize) -> Bits
    requires few { K ≤ 432 }
    requires size { length x.now ≡ K }
    requires place { from < K }
    requires step { by < K }
    ensures { result ≡ numbered (step_entry false K from by x.now) K }
{
    let mut twice = [false; 864];
    write_bits_twice::<K>(x, &mut twice);
    let mut all = Bits::zeros(K);
    let mut at = from;
    for turn in 0..K / TURN {
        take_bits::<K>(&twice, at, by, &mut all, TURN * turn, TURN);
        at = moved::<K>(at, TURN * by % K);
    }
    take_bits::<K>(&twice, at, by, &mut all, K / TURN * TURN, K % TURN);
    all
}

/// The same of soft values, into a list that is there.
fn values_by_steps<const K: usize>(x: &Soft, from: usize, by: usize, all: &mut Soft)
    requires few { K ≤ 432 }
    requires size { length x.now ≡ K }
    requires place { from < K }
    requires step { by < K }
    ensures { all.new ≡ numbered (step_entry (pos 0) K from by x.now) K }
{
    let mut twice = [0; 864];
    write_values_twice::<K>(x, &mut twice);
    all.resize(K);
    let mut at = from;
    for turn in 0..K / TURN {
        take_values::<K>(&twice, at, by, all, TURN * turn, TURN);
        at = moved::<K>(at, TURN * by % K);
    }
    take_values::<K>(&twice, at, by, all, K / TURN * TURN, K % TURN);
}

/// Writes the bits twice, the second time behind the first, so that the sum of two places below `K` is a place of the
/// same bit as its rest modulo `K`.
fn write_bits_twice<const K: usize>(x: &Bits, twice: &mut [bool; 864])
    requires few { K ≤ 432 }
    requires size { length x.now ≡ K }
    ensures { IsTwice false K K x.now twice.new }
{
    for i in 0..K {
        let bit = x.get(i);
        twice[i] = bit;
        twice[i + K] = bit;
    }
}

/// The same of soft values.
fn write_values_twice<const K: usize>(x: &Soft, twice: &mut [i16; 864])
    requires few { K ≤ 432 }
    requires size { length x.now ≡ K }
    ensures twice { IsTwice (pos 0) K K x.now twice.new }
    ensures soft { (k : ℕ) → k < 2 * K → IsSoft (value_at twice.new k) }
{
    for i in 0..K {
        let value = x.get(i);
        twice[i] = value;
        twice[i + K] = value;
    }
}

/// Takes so many bits, from entry `first` on, which stands at place `at`, each `by` places further.
#[inline(always)]
fn take_bits<const K: usize>(
    twice: &[bool; 864],
    at: usize,
    by: usize,
    all: &mut Bits,
    first: usize,
    count: usize,
)
    requires few { K ≤ 432 }
    requires place { at < K }
    requires step { by < K }
    requires last { first + count ≤ K }
    requires size { length all.old ≡ K }
    ensures size { length all.new ≡ K }
    ensures taken { (x : List Bool) (from : ℕ) → IsTwice false K K x twice.now → at ≡ (from + by * first) % K
        → Begins (step_entry false K from by x) false first all.old → Begins (step_entry false K from by x) false (first + count) all.new }
{
    for i in 0..count {
        all.set(first + i, twice[at + by * i % K]);
    }
}

/// The same of soft values.
#[inline(always)]
fn take_values<const K: usize>(
    twice: &[i16; 864],
    at: usize,
    by: usize,
    all: &mut Soft,
    first: usize,
    count: usize,
)
    requires few { K ≤ 432 }
    requires place { at < K }
    requires step { by < K }
    requires last { first + count ≤ K }
    requires size { length all.old ≡ K }
    requires soft { (k : ℕ) → k < 2 * K → IsSoft (value_at twice.now k) }
    ensures size { length all.new ≡ K }
    ensures taken { (x : List ℤ) (from : ℕ) → IsTwice (pos 0) K K x twice.now → at ≡ (from + by * first) % K
        → Begins (step_entry (pos 0) K from by x) (pos 0) first all.old → Begins (step_entry (pos 0) K from by x) (pos 0) (first + count) all.new }
{
    for i in 0..count {
        all.set(first + i, twice[at + by * i % K]);
    }
}

/// The place `by` places further, modulo `K`: one comparison is faster than a division.
fn moved<const K: usize>(at: usize, by: usize) -> usize
    requires few { K ≤ 432 }
    requires place { at < K }
    requires step { by < K }
    ensures { result ≡ (at + by) % K }
{
    let reached = at + by;
    if reached < K { reached } else { reached - K }
}

// Which way the places go, on a few entries.
#[cfg(test)]
mod tests {
    use super::Block;
    use tetra_bits::{Bits, Soft};

    fn one_at(i: usize) -> Bits
        ensures { length result ≡ 216 }
    {
        let mut all = Bits::new();
        for k in 1..217usize {
            all.push(k == i);
        }
        all
    }

    fn high_at(place: usize) -> Soft
        ensures { length result ≡ 120 }
    {
        let mut all = Soft::new();
        for k in 1..121usize {
            all.push(if k == place { 100 } else { -3 });
        }
        all
    }

    #[test]
    fn places(rt: HostRuntime) {
        for (entry, place) in [(216usize, 1usize), (1, 102)] {
            let sent = Block::<216, 101, 77>::bits_out(&one_at(entry));
            assert!(rt; sent == one_at(place));
            assert!(rt; Block::<216, 101, 77>::bits_back(&sent) == one_at(entry));
        }
    }

    #[test]
    fn values(rt: HostRuntime) {
        for (entry, place) in [(120usize, 1usize), (1, 12)] {
            let received = Block::<120, 11, 11>::soft_back(&high_at(place));
            assert!(rt; received.len() == 120);
            for k in 0..received.len() {
                assert!(rt; received.get(k) == if k + 1 == entry { 100 } else { -3 });
            }
        }
    }
}
