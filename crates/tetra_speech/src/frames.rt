// Two frames side by side, and the parts of what is read.
ghost use Rattle.std.specs.Prelude.{◌≡◌, ◌≤◌, ◌+◌, ◌*◌, ◌⊎◌, ◌++◌, length, take, drop};
ghost use Rattle.tetra_speech.specs.Frames.{alternated, trellis_part, uncoded_part, whole_uncoded, whole_coded, whole_bits, half_uncoded, half_coded, half_bits};

use crate::sorting::class_place;
use tetra_bits::Bits;

/// The free bits of the trellis in coding order: 180 of the 282 bits of a whole slot, or 90 of the 141 of half a slot.
/// This project's own.
pub fn trellis_part(bits: &Bits) -> Bits
    requires { (length bits.now ≡ 282) ⊎ (length bits.now ≡ 141) }
    ensures part { result ≡ trellis_part bits.now }
    ensures whole { length bits.now ≡ 282 → length result ≡ 180 }
    ensures half { length bits.now ≡ 141 → length result ≡ 90 }
{
    if bits.len() == 282 {
        part(&whole_sorted(bits), 102, 180)
    } else {
        part(&half_sorted(bits), 51, 90)
    }
}

/// The bits that are sent uncoded: 102 of the 282 bits of a whole slot, or 51 of the 141 of half a slot. This project's
/// own.
pub fn uncoded_part(bits: &Bits) -> Bits
    requires { (length bits.now ≡ 282) ⊎ (length bits.now ≡ 141) }
    ensures part { result ≡ uncoded_part bits.now }
    ensures whole { length bits.now ≡ 282 → length result ≡ 102 }
    ensures half { length bits.now ≡ 141 → length result ≡ 51 }
{
    if bits.len() == 282 {
        part(&whole_sorted(bits), 0, 102)
    } else {
        part(&half_sorted(bits), 0, 51)
    }
}

/// The 102 uncoded and behind them the 180 coded bits of the 282 of a whole slot.
pub(crate) fn whole_sorted(bits: &Bits) -> Bits
    requires { length bits.now ≡ 282 }
    ensures bits { result ≡ whole_uncoded bits.now ++ whole_coded bits.now }
    ensures size { length result ≡ 282 }
{
    // The bits of both frames stand side by side, in the order of their classes, and the parity bits stay where they are.
    let mut sorted = bits.copy();
    for i in 0..137usize {
        let place = class_place(i) - 1;
        sorted.set(2 * i, bits.get(place));
        sorted.set(2 * i + 1, bits.get(137 + place));
    }
    sorted
}

/// The 51 uncoded and behind them the 90 coded bits of the 141 of half a slot.
pub(crate) fn half_sorted(bits: &Bits) -> Bits
    requires { length bits.now ≡ 141 }
    ensures bits { result ≡ half_uncoded bits.now ++ half_coded bits.now }
    ensures size { length result ≡ 141 }
{
    let mut sorted = bits.copy();
    for i in 0..137usize {
        sorted.set(i, bits.get(class_place(i) - 1));
    }
    sorted
}

/// The 282 bits of a whole slot by its 102 uncoded and its 180 coded bits: frames A and B, and 8 parity bits. They are
/// written into a list that is there.
pub(crate) fn whole_bits_into(uncoded: &Bits, coded: &Bits, bits: &mut Bits)
    requires uncoded { length uncoded.now ≡ 102 }
    requires coded { length coded.now ≡ 180 }
    ensures bits { bits.new ≡ whole_bits uncoded.now coded.now }
    ensures size { length bits.new ≡ 282 }
{
    // The bits of both frames stand side by side here, in the order of their classes, and the parity bits at their place.
    let sorted = joined(uncoded, coded);
    *bits = sorted.copy();
    for i in 0..137usize {
        let place = class_place(i) - 1;
        bits.set(place, sorted.get(2 * i));
        bits.set(137 + place, sorted.get(2 * i + 1));
    }
}

/// The 141 bits of half a slot by its 51 uncoded and its 90 coded bits: a frame and 4 parity bits. They are written into a
/// list that is there.
pub(crate) fn half_bits_into(uncoded: &Bits, coded: &Bits, bits: &mut Bits)
    requires uncoded { length uncoded.now ≡ 51 }
    requires coded { length coded.now ≡ 90 }
    ensures bits { bits.new ≡ half_bits uncoded.now coded.now }
    ensures size { length bits.new ≡ 141 }
{
    let sorted = joined(uncoded, coded);
    *bits = sorted.copy();
    for i in 0..137usize {
        bits.set(class_place(i) - 1, sorted.get(i));
    }
}

/// Two lists of one length alternating.
pub(crate) fn alternated(a: &Bits, b: &Bits) -> Bits
    requires same { length a.now ≡ length b.now }
    requires few { 2 * length a.now ≤ 432 }
    ensures bits { result ≡ alternated a.now b.now }
    ensures size { length result ≡ 2 * length a.now }
{
    let mut both = Bits::zeros(2 * a.len());
    for i in 0..a.len() {
        both.set(2 * i, a.get(i));
        both.set(2 * i + 1, b.get(i));
    }
    both
}

/// So many bits from the one at `from` on, which counts from 0.
pub fn part(bits: &Bits, from: usize, count: usize) -> Bits
    requires { from + count ≤ length bits.now }
    ensures bits { result ≡ take count (drop from bits.now) }
    ensures size { length result ≡ count }
{
    let _len = bits.len();
    let mut part = Bits::zeros(count);
    for i in 0..count {
        part.set(i, bits.get(from + i));
    }
    part
}

/// The bits of two lists behind one another.
pub(crate) fn joined(first: &Bits, second: &Bits) -> Bits
    requires { length first.now + length second.now ≤ 432 }
    ensures bits { result ≡ first.now ++ second.now }
    ensures size { length result ≡ length first.now + length second.now }
{
    let front = first.len();
    let mut all = first.copy();
    all.resize(front + second.len());
    for i in 0..second.len() {
        all.set(front + i, second.get(i));
    }
    all
}
