// Where bits go and from where values come, at places worked out by hand, and four blocks there and back.
ghost use Rattle.std.specs.Prelude.{◌≡◌, length};

use crate::{Gather, Spread};
use tetra_bits::{Bits, Soft};

/// 432 bits of which bit `i`, counted from 1, is 1; all are 0 where `i` is 0.
fn one_at(i: usize) -> Bits
    ensures { length result ≡ 432 }
{
    let mut all = Bits::new();
    for k in 1..433usize {
        all.push(k == i);
    }
    all
}

/// Values that say what the bits are.
fn heard(word: &Bits) -> Soft
    ensures { length result ≡ length word.now }
{
    let mut all = Soft::new();
    for k in 0..word.len() {
        all.push(if word.get(k) { -127 } else { 127 });
    }
    all
}

/// The bits that the values say.
fn said(values: &Soft) -> Bits {
    let mut all = Bits::new();
    for k in 0..values.len() {
        all.push(values.get(k) < 0);
    }
    all
}

#[test]
fn places_over_four(rt: HostRuntime) {
    for (bit, later, place) in [
        (1usize, 0usize, 1usize),
        (429, 0, 108),
        (2, 1, 109),
        (432, 3, 432),
    ] {
        let mut spread = Spread::<4>::new();
        let mut word = spread.push(&one_at(bit));
        for _block in 0..later {
            spread.push_into(&one_at(0), &mut word);
        }
        assert!(rt; word == one_at(place));
    }
}

#[test]
fn places_over_eight(rt: HostRuntime) {
    for (bit, later, place) in [
        (1usize, 0usize, 1usize),
        (425, 0, 54),
        (2, 1, 55),
        (432, 7, 432),
    ] {
        let mut spread = Spread::<8>::new();
        let mut word = spread.push(&one_at(bit));
        for _block in 0..later {
            spread.push_into(&one_at(0), &mut word);
        }
        assert!(rt; word == one_at(place));
    }
}

#[test]
fn four_blocks(rt: HostRuntime) {
    let mut spread = Spread::<4>::new();
    let mut gather = Gather::<4>::new();
    for m in 0..3usize {
        let word = spread.push(&one_at(m + 5));
        assert!(rt; gather.push(&heard(&word)).is_none());
    }
    let word = spread.push(&one_at(100));
    match gather.push(&heard(&word)) {
        Some(block) => assert!(rt; said(&block) == one_at(5)),
        None => assert!(rt; false),
    }
    let next = spread.push(&one_at(0));
    let mut block = Soft::new();
    assert!(rt; gather.push_into(&heard(&next), &mut block));
    assert!(rt; said(&block) == one_at(6));
}

#[test]
fn one_slot(rt: HostRuntime) {
    let word = Spread::<1>::new().push(&one_at(7));
    assert!(rt; word == one_at(7));
    match Gather::<1>::new().push(&heard(&word)) {
        Some(block) => assert!(rt; said(&block) == word),
        None => assert!(rt; false),
    }
}
