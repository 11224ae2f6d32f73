// What a trial counts.
ghost use Rattle.std.specs.Prelude.{◌≡◌, ◌≤◌, ◌+◌, ◌*◌, ◌^◌, ℕ, map, length};
ghost use Rattle.std.specs.Option.{option_map};
ghost use Rattle.tetra_trial.specs.Fields.{begins_with, comparison};
ghost use Rattle.tetra_trial.specs.Tallies.{no_slot, with_mark, with_comparison, with_field, with_fields, with_letter, AtMost};

use tetra_bits::{Bits, Mark};
use tetra_settings::Field;

/// What the readings of a trial's slots come to. This project's own.
#[derive(Clone, Copy, Debug, PartialEq, Eq)]
pub struct Tally {
    /// The slots.
    pub slots: u64,
    /// The slots that were read with the letter that was sent, P for Q.
    pub kinds: u64,
    /// The fields marked Good.
    pub good: u64,
    /// The fields marked Bad.
    pub bad: u64,
    /// The fields marked Unchecked.
    pub unchecked: u64,
    /// The fields marked NotYet.
    pub notyet: u64,
    /// The fields that begin with what was sent in their place.
    pub equal: u64,
    /// The fields that do not.
    pub differ: u64,
    /// The fields in whose place nothing was sent.
    pub other: u64,
    /// The sum of the metrics of all fields.
    pub metric: u64,
}

/// How a field compares with what was sent in its place.
#[derive(Clone, Copy, Debug, PartialEq, Eq)]
pub enum Comparison {
    /// It begins with it.
    Equal,
    /// It does not.
    Differ,
    /// Nothing was sent there.
    Other,
}

/// Whether bits begin with those in front.
fn begins_with(bits: &Bits, front: &Bits) -> bool
    ensures { result ≡ begins_with bits.now front.now }
{
    if bits.len() < front.len() {
        return false;
    }
    for i in 0..front.len() {
        if bits.get(i) != front.get(i) {
            return false;
        }
    }
    true
}

/// Compares the bits of a field with what was sent in its place.
pub fn compare(bits: &Bits, sent: Option<&Bits>) -> Comparison
    ensures { result ≡ comparison bits.now (option_map (λ s. s.now) sent.entry) }
{
    match sent {
        Some(sent) => {
            if begins_with(bits, sent) {
                Comparison::Equal
            } else {
                Comparison::Differ
            }
        }
        None => Comparison::Other,
    }
}

impl Tally {
    /// The tally of so many slots of which none is counted yet.
    pub fn new(slots: u32) -> Tally
        ensures { result ≡ no_slot slots }
    {
        Tally {
            slots: u64::from(slots),
            kinds: 0,
            good: 0,
            bad: 0,
            unchecked: 0,
            notyet: 0,
            equal: 0,
            differ: 0,
            other: 0,
            metric: 0,
        }
    }

    /// Counts whether a slot was read with the letter that was sent.
    pub fn add_letter(&mut self, same: bool)
        requires { AtMost (2 ^ 63) self.old }
        ensures { self.new ≡ with_letter same self.old }
    {
        if same {
            self.kinds += 1;
        }
    }

    /// Counts a field, with what was sent in its place.
    pub fn add_field(&mut self, field: &Field, sent: Option<&Bits>)
        requires { AtMost (2 ^ 63) self.old }
        ensures field { self.new ≡ with_field field.now (option_map (λ s. s.now) sent.entry) self.old }
        ensures most { (top : ℕ) → AtMost top self.old → AtMost (top + 2 ^ 33) self.new }
    {
        self.add_mark(field.reading.mark);
        self.add_comparison(compare(&field.reading.bits, sent));
        self.metric += u64::from(field.reading.metric);
    }

    fn add_mark(&mut self, mark: Mark)
        requires { AtMost (2 ^ 63 + 1) self.old }
        ensures { self.new ≡ with_mark mark self.old }
    {
        match mark {
            Mark::Good => self.good += 1,
            Mark::Bad => self.bad += 1,
            Mark::Unchecked => self.unchecked += 1,
            Mark::NotYet => self.notyet += 1,
        }
    }

    fn add_comparison(&mut self, comparison: Comparison)
        requires { AtMost (2 ^ 63 + 1) self.old }
        ensures { self.new ≡ with_comparison comparison self.old }
    {
        match comparison {
            Comparison::Equal => self.equal += 1,
            Comparison::Differ => self.differ += 1,
            Comparison::Other => self.other += 1,
        }
    }

    /// Counts the fields of a slot, with what was sent in their places.
    pub fn add_fields(&mut self, fields: &[Field], sent: [Option<&Bits>; 4])
        requires few { length fields.now ≤ 4 }
        requires room { AtMost (2 ^ 62) self.old }
        ensures fields { self.new ≡ with_fields fields.now (map (option_map (λ s. s.now)) sent.entry) self.old }
        ensures most { (top : ℕ) → AtMost top self.old → AtMost (top + 4 * 2 ^ 33) self.new }
    {
        for (i, field) in fields.iter().enumerate() {
            self.add_field(field, sent[i]);
        }
    }
}
