// The sent word of a message.
ghost use Rattle.std.specs.Prelude.{◌≡◌, ◌<◌, ◌≤◌, ◌+◌, ◌*◌, Bool, List, length, false};
ghost use Rattle.tetra_bits.specs.lemmas.InPlace.{Begins};
ghost use Rattle.tetra_mother.specs.Mother.{mother_bit};
ghost use Rattle.tetra_puncture.specs.Outputs.{AreOutputs};
ghost use Rattle.tetra_puncture.specs.Plan.{word, IsMessage, sent_bit, tailed};

use crate::outputs::{Outputs, outputs_of};
use crate::plan::Plan;
use tetra_bits::Bits;
use tetra_mother::Mother;

/// How many places are taken in a turn: a multiple of the places in most patterns, so that a loop of this length needs
/// no division.
pub const TURN: usize = 12;

/// The sent word of `message`, which has `STEPS - 4` bits: of the message and four tail bits 0 behind
/// it, the mother bits at the places of the plan, `SENT` bits (EN 300 392-2 clause 8.2.3).
pub fn keep<P: Plan>(message: &Bits) -> Bits
    requires sound { P.IsSound }
    requires size { IsMessage P.plan message.now }
    ensures word { result ≡ word P.plan message.now }
    ensures size { length result ≡ P.SENT }
{
    let mut sent = Bits::new();
    keep_into::<P>(message, &mut sent);
    sent
}

/// The answer of `keep`, written into `sent` in place of what stood there.
pub fn keep_into<P: Plan>(message: &Bits, sent: &mut Bits)
    requires sound { P.IsSound }
    requires size { IsMessage P.plan message.now }
    ensures word { sent.new ≡ word P.plan message.now }
    ensures size { length sent.new ≡ P.SENT }
{
    let outputs = outputs_of::<P::Code>(message);
    sent.resize(P::SENT);
    let turns = P::SENT / TURN;
    for turn in 0..turns {
        write::<P>(&outputs, sent, TURN * turn, TURN);
    }
    write::<P>(&outputs, sent, TURN * turns, P::SENT - TURN * turns);
}

/// Writes so many sent bits, from bit `first` on, which counts from 0.
fn write<P: Plan>(outputs: &Outputs, sent: &mut Bits, first: usize, count: usize)
    requires sound { P.IsSound }
    requires last { first + count ≤ P.SENT }
    requires size { length sent.old ≡ P.SENT }
    ensures size { length sent.new ≡ P.SENT }
    ensures written { (m : List Bool) → AreOutputs P.plan.taps P.plan.outs m outputs.now
        → Begins (sent_bit P.plan m) false first sent.old → Begins (sent_bit P.plan m) false (first + count) sent.new }
{
    for i in 0..count {
        let place = P::place(first + i + 1);
        sent.set(first + i, mother_bit::<P>(outputs, place));
    }
}

/// The bit at a place of the mother word.
fn mother_bit<P: Plan>(outputs: &Outputs, place: usize) -> bool
    requires sound { P.IsSound }
    requires first { 1 ≤ place }
    requires last { place ≤ P.plan.outs * P.plan.steps }
    ensures { (m : List Bool) → AreOutputs P.plan.taps P.plan.outs m outputs.now
        → result ≡ mother_bit P.plan.taps P.plan.outs (tailed m) place }
{
    let outs = P::Code::OUTS;
    let at = place - 1;
    outputs[at % outs][at / outs]
}
