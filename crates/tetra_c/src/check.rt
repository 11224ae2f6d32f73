// The checker of certificates alone.
ghost use Rattle.std.specs.Prelude.{◌≡◌, ◌≢◌, ◌≤◌, pos, length, Some};
ghost use Rattle.tetra_cert.specs.Verdicts.{verdict_of};
ghost use Rattle.tetra_puncture.specs.Plan.{CodePlan};
ghost use Rattle.tetra_c.specs.Bytes.{bits_of};
ghost use Rattle.tetra_c.specs.Checks.{plan_of, plan_fault, check_fault};
ghost use Rattle.tetra_c.specs.Faults.{answer_of};
ghost use Rattle.tetra_c.specs.Values.{soft_values};
ghost use Rattle.tetra_c.specs.Verdicts.{verdict_for};

use crate::bytes::{are_bits, bits_of};
use crate::fault::Fault;
use crate::soft::field_values;
use crate::verdict::{TetraVerdict, verdict_for};
use tetra_bits::Potentials;
use tetra_cert::check;
use tetra_puncture::{P148, P292, Plan, SpeechHalf, SpeechWhole, TwoThirds};

/// Reads a table, at most 293 rows, into an empty one.
fn read_table(rows: &[[u32; 16]], table: &mut Potentials)
    requires few { length rows.now ≤ 293 }
    requires empty { length table.old ≡ 0 }
    ensures { table.new ≡ rows.now }
{
    for row in rows {
        table.push(*row);
    }
}

/// Checks a message of the plan `P` with its table. Answers 0, and then the verdict is written, or the number of a fault.
fn check_with<P: Plan>(
    values: &[i8],
    message: &[u8],
    rows: &[[u32; 16]],
    verdict: &mut TetraVerdict,
) -> i32
    requires sound { P.IsSound }
    ensures answer { result ≡ answer_of (plan_fault P.plan values.now message.now (length rows.now)) }
    ensures verdict { result ≡ pos 0
        → verdict.new ≡ verdict_for (verdict_of P.plan (soft_values values.now) (bits_of message.now) rows.now) }
    ensures kept { result ≢ pos 0 → verdict.new ≡ verdict.old }
{
    if values.len() != P::SENT || message.len() + 4 != P::STEPS || rows.len() != P::STEPS + 1 {
        return Fault::Length.number();
    }
    if !are_bits(message) {
        return Fault::Bit.number();
    }
    let mut table = Potentials::new();
    read_table(rows, &mut table);
    *verdict = verdict_for(check::<P>(&field_values(values), &bits_of(message), &table));
    0
}

/// Checks whether potentials, whoever made them, show that a message is the first-least one over the values of a field,
/// and writes the verdict: rule 0 exactly where they do. `channel` is the number of the field's name: 1 BSCH, 2 a half
/// slot, 3 SCH/HU, 4 SCH/F, 6 TCH/4.8, 7 TCH/2.4, and of speech the part with a code, 8 in a whole slot and 9 in half a
/// slot. The values are in the order of type-3 bits, the message has a byte for each bit, and the potentials a row of 16
/// before each step and one behind the last. Answers 0, or the number of a fault, and then nothing is written: -9 where
/// there is no such field, -1 for a length that is not the field's, -2 for a byte of the message that is neither 0 nor 1.
#[unsafe(no_mangle)]
pub extern "C" fn tetra_check(
    channel: u8,
    values: &[i8],
    message: &[u8],
    potentials: &[[u32; 16]],
    verdict: &mut TetraVerdict,
) -> i32
    ensures answer { result ≡ answer_of (check_fault channel values.now message.now (length potentials.now)) }
    ensures verdict { (plan : CodePlan) → plan_of channel ≡ Some plan → result ≡ pos 0
        → verdict.new ≡ verdict_for (verdict_of plan (soft_values values.now) (bits_of message.now) potentials.now) }
    ensures kept { result ≢ pos 0 → verdict.new ≡ verdict.old }
{
    match channel {
        1 => check_with::<TwoThirds<80, 120>>(values, message, potentials, verdict),
        2 => check_with::<TwoThirds<144, 216>>(values, message, potentials, verdict),
        3 => check_with::<TwoThirds<112, 168>>(values, message, potentials, verdict),
        4 => check_with::<TwoThirds<288, 432>>(values, message, potentials, verdict),
        6 => check_with::<P292>(values, message, potentials, verdict),
        7 => check_with::<P148>(values, message, potentials, verdict),
        8 => check_with::<SpeechWhole>(values, message, potentials, verdict),
        9 => check_with::<SpeechHalf>(values, message, potentials, verdict),
        _ => Fault::Field.number(),
    }
}
