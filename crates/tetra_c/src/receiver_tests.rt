// Each export once, as C calls it: what its clauses say of all values holds of these, and a call can succeed.
ghost use Rattle.std.specs.Prelude.{◌≤◌};

use crate::check::tetra_check;
use crate::readings::{TetraField, TetraReading};
use crate::receiver::{TetraReceiver, tetra_receiver_init, tetra_receiver_slot};
use crate::records::{TetraAudit, tetra_receiver_audit, tetra_receiver_record};
use crate::{TetraColour, TetraKeptWord, TetraKeptWords, TetraSettings, TetraVerdict};
use std::process::Abort;

const SETTINGS: TetraSettings = TetraSettings {
    colour: TetraColour {
        mcc: 262,
        mnc: 1001,
        cc: 7,
    },
    direction: 1,
    modes: [0, 4, 2, 9],
    at: 0,
};

const NO_VERDICT: TetraVerdict = TetraVerdict {
    step: 9,
    state: 9,
    rule: 9,
};

/// A receiver whose bytes say nothing.
fn no_receiver() -> TetraReceiver {
    TetraReceiver {
        settings: SETTINGS,
        turn: 9,
        lanes: [TetraKeptWords {
            count: 9,
            oldest: 9,
            words: [TetraKeptWord { values: [9; 432] }; 8],
        }; 4],
        work: no_field(),
    }
}

fn no_field() -> TetraField {
    TetraField {
        metric: 9,
        name: 9,
        mark: 9,
        bits: 9,
        rows: 9,
        message: [9; 432],
        potentials: [[9; 16]; 293],
    }
}

/// The first bytes of a record.
fn claim(bytes: &[u8; 18743], len: usize) -> &[u8]
    requires { len ≤ 18743 }
{
    &bytes[..len]
}

fn no_reading() -> TetraReading {
    TetraReading {
        letter: 9,
        count: 9,
        fields: [no_field(), no_field(), no_field(), no_field()],
    }
}

/// Asserts a number, and says which it is.
pub fn is(rt: &impl Abort, found: i64, wanted: i64, which: &str) {
    assert_eq!(rt; found, wanted, "{which}");
}

/// Begins a receiver, which succeeds.
fn begin(rt: &impl Abort, receiver: &mut TetraReceiver) {
    let answer = tetra_receiver_init(receiver, &SETTINGS);
    is(rt, i64::from(answer), 0, "begun");
    is(rt, i64::from(receiver.turn), 0, "its turn");
}

/// Asserts what a receiver answers to a slot of ones.
fn hears(rt: &impl Abort, receiver: &mut TetraReceiver, reading: &mut TetraReading, wanted: i64) {
    let answer = tetra_receiver_slot(receiver, &[1; 510], reading);
    is(rt, i64::from(answer), wanted, "a slot of ones");
}

/// Asserts the first field that is read of a slot of ones.
fn is_first(rt: &impl Abort, field: &TetraField) {
    is(rt, i64::from(field.name), 4, "its name");
    is(rt, i64::from(field.bits), 284, "its bits");
    is(rt, i64::from(field.rows), 289, "its rows");
}

#[test]
fn slots_are_read(rt: HostRuntime) {
    let mut receiver = no_receiver();
    let mut reading = no_reading();
    hears(&rt, &mut receiver, &mut reading, -7);
    is(&rt, i64::from(reading.count), 9, "no fields");
    begin(&rt, &mut receiver);
    hears(&rt, &mut receiver, &mut reading, 0);
    is(&rt, i64::from(receiver.turn), 1, "its turn");
    is(
        &rt,
        i64::from(reading.letter),
        i64::from(b'F'),
        "its letter",
    );
    is(&rt, i64::from(reading.count), 1, "its fields");
    is_first(&rt, &reading.fields[0]);
}

/// Writes the record of a slot of ones.
fn record(rt: &impl Abort, receiver: &mut TetraReceiver, bytes: &mut [u8; 18743]) {
    let mut written = 0;
    let answer = tetra_receiver_record(receiver, &[1; 510], 1, bytes, &mut written);
    is(rt, i64::from(answer), 0, "a record");
    // A letter, a mark, a metric, 284 bits and 289 rows.
    is(rt, i64::from(written), 9288, "its length");
    is(rt, i64::from(bytes[0]), i64::from(b'F'), "its letter");
}

/// Asserts what the audit of a slot of ones with this record answers, what it says, and the receiver's turn behind it.
fn audits(rt: &impl Abort, receiver: &mut TetraReceiver, claim: &[u8], wanted: [i64; 3]) {
    let mut audit = TetraAudit {
        test: 9,
        field: 9,
        certificate: NO_VERDICT,
    };
    let answer = tetra_receiver_audit(receiver, &[1; 510], claim, &mut audit);
    is(rt, i64::from(answer), wanted[0], "an audit");
    is(rt, i64::from(audit.test), wanted[1], "its test");
    is(
        rt,
        i64::from(receiver.turn),
        wanted[2],
        "the turn behind it",
    );
}

#[test]
fn records_are_audited(rt: HostRuntime) {
    let mut receiver = no_receiver();
    let mut bytes = [0; 18743];
    begin(&rt, &mut receiver);
    record(&rt, &mut receiver, &mut bytes);
    begin(&rt, &mut receiver);
    audits(&rt, &mut receiver, claim(&bytes, 9287), [-1, 9, 0]);
    audits(&rt, &mut receiver, claim(&bytes, 9288), [0, 0, 1]);
}

/// Asserts what a check of a certificate of zeros answers, over values of one, and the rule that it then names.
fn checks(
    rt: &impl Abort,
    channel: u8,
    message: &[u8],
    verdict: &mut TetraVerdict,
    wanted: [i64; 2],
) {
    let answer = tetra_check(channel, &[1; 432], message, &[[0; 16]; 289], verdict);
    is(rt, i64::from(answer), wanted[0], "a check");
    is(rt, i64::from(verdict.rule), wanted[1], "its rule");
}

#[test]
fn certificates_are_checked(rt: HostRuntime) {
    let mut verdict = NO_VERDICT;
    checks(&rt, 4, &[0; 284], &mut verdict, [0, 0]);
    checks(&rt, 4, &[1; 284], &mut verdict, [0, 4]);
    checks(&rt, 5, &[0; 284], &mut verdict, [-9, 4]);
    checks(&rt, 4, &[0; 283], &mut verdict, [-1, 4]);
    checks(&rt, 4, &[2; 284], &mut verdict, [-2, 4]);
}
