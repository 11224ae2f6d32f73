// Reading records: the bytes of a reading with its certificates, and their audit.
ghost use Rattle.std.specs.Prelude.{◌≡◌, ◌≢◌, ◌<◌, ◌≤◌, ◌+◌, ◌-◌, ◌++◌, ◌∷◌, [], pos, length, map, take, List, ℤ, All, IfOk, IsOk, IsErr, None};
ghost use Rattle.std.specs.List.{flat_map};
ghost use Rattle.std.specs.Result.{result_err};
ghost use Rattle.tetra_audit.specs.Fields.{claim_length};
ghost use Rattle.tetra_audit.specs.Verdicts.{slot_verdict};
ghost use Rattle.tetra_records.specs.Readings.{field_bytes, reading_spelling};
ghost use Rattle.tetra_records.specs.lemmas.Lengths.{rooms_left};
ghost use Rattle.tetra_session.specs.Begun.{IsLastGood};
ghost use Rattle.tetra_session.specs.Fronts.{IsFront, IsFrontField};
ghost use Rattle.tetra_session.specs.Heard.{HeardStands, slot_front, slot_reading};
ghost use Rattle.tetra_session.specs.Readers.{read_field};
ghost use Rattle.tetra_settings.specs.Validity.{IsValid};
ghost use Rattle.tetra_c.specs.Faults.{answer_of, number_of};
ghost use Rattle.tetra_c.specs.KeptWords.{KeptStands};
ghost use Rattle.tetra_c.specs.Receivers.{receiver_fault, ReceiverIs};
ghost use Rattle.tetra_c.specs.Records.{form_of, audit_for, claim_fault};
ghost use Rattle.tetra_c.specs.Values.{soft_values};

use crate::fault::Fault;
use crate::kept_words::TetraKeptWords;
use crate::readings::TetraField;
use crate::receiver::{TetraReceiver, empty_front, lane_at, ready};
use crate::soft::slot_values;
use crate::verdict::{TetraVerdict, verdict_for};
use tetra_audit::{FieldWhy, SlotVerdict, audit_slot_with, claim_len};
use tetra_bits::{Bits, Potentials};
use tetra_cert::Verdict;
use tetra_records::write_parts;
use tetra_rm::AccessCode;
use tetra_scramble::key;
use tetra_session::{
    Front, FrontField, Work, hear_before_load, hear_rest, hear_turn, is_good, read_heard,
};
use tetra_settings::{Form, Settings};

/// The form of a record: with certificates where the number is not 0.
fn form_of(certificates: u8) -> Form
    ensures { result ≡ form_of certificates }
{
    if certificates == 0 {
        Form::Plain
    } else {
        Form::Audit
    }
}

/// Fields of a record that are written: where they end, and whether the last of them was read as Good.
#[derive(Clone, Copy)]
struct Written {
    end: usize,
    last_good: bool,
}

/// Reads fields of a front, one at a time in `work`, and writes them as a record has them, from place `at` on. `message` is
/// filled on the way.
fn put_fields(
    code: &AccessCode,
    fields: &[FrontField],
    form: Form,
    message: &mut Bits,
    work: &mut TetraField,
    bytes: &mut [u8; 18743],
    at: usize,
) -> Written
    requires formed { All IsFrontField fields.now }
    requires room { at + rooms_left (map (read_field code.now.0) fields.now) ≤ 18743 }
    ensures bytes { take result.end bytes.new
        ≡ take at bytes.old ++ flat_map (field_bytes form) (map (read_field code.now.0) fields.now) }
    ensures room { result.end ≤ at + rooms_left (map (read_field code.now.0) fields.now) }
    ensures last { IsLastGood code.now.0 fields.now result.last_good }
{
    let mut end = at;
    let mut last_good = false;
    for i in 0..fields.len() {
        let outcome = read_heard(code, &fields[i], message, work);
        end = write_parts(outcome, message, work, form, bytes, end);
        last_good = is_good(outcome.mark);
    }
    Written { end, last_good }
}

/// Writes the reading record of the slot numbered `turn`, answers how many bytes it has, and takes the slot into the lane of
/// its timeslot. It is heard in two steps, so that a half slot is decoded once, and tells then where the load stands.
#[inline(never)]
fn record_slot(
    settings: &Settings,
    turn: u32,
    slot: &[i8; 510],
    form: Form,
    lane: &mut TetraKeptWords,
    field: &mut TetraField,
    bytes: &mut [u8; 18743],
) -> u32
    requires { IsValid settings.now }
    ensures bytes { (history : List (List ℤ)) → turn ≡ length history
        → HeardStands KeptStands settings.now turn history lane.old
        → take result bytes.new ≡ reading_spelling form (slot_reading settings.now history (soft_values slot.now)) }
    ensures stands { (history : List (List ℤ)) → turn ≡ length history
        → HeardStands KeptStands settings.now turn history lane.old
        → HeardStands KeptStands settings.now turn (history ++ soft_values slot.now ∷ []) lane.new }
{
    let key = key(&settings.colour);
    let code = AccessCode::of(&settings.rows);
    let soft = slot_values(slot);
    let mut work = Work::new();
    let mut message = Bits::new();
    let mut front = empty_front();
    hear_before_load(settings, &key, turn, &mut work, &soft, &mut front);
    let begun = front.fields.len();
    bytes[0] = front.letter;
    let first = put_fields(&code, &front.fields, form, &mut message, field, bytes, 1);
    hear_rest(
        settings,
        &key,
        turn,
        lane,
        first.last_good,
        &mut work,
        &soft,
        &mut front,
    );
    let rest = &front.fields[begun..];
    put_fields(&code, rest, form, &mut message, field, bytes, first.end).end as u32
}

/// Writes the reading record of the slot whose turn it is, and answers how many bytes it has.
fn record_next(
    receiver: &mut TetraReceiver,
    slot: &[i8; 510],
    form: Form,
    bytes: &mut [u8; 18743],
) -> Result<u32, Fault>
    ensures fault { result_err result ≡ receiver_fault receiver.old }
    ensures bytes { IfOk result (λ written. (settings : Settings) (history : List (List ℤ)) → ReceiverIs settings history receiver.old
        → take written bytes.new ≡ reading_spelling form (slot_reading settings history (soft_values slot.now))) }
    ensures stands { IsOk result → (settings : Settings) (history : List (List ℤ)) → ReceiverIs settings history receiver.old
        → ReceiverIs settings (history ++ soft_values slot.now ∷ []) receiver.new }
    ensures settings { receiver.new.settings ≡ receiver.old.settings }
    ensures turn { IsOk result → receiver.new.turn ≡ receiver.old.turn + 1 }
    ensures bytes_kept { IsErr result → bytes.new ≡ bytes.old }
    ensures kept { IsErr result → receiver.new ≡ receiver.old }
{
    let settings = ready(receiver)?;
    let at = lane_at(&settings, receiver.turn);
    let written = record_slot(
        &settings,
        receiver.turn,
        slot,
        form,
        &mut receiver.lanes[at],
        &mut receiver.work,
        bytes,
    );
    receiver.turn += 1;
    Ok(written)
}

/// Reads the slot whose turn it is from its 510 values, and writes its reading record, with certificates where
/// `certificates` is not 0: `written` bytes, at most 18,743. Answers 0, or the number of a fault, and then nothing is
/// written and it is still the turn of this slot: as `tetra_receiver_slot`.
#[unsafe(no_mangle)]
pub extern "C" fn tetra_receiver_record(
    receiver: &mut TetraReceiver,
    slot: &[i8; 510],
    certificates: u8,
    bytes: &mut [u8; 18743],
    written: &mut u32,
) -> i32
    ensures answer { result ≡ answer_of (receiver_fault receiver.old) }
    ensures bytes { result ≡ pos 0 → (settings : Settings) (history : List (List ℤ)) → ReceiverIs settings history receiver.old
        → take written.new bytes.new ≡ reading_spelling (form_of certificates)
        (slot_reading settings history (soft_values slot.now)) }
    ensures stands { result ≡ pos 0 → (settings : Settings) (history : List (List ℤ)) → ReceiverIs settings history receiver.old
        → ReceiverIs settings (history ++ soft_values slot.now ∷ []) receiver.new }
    ensures settings { receiver.new.settings ≡ receiver.old.settings }
    ensures turn { result ≡ pos 0 → receiver.new.turn ≡ receiver.old.turn + 1 }
    // What is kept is refused only where it was changed by another hand.
    ensures own { (settings : Settings) (history : List (List ℤ)) → ReceiverIs settings history receiver.old
        → result ≢ number_of Fault.Kept }
    ensures bytes_kept { result ≢ pos 0 → bytes.new ≡ bytes.old }
    ensures written_kept { result ≢ pos 0 → written.new ≡ written.old }
    ensures receiver_kept { result ≢ pos 0 → receiver.new ≡ receiver.old }
{
    match record_next(receiver, slot, form_of(certificates), bytes) {
        Ok(count) => {
            *written = count;
            0
        }
        Err(fault) => fault.number(),
    }
}

/// The verdict of an audit: `test` is 0 where the record is the defined one and its certificates are accepted; else it is
/// the first test that fails, 1 the letter, 2 the pad bits, 3 bits that come by no trellis, 4 the certificate, 5 the
/// metric or 6 the mark of the field numbered `field`, counted from 0, and of a certificate the rule and its place.
#[repr(C)]
#[derive(Clone, Copy, PartialEq, Eq, Debug)]
pub struct TetraAudit {
    pub test: u8,
    pub field: u8,
    pub certificate: TetraVerdict,
}

/// The verdict of a test that is no certificate's.
fn of_test(test: u8, field: u8) -> TetraAudit
    ensures { result ≡ record { test = test; field = field; certificate = record { step = 0; state = 0; rule = 0 } } }
{
    TetraAudit {
        test,
        field,
        certificate: verdict_for(Verdict::Accepted),
    }
}

/// A verdict for C.
fn audit_for(verdict: SlotVerdict) -> TetraAudit
    ensures { result ≡ audit_for verdict }
{
    match verdict {
        SlotVerdict::Agrees => of_test(0, 0),
        SlotVerdict::Kind => of_test(1, 0),
        SlotVerdict::Field { index, why } => match why {
            FieldWhy::Pad => of_test(2, index),
            FieldWhy::Bits => of_test(3, index),
            FieldWhy::Cert { step, state, rule } => TetraAudit {
                test: 4,
                field: index,
                certificate: verdict_for(Verdict::Refused { step, state, rule }),
            },
            FieldWhy::Metric => of_test(5, index),
            FieldWhy::Mark => of_test(6, index),
        },
    }
}

/// Audits a claim of the length of the front's record.
#[inline(never)]
fn audit(code: &AccessCode, front: &Front, claim: &[u8]) -> TetraAudit
    requires front { IsFront front.now }
    requires size { length claim.now ≡ claim_length front.now }
    ensures { result ≡ audit_for (slot_verdict code.now front.now claim.now) }
{
    audit_for(audit_slot_with(&mut Potentials::new(), code, front, claim))
}

/// Hears the slot numbered `turn`: writes its front over one that is there, and takes it into the lane of its timeslot.
#[inline(never)]
fn hear(
    settings: &Settings,
    turn: u32,
    slot: &[i8; 510],
    lane: &mut TetraKeptWords,
    front: &mut Front,
)
    requires { IsValid settings.now }
    ensures front { (history : List (List ℤ)) → turn ≡ length history
        → HeardStands KeptStands settings.now turn history lane.old
        → front.new ≡ slot_front settings.now history (soft_values slot.now) }
    ensures stands { (history : List (List ℤ)) → turn ≡ length history
        → HeardStands KeptStands settings.now turn history lane.old
        → HeardStands KeptStands settings.now turn (history ++ soft_values slot.now ∷ []) lane.new }
    ensures formed { IsFront front.new }
{
    hear_turn(
        settings,
        &key(&settings.colour),
        turn,
        lane,
        &mut Work::new(),
        &slot_values(slot),
        front,
    );
}

/// Audits a claim about the slot whose turn it is.
fn audited(
    receiver: &mut TetraReceiver,
    slot: &[i8; 510],
    claim: &[u8],
) -> Result<TetraAudit, Fault>
    ensures fault { receiver_fault receiver.old ≢ None → result_err result ≡ receiver_fault receiver.old }
    ensures length { receiver_fault receiver.old ≡ None → (settings : Settings) (history : List (List ℤ))
        → ReceiverIs settings history receiver.old → result_err result
        ≡ claim_fault (slot_front settings history (soft_values slot.now)) claim.now }
    ensures verdict { IfOk result (λ found. (settings : Settings) (history : List (List ℤ)) → ReceiverIs settings history receiver.old
        → found ≡ audit_for (slot_verdict settings.rows
        (slot_front settings history (soft_values slot.now)) claim.now)) }
    ensures stands { IsOk result → (settings : Settings) (history : List (List ℤ)) → ReceiverIs settings history receiver.old
        → ReceiverIs settings (history ++ soft_values slot.now ∷ []) receiver.new }
    ensures settings { receiver.new.settings ≡ receiver.old.settings }
    ensures turn { IsOk result → receiver.new.turn ≡ receiver.old.turn + 1 }
    ensures kept { IsErr result → receiver.new ≡ receiver.old }
{
    let settings = ready(receiver)?;
    let at = lane_at(&settings, receiver.turn);
    // A copy, so that nothing is written where the claim is too long or too short.
    let mut lane = receiver.lanes[at];
    let mut front = empty_front();
    hear(&settings, receiver.turn, slot, &mut lane, &mut front);
    if claim.len() != claim_len(&front) {
        return Err(Fault::Length);
    }
    receiver.lanes[at] = lane;
    receiver.turn += 1;
    Ok(audit(&AccessCode::of(&settings.rows), &front, claim))
}

/// Audits a reading record with certificates of the slot whose turn it is, whoever wrote it. Answers 0, and then the
/// verdict is written, or the number of a fault, and then nothing is written and it is still the turn of this slot: as
/// `tetra_receiver_slot`, and then -1 where the record is longer or shorter than that of this slot.
#[unsafe(no_mangle)]
pub extern "C" fn tetra_receiver_audit(
    receiver: &mut TetraReceiver,
    slot: &[i8; 510],
    claim: &[u8],
    verdict: &mut TetraAudit,
) -> i32
    ensures fault { receiver_fault receiver.old ≢ None → result ≡ answer_of (receiver_fault receiver.old) }
    ensures length { receiver_fault receiver.old ≡ None → (settings : Settings) (history : List (List ℤ))
        → ReceiverIs settings history receiver.old → result ≡ answer_of
        (claim_fault (slot_front settings history (soft_values slot.now)) claim.now) }
    ensures verdict { result ≡ pos 0 → (settings : Settings) (history : List (List ℤ)) → ReceiverIs settings history receiver.old
        → verdict.new ≡ audit_for (slot_verdict settings.rows
        (slot_front settings history (soft_values slot.now)) claim.now) }
    ensures stands { result ≡ pos 0 → (settings : Settings) (history : List (List ℤ)) → ReceiverIs settings history receiver.old
        → ReceiverIs settings (history ++ soft_values slot.now ∷ []) receiver.new }
    ensures settings { receiver.new.settings ≡ receiver.old.settings }
    ensures turn { result ≡ pos 0 → receiver.new.turn ≡ receiver.old.turn + 1 }
    // What is kept is refused only where it was changed by another hand.
    ensures own { (settings : Settings) (history : List (List ℤ)) → ReceiverIs settings history receiver.old
        → result ≢ number_of Fault.Kept }
    ensures verdict_kept { result ≢ pos 0 → verdict.new ≡ verdict.old }
    ensures receiver_kept { result ≢ pos 0 → receiver.new ≡ receiver.old }
{
    match audited(receiver, slot, claim) {
        Ok(found) => {
            *verdict = found;
            0
        }
        Err(fault) => fault.number(),
    }
}
