// The audit of a slot.
ghost use Rattle.std.specs.Prelude.{◌≡◌, length};
ghost use Rattle.tetra_session.specs.Fronts.{IsFront};
ghost use Rattle.tetra_audit.specs.Fields.{claim_length};
ghost use Rattle.tetra_audit.specs.Verdicts.{slot_verdict};

use crate::fields::field_fault;
use crate::layouts::field_len;
use crate::verdict::SlotVerdict;
use tetra_bits::Potentials;
use tetra_rm::{AccessCode, Rows};
use tetra_session::Front;

/// Whether `claim`, a reading record with certificates of `claim_len` bytes, agrees with the letter and
/// the soft values of a slot. The first failing test gives the verdict: first the letter, then for each
/// field in order its pad bits, its bits where they come by no trellis, its certificate, its metric and
/// its mark. `rows` are those of the access code. This project's own.
pub fn audit_slot(rows: &Rows, front: &Front, claim: &[u8]) -> SlotVerdict
    requires front { IsFront front.now }
    requires size { length claim.now ≡ claim_length front.now }
    ensures { result ≡ slot_verdict rows.now front.now claim.now }
{
    audit_slot_with(&mut Potentials::new(), &AccessCode::of(rows), front, claim)
}

/// The same by the access code of the rows, which is made once for many slots, and with potentials into which certificates
/// are read, whatever they hold.
pub fn audit_slot_with(
    potentials: &mut Potentials,
    code: &AccessCode,
    front: &Front,
    claim: &[u8],
) -> SlotVerdict
    requires front { IsFront front.now }
    requires size { length claim.now ≡ claim_length front.now }
    ensures { result ≡ slot_verdict code.now front.now claim.now }
{
    if claim[0] != front.letter {
        return SlotVerdict::Kind;
    }
    let mut at = 1;
    for (i, field) in front.fields.as_slice().iter().enumerate() {
        let end = at + field_len(field);
        if let Some(why) = field_fault(code, field, &claim[at..end], potentials) {
            return SlotVerdict::Field {
                index: i as u8,
                why,
            };
        }
        at = end;
    }
    SlotVerdict::Agrees
}
