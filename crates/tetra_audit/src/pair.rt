//! Two claims about one slot, from any two hands.
ghost use Rattle.std.specs.Prelude.{◌≡◌, length};
ghost use Rattle.tetra_session.specs.Fronts.{IsFront};
ghost use Rattle.tetra_audit.specs.Fields.{claim_length};
ghost use Rattle.tetra_audit.specs.Pairs.{AgreeOutside, AgreeOnPath};
ghost use Rattle.tetra_audit.specs.Verdicts.{slot_verdict};

use crate::slots::audit_slot_with;
use crate::verdict::SlotVerdict;
use tetra_bits::Potentials;
use tetra_rm::{AccessCode, Rows};
use tetra_session::Front;

/// The verdicts of `audit_slot` on two claims of `claim_len` bytes about the same slot. Where both are `Agrees`, the
/// claims are equal at every byte outside certificates, and inside at every potential of a state that the message of
/// the field passes: they can differ only in potentials of other states. `rows` are those of the access code. This
/// project's own.
pub fn audit_pair(
    rows: &Rows,
    front: &Front,
    first: &[u8],
    second: &[u8],
) -> (SlotVerdict, SlotVerdict)
    requires front { IsFront front.now }
    requires first { length first.now ≡ claim_length front.now }
    requires second { length second.now ≡ claim_length front.now }
    ensures first { result.0 ≡ slot_verdict rows.now front.now first.now }
    ensures second { result.1 ≡ slot_verdict rows.now front.now second.now }
    ensures outside { result.0 ≡ SlotVerdict.Agrees → result.1 ≡ SlotVerdict.Agrees
        → AgreeOutside front.now first.now second.now }
    ensures on_path { result.0 ≡ SlotVerdict.Agrees → result.1 ≡ SlotVerdict.Agrees
        → AgreeOnPath front.now first.now second.now }
{
    let code = AccessCode::of(rows);
    let mut potentials = Potentials::new();
    let of_first = audit_slot_with(&mut potentials, &code, front, first);
    let of_second = audit_slot_with(&mut potentials, &code, front, second);
    (of_first, of_second)
}
