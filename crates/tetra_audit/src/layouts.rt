// How many bytes the fields of a record have.
ghost use Rattle.std.specs.Prelude.{◌≡◌, ◌≤◌};
ghost use Rattle.tetra_session.specs.Fronts.{IsFront};
ghost use Rattle.tetra_audit.specs.Fields.{field_length, claim_length};

use tetra_session::{Front, FrontField};

/// The bytes of a field: its mark, its metric, its bits, and its certificate, which a field that is not
/// there yet has not.
#[tactic(auto, unfolding(crate::specs::Fields::field_length))]
pub fn field_len(field: &FrontField) -> usize
    ensures bytes { result ≡ field_length field.now }
    ensures few { result ≤ 9433 }
{
    let rows = if field.soft.is_some() {
        field.name.certificate_rows()
    } else {
        0
    };
    3 + field.name.message_bytes() + 32 * rows
}

/// The length of the reading record of a slot with certificates, as its letter and its fields give it:
/// at most 18,743 bytes. This project's own.
pub fn claim_len(front: &Front) -> usize
    requires { IsFront front.now }
    ensures length { result ≡ claim_length front.now }
    ensures most { result ≤ 18743 }
{
    let mut len = 1;
    for field in front.fields.as_slice() {
        len += field_len(field);
    }
    len
}
