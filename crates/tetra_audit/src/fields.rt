// The audit of one field.
ghost use Rattle.std.specs.Prelude.{◌≡◌, ◌≤◌, ◌+◌, ◌-◌, ◌*◌, ℕ, Bool, List, None, length};
ghost use Rattle.tetra_bits.specs.Packed.{bytes_for};
ghost use Rattle.tetra_bits.specs.declared.reading.Reading.{Reading};
ghost use Rattle.tetra_channels.specs.Fields.{access_reading};
ghost use Rattle.tetra_parity.specs.Parity.{width};
ghost use Rattle.tetra_session.specs.Fronts.{IsFrontField};
ghost use Rattle.tetra_audit.specs.Fields.{field_length};
ghost use Rattle.tetra_audit.specs.Parts.{coded_why, part_why, plain_why, head_why, speech_part, IsSpeech};
ghost use Rattle.tetra_audit.specs.Verdicts.{field_why};

use crate::claims::read_table;
use crate::verdict::FieldWhy;
use tetra_bits::{Bits, Mark, Potentials, Soft, pack, read_plain, unpack};
use tetra_cert::{Verdict, check};
use tetra_parity::{Parity, mark};
use tetra_puncture::{P148, P292, Plan, SpeechHalf, SpeechWhole, TwoThirds};
use tetra_rm::{AccessCode, message_bits};
use tetra_session::FrontField;
use tetra_settings::FieldName;
use tetra_speech::{part, trellis_part, uncoded_part, values};

/// The last two tests: the metric and the mark.
#[tactic(auto, using(crate::proofs::Testing::metric_differs, crate::proofs::Testing::mark_differs, crate::proofs::Testing::head_agrees))]
fn head_fault(bytes: &[u8], metric: u32, mark: Mark) -> Option<FieldWhy>
    requires { 3 ≤ length bytes.now }
    ensures { result ≡ head_why metric mark bytes.now }
{
    if 256 * u32::from(bytes[1]) + u32::from(bytes[2]) != metric {
        Some(FieldWhy::Metric)
    } else if bytes[0] != mark.byte() {
        Some(FieldWhy::Mark)
    } else {
        None
    }
}

/// The tests of a field whose bits come by no trellis.
fn plain_fault(bits: &Bits, metric: u32, mark: Mark, bytes: &[u8]) -> Option<FieldWhy>
    requires { length bytes.now ≡ 3 + bytes_for (length bits.now) }
    ensures { result ≡ plain_why
        (record { mark = mark; metric = metric; bits = bits.now; potentials = None }) bytes.now }
{
    let claimed = &bytes[3..];
    if unpack(claimed, bits.len()).is_err() {
        return Some(FieldWhy::Pad);
    }
    if pack(bits).as_slice() != claimed {
        return Some(FieldWhy::Bits);
    }
    head_fault(bytes, metric, mark)
}

/// The tests of an access field.
fn access_fault(code: &AccessCode, soft: &Soft, bytes: &[u8]) -> Option<FieldWhy>
    requires values { length soft.now ≡ 30 }
    requires size { length bytes.now ≡ 5 }
    ensures { result ≡ plain_why (access_reading code.now.0 soft.now) bytes.now }
{
    let read = code.decode(soft);
    plain_fault(
        &message_bits(read.message),
        read.metric,
        Mark::Unchecked,
        bytes,
    )
}

/// The tests of a field of a channel with this parity and the plan `P`, whatever its interleaver. The certificate is
/// read into `potentials`.
fn coded_fault<P: Plan>(
    parity: Parity,
    soft: &Soft,
    bytes: &[u8],
    potentials: &mut Potentials,
) -> Option<FieldWhy>
    requires sound { P.IsSound }
    requires parity { width parity + 4 ≤ P.plan.steps }
    requires values { length soft.now ≡ P.SENT }
    requires size { length bytes.now ≡ 3 + bytes_for (P.plan.steps - 4) + 32 * (P.plan.steps + 1) }
    ensures { (a : ℕ) → result
        ≡ coded_why (record { parity = parity; a = a; plan = P.plan }) soft.now bytes.now }
{
    let len = P::STEPS - 4;
    let behind = 3 + len.div_ceil(8);
    let Ok(message) = unpack(&bytes[3..behind], len) else {
        return Some(FieldWhy::Pad);
    };
    read_table(&bytes[behind..], P::STEPS + 1, potentials);
    if let Verdict::Refused { step, state, rule } = check::<P>(soft, &message, potentials) {
        return Some(FieldWhy::Cert { step, state, rule });
    }
    head_fault(bytes, potentials.at(0, 0), mark(parity, &message))
}

/// The tests of a field of speech in this many frames, one or two, with this parity and the plan `P`: its uncoded bits are
/// compared with the signs of their values. The certificate is read into `potentials`.
fn speech_fault<P: Plan>(
    frames: usize,
    parity: Parity,
    soft: &Soft,
    bytes: &[u8],
    potentials: &mut Potentials,
) -> Option<FieldWhy>
    requires sound { P.IsSound }
    requires some { 1 ≤ frames }
    requires few { frames ≤ 2 }
    requires steps { P.plan.steps ≡ 90 * frames + 4 }
    requires sent { P.SENT ≡ 165 * frames }
    requires parity { width parity ≤ 34 * frames }
    requires values { length soft.now ≡ 216 * frames }
    requires size { length bytes.now ≡ 3 + bytes_for (141 * frames) + 32 * (90 * frames + 5) }
    ensures { (uncoded coded : List Bool → List Bool) (reading : Reading)
        → IsSpeech frames parity P.plan uncoded coded soft.now reading
        → result ≡ part_why (speech_part frames P.plan uncoded coded) soft.now reading bytes.now }
{
    let len = 141 * frames;
    let behind = 3 + len.div_ceil(8);
    let Ok(bits) = unpack(&bytes[3..behind], len) else {
        return Some(FieldWhy::Pad);
    };
    let uncoded = 51 * frames;
    if uncoded_part(&bits) != read_plain(&values(soft, 0, uncoded)) {
        return Some(FieldWhy::Bits);
    }
    let message = trellis_part(&bits);
    read_table(&bytes[behind..], P::STEPS + 1, potentials);
    let coded = values(soft, uncoded, 165 * frames);
    if let Verdict::Refused { step, state, rule } = check::<P>(&coded, &message, potentials) {
        return Some(FieldWhy::Cert { step, state, rule });
    }
    let protected = part(&message, 56 * frames, 34 * frames);
    head_fault(bytes, potentials.at(0, 0), mark(parity, &protected))
}

/// The first test of a field that fails on its bytes. The code is that of the access field. A certificate is
/// read into `potentials`.
pub fn field_fault(
    code: &AccessCode,
    field: &FrontField,
    bytes: &[u8],
    potentials: &mut Potentials,
) -> Option<FieldWhy>
    requires field { IsFrontField field.now }
    requires size { length bytes.now ≡ field_length field.now }
    ensures { result ≡ field_why code.now.0 field.now bytes.now }
{
    let Some(soft) = &field.soft else {
        return plain_fault(
            &Bits::zeros(field.name.sizes().bits),
            0,
            Mark::NotYet,
            bytes,
        );
    };
    // That of the signalling channels; data has none.
    let parity = Parity::Sixteen;
    let none = Parity::Nothing;
    match field.name {
        FieldName::Aach => access_fault(code, soft, bytes),
        FieldName::Sync => coded_fault::<TwoThirds<80, 120>>(parity, soft, bytes, potentials),
        FieldName::Half => coded_fault::<TwoThirds<144, 216>>(parity, soft, bytes, potentials),
        FieldName::Hu => coded_fault::<TwoThirds<112, 168>>(parity, soft, bytes, potentials),
        FieldName::Full => coded_fault::<TwoThirds<288, 432>>(parity, soft, bytes, potentials),
        FieldName::D72 => plain_fault(&read_plain(soft), 0, Mark::Unchecked, bytes),
        FieldName::D48 => coded_fault::<P292>(none, soft, bytes, potentials),
        FieldName::D24 => coded_fault::<P148>(none, soft, bytes, potentials),
        FieldName::Whole => {
            speech_fault::<SpeechWhole>(2, Parity::Eight, soft, bytes, potentials)
        }
        FieldName::Single => {
            speech_fault::<SpeechHalf>(1, Parity::Four, soft, bytes, potentials)
        }
    }
}
