// Soft values as C has them: one signed byte each.
ghost use Rattle.std.specs.Prelude.{◌≡◌, ◌≤◌, length};
ghost use Rattle.tetra_bits.specs.Soft.{IsSoft, AllSoft};
ghost use Rattle.tetra_c.specs.Values.{clamped, soft_values};

use tetra_bits::Soft;

/// The soft value of a byte: the byte, and -127 for -128.
pub fn clamped(value: i8) -> i16
    ensures value { result ≡ clamped value }
    ensures soft { IsSoft result }
{
    if value == -128 {
        -127
    } else {
        i16::from(value)
    }
}

/// The values of a slot.
pub fn slot_values(slot: &[i8; 510]) -> [i16; 510]
    ensures values { result ≡ soft_values slot.now }
    ensures soft { AllSoft result }
{
    let mut soft = [0; 510];
    for k in 0..510usize {
        soft[k] = clamped(slot[k]);
    }
    soft
}

/// The values of a field, at most 432.
pub fn field_values(values: &[i8]) -> Soft
    requires { length values.now ≤ 432 }
    ensures values { result ≡ soft_values values.now }
    ensures size { length result ≡ length values.now }
{
    let mut soft = Soft::new();
    soft.resize(values.len());
    for k in 0..values.len() {
        soft.set(k, clamped(values[k]));
    }
    soft
}
