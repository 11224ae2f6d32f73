// The bytes of a slot and its values.
ghost use Rattle.std.specs.Prelude.{◌≡◌, map, All};
ghost use Rattle.tetra_bits.specs.Soft.{soft_value, IsSoft};
ghost use Rattle.tetra_engine.specs.Slots.{soft_values, slot_bytes};

use tetra_bits::soft_of;

/// Reads the soft values of a slot from its bytes.
pub fn read_values(bytes: &[u8; 510], soft: &mut [i16; 510])
    ensures values { soft.new ≡ soft_values bytes.now }
    ensures soft { All IsSoft soft.new }
{
    for i in 0..510usize {
        soft[i] = soft_of(bytes[i]);
    }
}

/// Writes the values of a slot as its bytes.
pub fn write_values(values: &[i8; 510], bytes: &mut [u8; 510])
    ensures { bytes.new ≡ slot_bytes values.now }
{
    for i in 0..510usize {
        bytes[i] = values[i].cast_unsigned();
    }
}
