// The soft values of a slot's fields.
use arrayvec::ArrayVec;
use tetra_bits::Soft;
use tetra_settings::FieldName;

/// A field of a slot with its soft values: of a channel with a trellis in type-3 order, of unprotected data after the
/// key. None where not all slots of the field's block have come yet. This project's own.
#[derive(Drop)]
pub struct FrontField {
    pub name: FieldName,
    pub soft: Option<Soft>,
}

impl Default for FrontField {
    ghost is_default = { λ _. Unit {0} };

    /// An AACH without values, which nothing rests on: a list of fixed capacity asks for some value.
    fn default() -> Self {
        FrontField {
            name: FieldName::Aach,
            soft: None,
        }
    }
}

/// The letter of a slot as a byte, and the soft values of its fields, in the order of the reading. This project's own.
#[derive(Drop)]
pub struct Front {
    pub letter: u8,
    pub fields: ArrayVec<FrontField, 4>,
}
