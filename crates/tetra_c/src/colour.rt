// The colour of a cell as C has it.
ghost use Rattle.std.specs.Prelude.{◌≡◌, IfSome};
ghost use Rattle.tetra_scramble.specs.Colour.{IsColour};
ghost use Rattle.tetra_c.specs.Colours.{colour_of, checked_colour};

use tetra_scramble::Colour;

/// Mobile country code, at most 1023, mobile network code, at most 16383, and colour code, at most 63.
#[repr(C)]
#[derive(Clone, Copy, PartialEq, Eq, Debug)]
pub struct TetraColour {
    pub mcc: u16,
    pub mnc: u16,
    pub cc: u8,
}

/// The colour, where its numbers are in range.
pub fn checked_colour(colour: &TetraColour) -> Option<Colour>
    ensures value { result ≡ checked_colour colour.now }
    ensures same { IfSome result (λ found. found ≡ colour_of colour.now) }
    ensures range { IfSome result IsColour }
{
    if colour.mcc > 1023 || colour.mnc > 16383 || colour.cc > 63 {
        return None;
    }
    Some(Colour {
        mcc: colour.mcc,
        mnc: colour.mnc,
        cc: colour.cc,
    })
}
