// The blocks of a slot.
ghost use Rattle.std.specs.Prelude.{◌≡◌, ◌≤◌, ◌<◌, ◌↔◌, IsTrue, IsSome, map, length, List, [], ◌∷◌};
ghost use Rattle.std.specs.Option.{option_map_or};
ghost use Rattle.tetra_settings.specs.Slots.{use_of, mode_of, is_allowed};
ghost use Rattle.tetra_settings.specs.Blocks.{letter_of, fields_of, sends_first, sends_second, body_of, Lengths, load_bits, field_bits, HasLengths, FitsAccess, Fits};
ghost use Rattle.tetra_settings.specs.Validity.{IsValid};
ghost use Rattle.tetra_settings.specs.declared.types.Mode.{Mode};

use crate::slots::{Letter, allows, mode_at, slot_use};
use crate::types::{Dir, Mode, Settings};
use tetra_bits::Bits;

/// The type-1 bits of a slot, by its letter. The numbers of bits are those of the channels (EN 300 392-2 clause 8.2),
/// and of speech this project's own.
#[derive(Debug, PartialEq, Eq, Drop)]
pub enum Body {
    /// F: SCH/F, 268 bits.
    Full {
        block: Bits,
    },
    /// H: SCH/HD or BNCH in each half slot, 124 bits.
    Halves {
        first: Bits,
        second: Bits,
    },
    /// S: BSCH, 60 bits, and SCH/HD, 124 bits.
    Sync {
        sync: Bits,
        half: Bits,
    },
    /// T: 432 bits of TCH/7.2, 288 of TCH/4.8, 144 of TCH/2.4, or two frames of speech, 274 bits.
    Traffic {
        load: Bits,
    },
    /// P: STCH in the first half slot, 124 bits, and the load of the slot: as in T, but one frame of speech, 137 bits.
    Stolen {
        first: Bits,
        load: Bits,
    },
    /// Q: STCH in both half slots, 124 bits each, and the load of the slot: as in T, but none of speech.
    Both {
        first: Bits,
        second: Bits,
        load: Bits,
    },
    /// C: SCH/HU, 92 bits, in each subslot that is sent.
    Control {
        first: Option<Bits>,
        second: Option<Bits>,
    },
}

/// What is sent in a slot: on the downlink the access field (AACH, 14 bits), and the body.
#[derive(Debug, PartialEq, Eq, Drop)]
pub struct SlotBlocks {
    pub aach: Option<u16>,
    pub body: Body,
}

impl Body {
    /// The letter of the body.
    pub fn letter(&self) -> Letter
        ensures { result ≡ letter_of self.now }
    {
        match self {
            Body::Full { .. } => Letter::F,
            Body::Halves { .. } => Letter::H,
            Body::Sync { .. } => Letter::S,
            Body::Traffic { .. } => Letter::T,
            Body::Stolen { .. } => Letter::P,
            Body::Both { .. } => Letter::Q,
            Body::Control { .. } => Letter::C,
        }
    }

    /// The fields of the body in the order of a record, at most three, in front.
    pub fn fields(&self) -> [Option<&Bits>; 3]
        ensures fields { map (λ field. option_map_or (λ bits. bits.now) field []) result ≡ fields_of self.now }
        ensures count { length result ≡ 3 }
    {
        match self {
            Body::Full { block } => [Some(block), None, None],
            Body::Halves { first, second } => [Some(first), Some(second), None],
            Body::Sync { sync, half } => [Some(sync), Some(half), None],
            Body::Traffic { load } => [Some(load), None, None],
            Body::Stolen { first, load } => [Some(first), Some(load), None],
            Body::Both {
                first,
                second,
                load,
            } => [Some(first), Some(second), Some(load)],
            Body::Control { first, second } => [first.as_ref(), second.as_ref(), None],
        }
    }

    /// Whether the first and the second subslot are sent; neither, where the body has no subslots.
    pub fn sent(&self) -> (bool, bool)
        ensures first { result.0 ≡ sends_first self.now }
        ensures second { result.1 ≡ sends_second self.now }
    {
        match self {
            Body::Full { .. }
            | Body::Halves { .. }
            | Body::Sync { .. }
            | Body::Traffic { .. }
            | Body::Stolen { .. }
            | Body::Both { .. } => (false, false),
            Body::Control { first, second } => (first.is_some(), second.is_some()),
        }
    }

    /// The body of a letter. `a`, `b` and `c` are its fields in their order, and of `C` those of the
    /// subslots, which are there where they are sent.
    pub fn from_fields(letter: Letter, sent: (bool, bool), a: Bits, b: Bits, c: Bits) -> Body
        ensures body { result ≡ body_of letter sent.0 sent.1 a b c }
        ensures letter { letter_of result ≡ letter }
        ensures lengths { (mode : Mode) → Lengths (a ∷ b ∷ c ∷ []) (field_bits letter mode sent.0 sent.1)
            → HasLengths mode result }
    {
        match letter {
            Letter::F => Body::Full { block: a },
            Letter::H => Body::Halves {
                first: a,
                second: b,
            },
            Letter::S => Body::Sync { sync: a, half: b },
            Letter::T => Body::Traffic { load: a },
            Letter::P => Body::Stolen { first: a, load: b },
            Letter::Q => Body::Both {
                first: a,
                second: b,
                load: c,
            },
            Letter::C => Body::Control {
                first: sent.0.then_some(a),
                second: sent.1.then_some(b),
            },
        }
    }
}

/// The bits of the load of a traffic letter; 0 where it has none.
pub fn load_bits(mode: Mode, letter: Letter) -> usize
    ensures { result ≡ load_bits mode letter }
{
    match mode {
        Mode::D72 => 432,
        Mode::D48(_) => 288,
        Mode::D24(_) => 144,
        Mode::Speech => match letter {
            Letter::T => 274,
            Letter::P => 137,
            Letter::F | Letter::H | Letter::S | Letter::Q | Letter::C => 0,
        },
        Mode::Sig | Mode::Cb => 0,
    }
}

/// The bits of each field of a letter, at most three in front; 0 where there is no field. The subslots of `C` are there
/// where they are sent.
pub fn field_bits(letter: Letter, mode: Mode, sent: (bool, bool)) -> [usize; 3]
    ensures { result ≡ field_bits letter mode sent.0 sent.1 }
{
    let load = load_bits(mode, letter);
    match letter {
        Letter::F => [268, 0, 0],
        Letter::H => [124, 124, 0],
        Letter::S => [60, 124, 0],
        Letter::T => [load, 0, 0],
        Letter::P => [124, load, 0],
        Letter::Q => [124, 124, load],
        Letter::C => [if sent.0 { 92 } else { 0 }, if sent.1 { 92 } else { 0 }, 0],
    }
}

fn len(field: Option<&Bits>) -> usize
    ensures { result ≡ length (option_map_or (λ bits. bits.now) field.entry []) }
{
    match field {
        Some(bits) => bits.len(),
        None => 0,
    }
}

/// Whether the fields of a body have the lengths of the table.
fn has_lengths(body: &Body, mode: Mode) -> bool
    ensures { IsTrue result ↔ HasLengths mode body.now }
{
    let [a, b, c] = body.fields();
    [len(a), len(b), len(c)] == field_bits(body.letter(), mode, body.sent())
}

fn fits_direction(dir: Dir, access: Option<u16>) -> bool
    ensures { IsTrue result ↔ FitsAccess dir access }
{
    match (dir, access) {
        (Dir::Dl, Some(message)) => message < 16_384,
        (Dir::Dl, None) => false,
        (Dir::Ul, access) => access.is_none(),
    }
}

/// Whether slot `t` may carry the blocks: it allows their letter, all lists have the lengths that its mode gives them,
/// and there is an AACH below 16,384 on the downlink, and none on the uplink.
pub fn fits(settings: &Settings, t: u32, blocks: &SlotBlocks) -> bool
    requires { IsValid settings.now }
    ensures { IsTrue result ↔ Fits settings.now t blocks.now }
{
    allows(settings.dir, slot_use(settings, t), blocks.body.letter())
        && has_lengths(&blocks.body, mode_at(settings, t))
        && fits_direction(settings.dir, blocks.aach)
}
