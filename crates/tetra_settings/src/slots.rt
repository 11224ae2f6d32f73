// The time of a slot, and the letters that it may carry.
ghost use Rattle.std.specs.Prelude.{◌≡◌, ◌≤◌, ◌<◌, length, IsTrue, All};
ghost use Rattle.tetra_settings.specs.Slots.{timeslot_of, frame_of, multiframe_of, mode_of, use_of, HasUse, byte_of, letter_of_byte, is_allowed, letters_of};
ghost use Rattle.tetra_settings.specs.Validity.{IsValid, HasMode};

use crate::types::{Dir, Mode, Settings};

/// The first byte of a block record. This project's own.
#[derive(Clone, Copy, Debug, PartialEq, Eq)]
pub enum Letter {
    /// SCH/F.
    F,
    /// Two half slots of signalling.
    H,
    /// A synchronisation burst: BSCH and a half slot.
    S,
    /// Traffic.
    T,
    /// Traffic whose first half slot is stolen.
    P,
    /// Traffic of which both half slots are stolen.
    Q,
    /// Control bursts in two subslots.
    C,
}

/// What a slot carries. This project's own.
#[derive(Clone, Copy, Debug, PartialEq, Eq)]
pub enum SlotUse {
    /// Signalling: a signalling timeslot, or frame 18 of a traffic timeslot.
    Signalling,
    /// Control bursts.
    Control,
    /// Traffic: frames 1 to 17 of a traffic timeslot.
    Traffic,
}

/// All letters, in the order in which they are listed.
pub const LETTERS: [Letter; 7] = [
    Letter::F,
    Letter::H,
    Letter::S,
    Letter::T,
    Letter::P,
    Letter::Q,
    Letter::C,
];

/// The timeslot (1 to 4), frame (1 to 18) and multiframe (1 to 60) of slot `t`, which counts from 0, where slot 0 has
/// the place `at` of 4,320 (EN 300 392-2 clause 9.3).
#[tactic(auto, unfolding(crate::specs::Slots::place_of, crate::specs::Slots::timeslot_of, crate::specs::Slots::frame_of, crate::specs::Slots::multiframe_of))]
pub fn clock(at: u16, t: u32) -> (u8, u8, u8)
    requires { at ≤ 4319 }
    ensures timeslot { result.0 ≡ timeslot_of at t }
    ensures frame { result.1 ≡ frame_of at t }
    ensures multiframe { result.2 ≡ multiframe_of at t }
    ensures timeslots { (1 ≤ result.0) × (result.0 ≤ 4) }
    ensures frames { (1 ≤ result.1) × (result.1 ≤ 18) }
    ensures multiframes { (1 ≤ result.2) × (result.2 ≤ 60) }
{
    let place = (u64::from(at) + u64::from(t)) % 4_320;
    (
        1 + (place % 4) as u8,
        1 + (place / 4 % 18) as u8,
        1 + (place / 72) as u8,
    )
}

impl Letter {
    /// The byte that the letter is in a file.
    pub fn byte(self) -> u8
        ensures { result ≡ byte_of self }
    {
        match self {
            Letter::F => b'F',
            Letter::H => b'H',
            Letter::S => b'S',
            Letter::T => b'T',
            Letter::P => b'P',
            Letter::Q => b'Q',
            Letter::C => b'C',
        }
    }

    /// The letter of a byte, where it is one of the seven.
    #[tactic(auto, unfolding(crate::specs::Slots::letter_of_byte))]
    pub fn from_byte(byte: u8) -> Option<Letter>
        ensures { result ≡ letter_of_byte byte }
    {
        LETTERS.iter().copied().find(|letter| letter.byte() == byte)
    }
}

/// The mode of the timeslot of slot `t`.
#[tactic(auto, unfolding(crate::specs::Slots::mode_of))]
pub fn mode_at(settings: &Settings, t: u32) -> Mode
    requires { IsValid settings.now }
    ensures mode { result ≡ mode_of settings.now t }
    ensures of_direction { HasMode settings.now.dir result }
{
    let (timeslot, _, _) = clock(settings.at, t);
    settings.modes[usize::from(timeslot) - 1]
}

/// What slot `t` carries.
#[tactic(auto, unfolding(crate::specs::Slots::use_of))]
pub fn slot_use(settings: &Settings, t: u32) -> SlotUse
    requires { IsValid settings.now }
    ensures slot { result ≡ use_of settings.now t }
    ensures of_direction { HasUse settings.now.dir result }
{
    let (_, frame, _) = clock(settings.at, t);
    match mode_at(settings, t) {
        Mode::Sig => SlotUse::Signalling,
        Mode::Cb => SlotUse::Control,
        Mode::D72 | Mode::D48(_) | Mode::D24(_) | Mode::Speech => {
            if frame == 18 {
                SlotUse::Signalling
            } else {
                SlotUse::Traffic
            }
        }
    }
}

/// Whether a slot of this use may carry the letter.
pub fn allows(dir: Dir, slot: SlotUse, letter: Letter) -> bool
    ensures { result ≡ is_allowed dir slot letter }
{
    match letter {
        Letter::F => slot == SlotUse::Signalling,
        Letter::H | Letter::S => slot == SlotUse::Signalling && dir == Dir::Dl,
        Letter::T | Letter::P | Letter::Q => slot == SlotUse::Traffic,
        Letter::C => slot == SlotUse::Control && dir == Dir::Ul,
    }
}

/// The letters that a slot of this use may carry, in their order.
pub fn letters(dir: Dir, slot: SlotUse) -> &'static [Letter]
    ensures letters { result.now ≡ letters_of dir slot }
    ensures allowed { All (λ letter. IsTrue (is_allowed dir slot letter)) result.now }
    ensures some { HasUse dir slot → 0 < length result.now }
{
    match (dir, slot) {
        (Dir::Dl, SlotUse::Signalling) => &[Letter::F, Letter::H, Letter::S],
        (Dir::Ul, SlotUse::Signalling) => &[Letter::F],
        (Dir::Ul, SlotUse::Control) => &[Letter::C],
        (Dir::Dl, SlotUse::Control) => &[],
        (Dir::Dl | Dir::Ul, SlotUse::Traffic) => &[Letter::T, Letter::P, Letter::Q],
    }
}
