// What was sent in the place of each field of a slot.
ghost use Rattle.std.specs.Prelude.{◌≡◌, ◌<◌, List, map, length, IfSome, None, [], ◌∷◌};
ghost use Rattle.std.specs.Option.{option_map};
ghost use Rattle.tetra_settings.specs.Blocks.{letter_of};
ghost use Rattle.tetra_settings.specs.Slots.{timeslot_of, mode_of};
ghost use Rattle.tetra_settings.specs.declared.types.Settings.{Settings};
ghost use Rattle.tetra_settings.specs.declared.blocks.SlotBlocks.{SlotBlocks as TheBlocks};
ghost use Rattle.tetra_session.specs.Arrives.{letter_read};
ghost use Rattle.tetra_trial.specs.Kept.{KeptStands};
ghost use Rattle.tetra_trial.specs.Sent.{data_in_place, body_in_place, loads_sent, access_sent, behind_access, has_letter, in_place};

use crate::kept::Kept;
use tetra_bits::Bits;
use tetra_rm::message_bits;
use tetra_settings::{Body, Letter, SlotBlocks};

/// The letter as which a slot is read: a receiver does not know Q from P.
fn letter_read(letter: Letter) -> Letter
    ensures { result ≡ letter_read letter }
{
    match letter {
        Letter::Q => Letter::P,
        Letter::F | Letter::H | Letter::S | Letter::T | Letter::P | Letter::C => letter,
    }
}

/// Whether a slot is read with the letter that was sent.
pub fn has_letter(blocks: &SlotBlocks, letter: u8) -> bool
    ensures { result ≡ has_letter blocks.now letter }
{
    letter == letter_read(blocks.body.letter()).byte()
}

/// The bits of an access field, where there is one.
pub fn access_sent(message: Option<u16>) -> Option<Bits>
    requires { IfSome message (λ m. m < 16384) }
    ensures { result ≡ access_sent message }
{
    match message {
        Some(message) => Some(message_bits(message)),
        None => None,
    }
}

/// What was sent in the places of the fields of the slot whose turn it is, behind the access field.
fn body_in_place<'a>(kept: &'a Kept, body: &'a Body) -> [Option<&'a Bits>; 3]
    ensures { (settings : Settings) (history : List TheBlocks) → KeptStands settings history kept.now
        → map (option_map (λ s. s.now)) result ≡ body_in_place (mode_of settings (length history))
        (loads_sent settings (timeslot_of settings.at (length history)) history) body.now }
{
    match body {
        Body::Full { block } => [Some(block), None, None],
        Body::Halves { first, second } => [Some(first), Some(second), None],
        Body::Sync { sync, half } => [Some(sync), Some(half), None],
        Body::Traffic { load } => [kept.load_in_place(load), None, None],
        Body::Stolen { first, load } => [Some(first), None, kept.load_in_place(load)],
        Body::Both {
            first,
            second,
            load,
        } => [Some(first), Some(second), kept.data_in_place(load)],
        Body::Control { first, second } => [first.as_ref(), second.as_ref(), None],
    }
}

/// The access field stands in front, where there is one.
fn behind_access<'a>(
    access: Option<&'a Bits>,
    fields: [Option<&'a Bits>; 3],
) -> [Option<&'a Bits>; 4]
    ensures { map (option_map (λ s. s.now)) result
        ≡ behind_access (option_map (λ s. s.now) access.entry) (map (option_map (λ s. s.now)) fields.entry) }
{
    let [first, second, third] = fields;
    match access {
        Some(access) => [Some(access), first, second, third],
        None => [first, second, third, None],
    }
}

/// What was sent in the places of the fields of the slot whose turn it is, where it is read with this letter: nothing where
/// that is not the letter that was sent. The access field is that of its blocks.
pub fn in_place<'a>(
    kept: &'a Kept,
    blocks: &'a SlotBlocks,
    access: Option<&'a Bits>,
    letter: u8,
) -> [Option<&'a Bits>; 4]
    requires { option_map (λ s. s.now) access ≡ access_sent blocks.now.aach }
    ensures { (settings : Settings) (history : List TheBlocks) → KeptStands settings history kept.now
        → map (option_map (λ s. s.now)) result ≡ in_place settings history blocks.now letter }
{
    if has_letter(blocks, letter) {
        behind_access(access, body_in_place(kept, &blocks.body))
    } else {
        [None, None, None, None]
    }
}
