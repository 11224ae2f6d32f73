// What a receiver makes once.
ghost use Rattle.std.specs.Prelude.{◌≡◌};
ghost use Rattle.tetra_scramble.specs.Key.{key_of};
ghost use Rattle.tetra_settings.specs.Validity.{IsValid};

use tetra_rm::AccessCode;
use tetra_scramble::{Key, key};
use tetra_settings::Settings;

/// What a receiver makes once, and not for each slot: the key of its colour, and its access code with the tables of its
/// search. This project's own.
#[derive(Drop)]
pub struct Tables {
    pub key: Key,
    pub access: AccessCode,
}

impl Tables {
    /// The tables of settings that are valid.
    pub fn of(settings: &Settings) -> Tables
        requires valid { IsValid settings.now }
        ensures key { result.key ≡ key_of settings.now.colour }
        ensures access { result.access ≡ settings.now.rows }
    {
        Tables {
            key: key(&settings.colour),
            access: AccessCode::of(&settings.rows),
        }
    }
}
