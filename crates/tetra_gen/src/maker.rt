// Blocks of slots that are made of a number.
ghost use Rattle.std.specs.Prelude.{◌≡◌, ◌<◌, ◌+◌, ℕ};
ghost use Rattle.tetra_settings.specs.Validity.{IsValid};
ghost use Rattle.tetra_gen.specs.lemmas.Valid.{IsValid-prop};

use crate::blocks::{draw_access, draw_body, draw_letter, draw_mask};
use rand_pcg::Pcg32;
use tetra_settings::{Settings, SlotBlocks, letters, mode_at, slot_use};

/// A maker of blocks. It stands for its settings and for the number of slots that it made so far. This project's own.
#[derive(Drop)]
pub struct Maker {
    settings: Settings,
    /// The number of slots so far, so that of the slot whose turn it is.
    turn: u32,
    words: Pcg32,
    ghost valid: { IsValid settings } by { IsValid-prop settings },
}

impl Maker {
    ghost use Rattle.tetra_settings.specs.declared.types.Settings.{Settings};
    ghost use Rattle.tetra_settings.specs.Blocks.{Fits};
    ghost use Rattle.tetra_gen.specs.Made.{MakerStands, made};

    /// A maker before its first slot. The settings are valid.
    pub fn new(settings: &Settings) -> Maker
        requires valid { IsValid settings.now }
        ensures { MakerStands settings.now 0 result }
    {
        Maker {
            settings: *settings,
            turn: 0,
            words: Pcg32::new(settings.draw, 1),
        }
    }

    /// The blocks of the slot whose turn it is, which fit it. There are at most 16,777,216 slots.
    pub fn slot(&mut self) -> SlotBlocks
        requires few { self.old.turn < 16777216 }
        ensures blocks { (settings : Settings) (k : ℕ) → MakerStands settings k self.old → result ≡ made settings k }
        ensures fits { (settings : Settings) (k : ℕ) → MakerStands settings k self.old → Fits settings k result }
        ensures stands { (settings : Settings) (k : ℕ) → MakerStands settings k self.old
            → MakerStands settings (k + 1) self.new }
    {
        let mode = mode_at(&self.settings, self.turn);
        let allowed = letters(self.settings.dir, slot_use(&self.settings, self.turn));
        let letter = draw_letter(&mut self.words, allowed);
        let aach = draw_access(&mut self.words, self.settings.dir);
        let sent = draw_mask(&mut self.words, letter);
        let body = draw_body(&mut self.words, letter, mode, sent);
        self.turn += 1;
        SlotBlocks { aach, body }
    }
}
