// Laws of the definitions.
ghost use Rattle.std.specs.Prelude.{ℕ, ◌≡◌};
ghost use Rattle.tetra_settings.specs.Slots.{letters};
ghost use Rattle.tetra_settings.specs.Blocks.{Fits, AreWellFormed};
ghost use Rattle.tetra_settings.specs.declared.slots.TheConstants.{LETTERS};
ghost use Rattle.tetra_settings.specs.declared.types.Settings.{Settings};
ghost use Rattle.tetra_settings.specs.declared.blocks.SlotBlocks.{SlotBlocks};

/// Blocks that a slot may carry are well formed.
pub fn fitting_are_well_formed()
    ensures { (settings : Settings) (t : ℕ) (blocks : SlotBlocks) → Fits settings t blocks → AreWellFormed blocks }
{}

/// `LETTERS` is the list of all letters.
pub fn all_letters()
    ensures { LETTERS ≡ letters }
{}
