// Laws of the definitions.
ghost use Rattle.std.specs.Prelude.{ℕ, ◌≡◌};
ghost use Rattle.tetra_gen.specs.Words.{AccessIsField};
ghost use Rattle.tetra_gen.specs.Made.{MadeFit};
ghost use Rattle.tetra_gen.specs.Damaged.{DamageKeepsLength, DamageKeepsSoft};

/// Blocks that are made fit their slots.
pub fn made_fit()
    ensures { MadeFit }
{}

/// The 14 binary digits of an access field are a field of 14 bits.
pub fn access_is_a_field()
    ensures { AccessIsField }
{}

/// Damage keeps the number of values.
pub fn damage_keeps_length()
    ensures { DamageKeepsLength }
{}

/// Damage keeps that each value is soft.
pub fn damage_keeps_soft()
    ensures { DamageKeepsSoft }
{}
