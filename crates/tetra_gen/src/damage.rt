// Damage that is made of a number.
ghost use Rattle.std.specs.Prelude.{◌≡◌, ◌<◌, ◌+◌, ℕ, neg_ℤ, slice_set};
ghost use Rattle.tetra_bits.specs.Soft.{AllSoft, value_at};
ghost use Rattle.tetra_settings.specs.Validity.{IsValid};
ghost use Rattle.tetra_gen.specs.Words.{generator, word};
ghost use Rattle.tetra_gen.specs.Damaged.{turned_by};

use crate::words::draw;
use rand_pcg::Pcg32;
use tetra_settings::Settings;

/// Damage to slots. It stands for its settings and for the number of slots that it turned so far. This project's own.
#[derive(Drop)]
pub struct Damage {
    /// How many words each slot draws.
    count: u16,
    words: Pcg32,
}

impl Damage {
    ghost use Rattle.std.specs.Prelude.{ℤ, List};
    ghost use Rattle.tetra_settings.specs.declared.types.Settings.{Settings};
    ghost use Rattle.tetra_gen.specs.Damaged.{DamageStands, damaged};

    /// The damage before its first slot. The settings are valid.
    pub fn new(settings: &Settings) -> Damage
        requires valid { IsValid settings.now }
        ensures { DamageStands settings.now 0 result }
    {
        Damage {
            count: settings.damage,
            words: Pcg32::new(settings.draw, 2),
        }
    }

    /// The soft values of the slot whose turn it is, with the signs turned that the settings give it. Two draws of one
    /// position turn its sign twice.
    pub fn slot(&mut self, soft: &[i16; 510]) -> [i16; 510]
        requires soft { AllSoft soft.now }
        ensures values { (settings : Settings) (k : ℕ) → DamageStands settings k self.old
            → result ≡ damaged settings k soft.now }
        ensures soft { AllSoft result }
        ensures stands { (settings : Settings) (k : ℕ) → DamageStands settings k self.old
            → DamageStands settings (k + 1) self.new }
    {
        let mut values = *soft;
        self.turn(&mut values);
        values
    }

    /// The same in place.
    pub fn turn(&mut self, soft: &mut [i16; 510])
        requires soft { AllSoft soft.old }
        ensures values { (settings : Settings) (k : ℕ) → DamageStands settings k self.old
            → soft.new ≡ damaged settings k soft.old }
        ensures soft { AllSoft soft.new }
        ensures stands { (settings : Settings) (k : ℕ) → DamageStands settings k self.old
            → DamageStands settings (k + 1) self.new }
    {
        turn_signs(&mut self.words, self.count, soft);
    }
}

/// Turns the signs of the positions that the next words name.
fn turn_signs(words: &mut Pcg32, count: u16, soft: &mut [i16; 510])
    requires soft { AllSoft soft.old }
    ensures values { (seed stream i : ℕ) → words.old ≡ generator seed stream i
        → soft.new ≡ turned_by (word seed stream) i count soft.old }
    ensures soft { AllSoft soft.new }
    ensures words { (seed stream i : ℕ) → words.old ≡ generator seed stream i
        → words.new ≡ generator seed stream (i + count) }
{
    for _ in 0..count {
        let word = draw(words);
        turn_sign(soft, (word % 510) as usize);
    }
}

/// Turns the sign of the value at `place`, which counts from 0.
fn turn_sign(soft: &mut [i16; 510], place: usize)
    requires there { place < 510 }
    requires soft { AllSoft soft.old }
    ensures value { soft.new ≡ slice_set soft.old place (neg_ℤ (value_at soft.old place)) }
    ensures soft { AllSoft soft.new }
{
    soft[place] = -soft[place];
}
