// Slots on their way: made, sent, damaged and received.
ghost use Rattle.std.specs.Prelude.{◌≡◌, ◌≤◌, ◌<◌, ◌+◌, ℕ, IfSome};
ghost use Rattle.tetra_settings.specs.Validity.{IsValid};
ghost use Rattle.tetra_gen.specs.Made.{made};
ghost use Rattle.tetra_trial.specs.Trials.{reading_of};

use tetra_gen::{Damage, Maker};
use tetra_session::{Receiver, Sender, written_slots_arrive};
use tetra_settings::{Settings, SlotBlocks, SlotReading};

/// What makes, sends, damages and receives the slots of a trial. It stands for its settings and the number of slots so
/// far.
#[derive(Drop)]
pub struct Passage {
    maker: Maker,
    sender: Sender,
    damage: Damage,
    receiver: Receiver,
    soft: [i16; 510],
}

/// Takes over the values of a slot.
fn widen(values: &[i8; 510], soft: &mut [i16; 510])
    ensures { soft.new ≡ values.now }
{
    for i in 0..510usize {
        soft[i] = i16::from(values[i]);
    }
}

impl Passage {
    ghost use Rattle.tetra_settings.specs.declared.types.Settings.{Settings as TheSettings};
    ghost use Rattle.tetra_trial.specs.Passage.{PassageStands};

    /// No slot has passed yet. The settings are valid.
    pub fn new(settings: &Settings) -> Passage
        requires { IsValid settings.now }
        ensures { PassageStands settings.now 0 result }
    {
        Passage {
            maker: Maker::new(settings),
            sender: Sender::new(settings),
            damage: Damage::new(settings),
            receiver: Receiver::new(settings),
            soft: [0; 510],
        }
    }

    /// Lets the slot whose turn it is pass, gives its blocks, and writes its reading over one that is there.
    pub fn pass(&mut self, reading: &mut SlotReading) -> SlotBlocks
        requires stands { (settings : TheSettings) × (k : ℕ) × PassageStands settings k self.old × (k < 16777216) }
        ensures blocks { (settings : TheSettings) (k : ℕ) → PassageStands settings k self.old → result ≡ made settings k }
        ensures access { IfSome result.aach (λ m. m < 16384) }
        ensures reading { (settings : TheSettings) (k : ℕ) → PassageStands settings k self.old
            → reading.new ≡ reading_of settings k }
        ensures stands { (settings : TheSettings) (k : ℕ) → PassageStands settings k self.old
            → PassageStands settings (k + 1) self.new }
    {
        written_slots_arrive();
        let blocks = self.maker.slot();
        let values = self.sender.slot(&blocks);
        widen(&values, &mut self.soft);
        self.damage.turn(&mut self.soft);
        self.receiver.slot_into(&self.soft, reading);
        blocks
    }
}
