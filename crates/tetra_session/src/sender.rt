// Sending, slot by slot.
ghost use Rattle.std.specs.Prelude.{◌≡◌, ◌<◌, ◌++◌, ◌∷◌, [], List};
ghost use Rattle.tetra_scramble.specs.Key.{key_of};
ghost use Rattle.tetra_settings.specs.Validity.{IsValid};
ghost use Rattle.tetra_session.specs.lemmas.Valid.{IsValid-prop};

use crate::sending::send_turn;
use crate::spreading::SpreadLane;
use tetra_scramble::{Key, key};
use tetra_settings::{Settings, SlotBlocks, clock};

/// A sender of slots, four timeslots side by side. It stands for its settings and for the blocks that it was given so
/// far. This project's own.
#[derive(Drop)]
pub struct Sender {
    settings: Settings,
    key: Key,
    /// The number of slots so far, so that of the slot whose turn it is.
    turn: u32,
    /// What is kept of timeslots 1 to 4.
    lanes: [SpreadLane; 4],
    ghost valid: { IsValid settings } by { IsValid-prop settings },
    ghost keyed: { key ≡ key_of settings.colour },
}

impl Sender {
    ghost use Rattle.tetra_settings.specs.Blocks.{Fits};
    ghost use Rattle.tetra_settings.specs.declared.blocks.SlotBlocks.{SlotBlocks};
    ghost use Rattle.tetra_session.specs.Sent.{SenderStands, slot_written};

    /// A sender before its first slot. The settings are valid.
    pub fn new(settings: &Settings) -> Sender
        requires valid { IsValid settings.now }
        ensures { SenderStands settings.now [] result }
    {
        let [first, second, third, fourth] = settings.modes;
        Sender {
            settings: *settings,
            key: key(&settings.colour),
            turn: 0,
            lanes: [
                SpreadLane::new(first),
                SpreadLane::new(second),
                SpreadLane::new(third),
                SpreadLane::new(fourth),
            ],
        }
    }

    /// The slot whose turn it is, with these blocks, which fit it: 510 positions, 127 for bit 0, -127 for bit 1, 0 where
    /// the slot is silent (EN 300 392-2 clauses 8 and 9). There are at most 16,777,216 slots.
    pub fn slot(&mut self, blocks: &SlotBlocks) -> [i8; 510]
        requires few { self.old.turn < 16777216 }
        requires fits { Fits self.old.settings self.old.turn blocks.now }
        ensures slot { (settings : _) (history : List SlotBlocks) → SenderStands settings history self.old
            → result ≡ slot_written settings history blocks.now }
        ensures stands { (settings : _) (history : List SlotBlocks) → SenderStands settings history self.old
            → SenderStands settings (history ++ blocks.now ∷ []) self.new }
    {
        let turn = self.turn;
        self.turn += 1;
        let (timeslot, _, _) = clock(self.settings.at, turn);
        let lane = &mut self.lanes[usize::from(timeslot) - 1];
        send_turn(&self.settings, &self.key, turn, lane, blocks)
    }
}
