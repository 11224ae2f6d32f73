// Receiving, slot by slot.
ghost use Rattle.std.specs.Prelude.{◌≡◌, ◌<◌, ◌++◌, ◌∷◌, [], List, ℕ, ℤ, All};
ghost use Rattle.tetra_bits.specs.Soft.{AllSoft, AllWithin};
ghost use Rattle.tetra_scramble.specs.Key.{key_of};
ghost use Rattle.tetra_settings.specs.Validity.{IsValid};
ghost use Rattle.tetra_session.specs.lemmas.Valid.{IsValid-prop};

use crate::fields::Work;
use crate::front::Front;
use crate::gathering::GatherLane;
use crate::receiving::{hear_turn, read_turn};
use crate::tables::Tables;
use arrayvec::ArrayVec;
use tetra_settings::{Settings, SlotReading, clock};

/// A receiver of slots, four timeslots side by side. It stands for its settings and for the slots that it was given so
/// far. This project's own.
#[derive(Drop)]
pub struct Receiver {
    settings: Settings,
    tables: Tables,
    /// The number of slots so far, so that of the slot whose turn it is.
    turn: u32,
    /// What is kept of timeslots 1 to 4.
    lanes: [GatherLane; 4],
    work: Work,
    ghost valid: { IsValid settings } by { IsValid-prop settings },
    ghost keyed: { tables.key ≡ key_of settings.colour },
    ghost access: { tables.access ≡ settings.rows },
}

impl Receiver {
    ghost use Rattle.tetra_settings.specs.Readings.{IsWellFormed};
    ghost use Rattle.tetra_session.specs.Fronts.{IsFront, IsBounded};
    ghost use Rattle.tetra_session.specs.Heard.{ReceiverStands, slot_front, slot_reading};

    /// A receiver before its first slot. The settings are valid.
    pub fn new(settings: &Settings) -> Receiver
        requires valid { IsValid settings.now }
        ensures { ReceiverStands settings.now [] result }
    {
        let [first, second, third, fourth] = settings.modes;
        Receiver {
            settings: *settings,
            tables: Tables::of(settings),
            turn: 0,
            lanes: [
                GatherLane::new(first),
                GatherLane::new(second),
                GatherLane::new(third),
                GatherLane::new(fourth),
            ],
            work: Work::new(),
        }
    }

    /// The letter of the slot whose turn it is, and the soft values of its fields, from the values of
    /// its 510 positions, each from -`SOFT_MAX` to `SOFT_MAX`. Of data whose first half is stolen the values of block 1
    /// count 0, and those of block 2 where that is read as a half slot channel and is Good: for this it is decoded here.
    /// Each call is one slot; there are at most 16,777,216.
    pub fn front(&mut self, soft: &[i16; 510]) -> Front
        requires few { self.old.turn < 16777216 }
        requires soft { AllSoft soft.now }
        ensures front { (settings : _) (history : List (List ℤ)) → ReceiverStands settings history self.old
            → result ≡ slot_front settings history soft.now }
        ensures well_formed { IsFront result }
        ensures stands { (settings : _) (history : List (List ℤ)) → ReceiverStands settings history self.old
            → ReceiverStands settings (history ++ soft.now ∷ []) self.new }
    {
        let mut front = Front {
            letter: 0,
            fields: ArrayVec::new(),
        };
        self.front_into(soft, &mut front);
        front
    }

    /// The same, written over a front that is there.
    pub fn front_into(&mut self, soft: &[i16; 510], front: &mut Front)
        requires few { self.old.turn < 16777216 }
        requires soft { AllSoft soft.now }
        ensures front { (settings : _) (history : List (List ℤ)) → ReceiverStands settings history self.old
            → front.new ≡ slot_front settings history soft.now }
        ensures well_formed { IsFront front.new }
        ensures stands { (settings : _) (history : List (List ℤ)) → ReceiverStands settings history self.old
            → ReceiverStands settings (history ++ soft.now ∷ []) self.new }
    {
        let turn = self.turn;
        self.turn += 1;
        let (timeslot, _, _) = clock(self.settings.at, turn);
        let lane = &mut self.lanes[usize::from(timeslot) - 1];
        hear_turn(
            &self.settings,
            &self.tables.key,
            turn,
            lane,
            &mut self.work,
            soft,
            front,
        );
    }

    /// The reading of the slot whose turn it is, from the values of its 510 positions, each from -`SOFT_MAX` to
    /// `SOFT_MAX`: of each field the first-least message with its metric and its mark. Each call is one slot; there are at
    /// most 16,777,216.
    pub fn slot(&mut self, soft: &[i16; 510]) -> SlotReading
        requires few { self.old.turn < 16777216 }
        requires soft { AllSoft soft.now }
        ensures reading { (settings : _) (history : List (List ℤ)) → ReceiverStands settings history self.old
            → result ≡ slot_reading settings history soft.now }
        ensures well_formed { IsWellFormed result }
        ensures bounded { (settings : _) (history : List (List ℤ)) → ReceiverStands settings history self.old → (top : ℕ)
            → All (AllWithin top) history → AllWithin top soft.now → All (IsBounded top) result.fields.items }
        ensures stands { (settings : _) (history : List (List ℤ)) → ReceiverStands settings history self.old
            → ReceiverStands settings (history ++ soft.now ∷ []) self.new }
    {
        let mut reading = SlotReading {
            letter: 0,
            fields: ArrayVec::new(),
        };
        self.slot_into(soft, &mut reading);
        reading
    }

    /// The same, written over a reading that is there, whose potentials serve again.
    pub fn slot_into(&mut self, soft: &[i16; 510], reading: &mut SlotReading)
        requires few { self.old.turn < 16777216 }
        requires soft { AllSoft soft.now }
        ensures reading { (settings : _) (history : List (List ℤ)) → ReceiverStands settings history self.old
            → reading.new ≡ slot_reading settings history soft.now }
        ensures well_formed { IsWellFormed reading.new }
        ensures bounded { (settings : _) (history : List (List ℤ)) → ReceiverStands settings history self.old → (top : ℕ)
            → All (AllWithin top) history → AllWithin top soft.now → All (IsBounded top) reading.new.fields.items }
        ensures stands { (settings : _) (history : List (List ℤ)) → ReceiverStands settings history self.old
            → ReceiverStands settings (history ++ soft.now ∷ []) self.new }
    {
        let turn = self.turn;
        self.turn += 1;
        let (timeslot, _, _) = clock(self.settings.at, turn);
        let lane = &mut self.lanes[usize::from(timeslot) - 1];
        read_turn(
            &self.settings,
            &self.tables,
            turn,
            lane,
            &mut self.work,
            soft,
            reading,
        );
    }
}
