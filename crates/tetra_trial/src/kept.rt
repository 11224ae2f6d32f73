// The loads that are kept of four timeslots.
ghost use Rattle.std.specs.Prelude.{◌≡◌, ◌<◌, ◌≤◌, ◌+◌, ◌++◌, ◌∷◌, [], List, Bool, ℕ};
ghost use Rattle.std.specs.Option.{option_map};
ghost use Rattle.tetra_settings.specs.Validity.{IsValid};
ghost use Rattle.tetra_session.specs.Sent.{load_of};
ghost use Rattle.tetra_session.specs.lemmas.Valid.{IsValid-prop};
ghost use Rattle.tetra_session.specs.Time.{depth, span_slots};
ghost use Rattle.tetra_trial.specs.Sent.{load_in_place, data_in_place, loads_sent};
ghost use Rattle.tetra_trial.specs.Loads.{load_before};

use crate::loads::Loads;
use tetra_bits::Bits;
use tetra_settings::{Body, Mode, Settings, SlotBlocks, SlotUse, Span, clock, mode_at, slot_use};

/// The load of a body; empty where it has none.
fn load(body: &Body) -> Bits
    ensures { result ≡ load_of body.now }
{
    match body {
        Body::Traffic { load } | Body::Stolen { load, .. } | Body::Both { load, .. } => load.copy(),
        Body::Full { .. } | Body::Halves { .. } | Body::Sync { .. } | Body::Control { .. } => {
            Bits::new()
        }
    }
}

/// How many traffic slots a span is.
fn slots(span: Span) -> usize
    ensures slots { result ≡ span_slots span }
    ensures some { (1 ≤ result) × (result ≤ 8) }
{
    match span {
        Span::One => 1,
        Span::Four => 4,
        Span::Eight => 8,
    }
}

/// The last loads of four timeslots. It stands for its settings and for the blocks that were sent so far.
#[derive(Drop)]
pub struct Kept {
    settings: Settings,
    /// The number of slots so far, so that of the slot whose turn it is.
    turn: u32,
    timeslots: [Loads; 4],
    ghost valid: { IsValid settings } by { IsValid-prop settings },
}

impl Kept {
    ghost use Rattle.std.specs.Prelude.{length};
    ghost use Rattle.tetra_settings.specs.Slots.{timeslot_of, mode_of};
    ghost use Rattle.tetra_settings.specs.declared.types.Settings.{Settings as TheSettings};
    ghost use Rattle.tetra_settings.specs.declared.blocks.SlotBlocks.{SlotBlocks as TheBlocks};
    ghost use Rattle.tetra_trial.specs.Kept.{KeptStands};

    /// Nothing is sent yet. The settings are valid.
    pub fn new(settings: &Settings) -> Kept
        requires { IsValid settings.now }
        ensures { KeptStands settings.now [] result }
    {
        Kept {
            settings: *settings,
            turn: 0,
            timeslots: [Loads::new(), Loads::new(), Loads::new(), Loads::new()],
        }
    }

    /// What was sent in the place of the field of this load, which is that of the slot whose turn it is.
    pub fn load_in_place<'a>(&'a self, load: &'a Bits) -> Option<&'a Bits>
        ensures { (settings : TheSettings) (history : List TheBlocks) → KeptStands settings history self.now
            → option_map (λ s. s.now) result ≡ load_in_place (mode_of settings (length history))
            (loads_sent settings (timeslot_of settings.at (length history)) history) load.now }
    {
        match mode_at(&self.settings, self.turn) {
            Mode::D48(span) | Mode::D24(span) => self.load_before(slots(span) - 1, load),
            Mode::D72 | Mode::Speech => Some(load),
            Mode::Sig | Mode::Cb => None,
        }
    }

    /// The same where both half slots are stolen, so that no speech is sent.
    pub fn data_in_place<'a>(&'a self, load: &'a Bits) -> Option<&'a Bits>
        ensures { (settings : TheSettings) (history : List TheBlocks) → KeptStands settings history self.now
            → option_map (λ s. s.now) result ≡ data_in_place (mode_of settings (length history))
            (loads_sent settings (timeslot_of settings.at (length history)) history) load.now }
    {
        match mode_at(&self.settings, self.turn) {
            Mode::D72 | Mode::D48(_) | Mode::D24(_) => self.load_in_place(load),
            Mode::Speech | Mode::Sig | Mode::Cb => None,
        }
    }

    /// The load of the timeslot whose turn it is that lies so many traffic slots before this load, fewer than eight.
    fn load_before<'a>(&'a self, count: usize, load: &'a Bits) -> Option<&'a Bits>
        requires { count < 8 }
        ensures { (settings : TheSettings) (history : List TheBlocks) → KeptStands settings history self.now
            → 1 ≤ depth (mode_of settings (length history))
            → option_map (λ s. s.now) result
            ≡ load_before count (loads_sent settings (timeslot_of settings.at (length history)) history ++ load.now ∷ []) }
    {
        if count == 0 {
            return Some(load);
        }
        let (timeslot, _, _) = clock(self.settings.at, self.turn);
        self.timeslots[usize::from(timeslot) - 1].back(count - 1)
    }

    /// Takes the blocks of the slot whose turn it is.
    pub fn take(&mut self, blocks: &SlotBlocks)
        requires { self.old.turn < 16777216 }
        ensures { (settings : TheSettings) (history : List TheBlocks) → KeptStands settings history self.old
            → KeptStands settings (history ++ blocks.now ∷ []) self.new }
    {
        let turn = self.turn;
        self.turn += 1;
        if slot_use(&self.settings, turn) == SlotUse::Traffic {
            let (timeslot, _, _) = clock(self.settings.at, turn);
            self.timeslots[usize::from(timeslot) - 1].push(load(&blocks.body));
        }
    }
}
