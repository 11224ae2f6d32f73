// Counting a trial, slot by slot.
ghost use Rattle.std.specs.Prelude.{◌≡◌, ◌<◌, ◌+◌, ◌^◌, ℕ, List, IfSome};
ghost use Rattle.tetra_settings.specs.Validity.{IsValid};
ghost use Rattle.tetra_settings.specs.declared.types.Settings.{Settings as TheSettings};
ghost use Rattle.tetra_settings.specs.declared.blocks.SlotBlocks.{SlotBlocks as TheBlocks};
ghost use Rattle.tetra_trial.specs.Kept.{KeptStands};
ghost use Rattle.tetra_trial.specs.Sent.{has_letter, in_place};
ghost use Rattle.tetra_trial.specs.Tallies.{AtMost, with_fields, with_letter};
ghost use Rattle.tetra_trial.specs.Trials.{tally_of};

use crate::kept::Kept;
use crate::passage::Passage;
use crate::sent::{access_sent, has_letter, in_place};
use crate::tally::Tally;
use arrayvec::ArrayVec;
use tetra_settings::{Settings, SlotBlocks, SlotReading};

/// Counts the reading of the slot whose turn it is against its blocks.
fn count(tally: &mut Tally, kept: &Kept, blocks: &SlotBlocks, reading: &SlotReading)
    requires room { AtMost (2 ^ 61) tally.old }
    requires access { IfSome blocks.now.aach (λ m. m < 16384) }
    ensures counted { (settings : TheSettings) (history : List TheBlocks) → KeptStands settings history kept.now
        → tally.new ≡ with_fields reading.now.fields.items
        (in_place settings history blocks.now reading.now.letter)
        (with_letter (has_letter blocks.now reading.now.letter) tally.old) }
    ensures most { (top : ℕ) → AtMost top tally.old → AtMost (top + 2 ^ 36) tally.new }
{
    tally.add_letter(has_letter(blocks, reading.letter));
    let access = access_sent(blocks.aach);
    let sent = in_place(kept, blocks, access.as_ref(), reading.letter);
    tally.add_fields(&reading.fields, sent);
}

/// Counts the slots of a trial: blocks are made of the number that the settings draw from, sent, damaged and received,
/// slot by slot, and each field that is read is compared with what was sent in its place. The settings are valid. This
/// project's own.
pub fn trial(settings: &Settings) -> Tally
    requires { IsValid settings.now }
    ensures { result ≡ tally_of settings.now }
{
    let mut passage = Passage::new(settings);
    let mut kept = Kept::new(settings);
    let mut tally = Tally::new(settings.slots);
    let mut reading = SlotReading {
        letter: 0,
        fields: ArrayVec::new(),
    };
    for _ in 0..settings.slots {
        let blocks = passage.pass(&mut reading);
        count(&mut tally, &kept, &blocks, &reading);
        kept.take(&blocks);
    }
    tally
}
