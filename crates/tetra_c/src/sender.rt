// A sender as C has it.
ghost use Rattle.std.specs.Prelude.{◌≡◌, ◌≢◌, ◌<◌, ◌≤◌, ◌+◌, ◌++◌, ◌∷◌, [], pos, List, IfOk};
ghost use Rattle.std.specs.Result.{result_err};
ghost use Rattle.tetra_settings.specs.Blocks.{Fits};
ghost use Rattle.tetra_settings.specs.Validity.{IsValid};
ghost use Rattle.tetra_settings.specs.declared.blocks.SlotBlocks.{SlotBlocks};
ghost use Rattle.tetra_session.specs.Sent.{slot_written};
ghost use Rattle.tetra_c.specs.Blocks.{blocks_of};
ghost use Rattle.tetra_c.specs.Faults.{answer_of, number_of};
ghost use Rattle.tetra_c.specs.Settings.{settings_fault, settings_of};
ghost use Rattle.tetra_c.specs.Senders.{SenderIs, AreClear, is_lane, are_lanes, sender_fault, slot_fault};

use crate::blocks::{TetraBlocks, check_fields, fitting_blocks};
use crate::fault::Fault;
use crate::kept_blocks::TetraKeptBlocks;
use crate::rings::is_ring;
use crate::settings::{TetraSettings, checked_settings};
use tetra_scramble::key;
use tetra_session::{depth, send_turn};
use tetra_settings::{Settings, SlotBlocks, clock};

/// A sender: its settings, how many slots it has written, and what it keeps of timeslots 1 to 4. The caller keeps it, and
/// may copy it and store it.
#[repr(C)]
#[derive(Clone, Copy)]
pub struct TetraSender {
    pub settings: TetraSettings,
    pub turn: u32,
    pub lanes: [TetraKeptBlocks; 4],
}

/// Begins a sender. Answers 0, or the number of a fault, and then the sender is as it was.
#[unsafe(no_mangle)]
pub extern "C" fn tetra_sender_init(sender: &mut TetraSender, settings: &TetraSettings) -> i32
    ensures answer { result ≡ answer_of (settings_fault settings.now) }
    ensures sender { result ≡ pos 0 → SenderIs (settings_of settings.now) [] sender.new }
    ensures kept { result ≢ pos 0 → sender.new ≡ sender.old }
{
    match checked_settings(settings) {
        Ok(_) => {
            sender.settings = *settings;
            sender.turn = 0;
            clear_lanes(&mut sender.lanes);
            0
        }
        Err(fault) => fault.number(),
    }
}

/// Begins each lane anew.
fn clear_lanes(lanes: &mut [TetraKeptBlocks; 4])
    ensures { AreClear lanes.new }
{
    for c in 0..4usize {
        lanes[c].clear();
    }
}

/// Whether what is kept of timeslot `c`, from 1 to 4, is what its mode keeps.
fn is_lane(settings: &Settings, lanes: &[TetraKeptBlocks; 4], c: usize) -> bool
    requires timeslot { (1 ≤ c) × (c ≤ 4) }
    ensures { result ≡ is_lane settings.now lanes.now c }
{
    let lane = &lanes[c - 1];
    is_ring(depth(settings.modes[c - 1]), lane.count, lane.oldest)
}

/// Whether what is kept of each timeslot is what its mode keeps.
fn are_lanes(settings: &Settings, lanes: &[TetraKeptBlocks; 4]) -> bool
    ensures { result ≡ are_lanes settings.now lanes.now }
{
    is_lane(settings, lanes, 1)
        && is_lane(settings, lanes, 2)
        && is_lane(settings, lanes, 3)
        && is_lane(settings, lanes, 4)
}

/// The settings of a sender that may write a slot.
fn checked_sender(sender: &TetraSender) -> Result<Settings, Fault>
    ensures fault { result_err result ≡ sender_fault sender.now }
    ensures value { IfOk result (λ found. found ≡ settings_of sender.now.settings) }
    ensures valid { IfOk result IsValid }
    ensures turn { IfOk result (λ _. sender.now.turn < 16777216) }
{
    let settings = checked_settings(&sender.settings)?;
    if sender.turn >= 16_777_216 {
        return Err(Fault::Turn);
    }
    if !are_lanes(&settings, &sender.lanes) {
        return Err(Fault::Kept);
    }
    Ok(settings)
}

/// The settings of the sender and the blocks of the slot whose turn it is, where it may write them.
fn checked(sender: &TetraSender, blocks: &TetraBlocks) -> Result<(Settings, SlotBlocks), Fault>
    ensures fault { result_err result ≡ slot_fault sender.now blocks.now }
    ensures settings { IfOk result (λ found. found.0 ≡ settings_of sender.now.settings) }
    ensures valid { IfOk result (λ found. IsValid found.0) }
    ensures turn { IfOk result (λ _. sender.now.turn < 16777216) }
    ensures given { IfOk result (λ found. found.1 ≡ blocks_of found.0.dir blocks.now) }
    ensures fits { IfOk result (λ found. Fits found.0 sender.now.turn found.1) }
{
    check_fields(blocks)?;
    let settings = checked_sender(sender)?;
    let blocks = fitting_blocks(&settings, sender.turn, blocks)?;
    Ok((settings, blocks))
}

/// Writes the slot whose turn it is, of 510 values, with these blocks. Answers 0, or the number of a fault, and then
/// nothing is written and it is still the turn of this slot.
#[unsafe(no_mangle)]
pub extern "C" fn tetra_sender_slot(
    sender: &mut TetraSender,
    blocks: &TetraBlocks,
    slot: &mut [i8; 510],
) -> i32
    ensures answer { result ≡ answer_of (slot_fault sender.old blocks.now) }
    ensures slot { result ≡ pos 0 → (settings : Settings) (history : List SlotBlocks) → SenderIs settings history sender.old
        → slot.new ≡ slot_written settings history (blocks_of settings.dir blocks.now) }
    ensures stands { result ≡ pos 0 → (settings : Settings) (history : List SlotBlocks)
        → SenderIs settings history sender.old
        → SenderIs settings (history ++ blocks_of settings.dir blocks.now ∷ []) sender.new }
    ensures settings { sender.new.settings ≡ sender.old.settings }
    ensures turn { result ≡ pos 0 → sender.new.turn ≡ sender.old.turn + 1 }
    // What is kept is refused only where it was changed by another hand.
    ensures own { (settings : Settings) (history : List SlotBlocks) → SenderIs settings history sender.old
        → result ≢ number_of Fault.Kept }
    ensures slot_kept { result ≢ pos 0 → slot.new ≡ slot.old }
    ensures sender_kept { result ≢ pos 0 → sender.new ≡ sender.old }
{
    match checked(sender, blocks) {
        Ok((settings, blocks)) => {
            let key = key(&settings.colour);
            let (timeslot, _, _) = clock(settings.at, sender.turn);
            let lane = &mut sender.lanes[usize::from(timeslot) - 1];
            *slot = send_turn(&settings, &key, sender.turn, lane, &blocks);
            sender.turn += 1;
            0
        }
        Err(fault) => fault.number(),
    }
}
