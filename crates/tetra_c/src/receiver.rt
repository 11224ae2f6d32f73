// A receiver as C has it.
ghost use Rattle.std.specs.Prelude.{◌≡◌, ◌≢◌, ◌<◌, ◌≤◌, ◌+◌, ◌-◌, ◌++◌, ◌∷◌, [], pos, length, List, ℤ, IfOk, IsOk, IsErr};
ghost use Rattle.std.specs.Result.{result_err};
ghost use Rattle.tetra_settings.specs.Slots.{timeslot_of};
ghost use Rattle.tetra_settings.specs.Validity.{IsValid};
ghost use Rattle.tetra_session.specs.Heard.{HeardStands, slot_reading};
ghost use Rattle.tetra_c.specs.Faults.{answer_of, number_of};
ghost use Rattle.tetra_c.specs.KeptWords.{KeptStands};
ghost use Rattle.tetra_c.specs.Readings.{ArePut};
ghost use Rattle.tetra_c.specs.Receivers.{is_lane, are_lanes, AreClear, receiver_fault, ReceiverIs};
ghost use Rattle.tetra_c.specs.Settings.{settings_fault, settings_of};
ghost use Rattle.tetra_c.specs.Values.{soft_values};

use crate::fault::Fault;
use crate::kept_words::TetraKeptWords;
use crate::readings::{TetraField, TetraReading, put_fields};
use crate::rings::is_ring;
use crate::settings::{TetraSettings, checked_settings};
use crate::soft::slot_values;
use arrayvec::ArrayVec;
use tetra_bits::Bits;
use tetra_rm::AccessCode;
use tetra_scramble::key;
use tetra_session::{Front, Work, depth, hear_before_load, hear_rest};
use tetra_settings::{Settings, clock};

/// A receiver: its settings, how many slots it has read, and what is kept of timeslots 1 to 4. The caller keeps it. `work`
/// is room in which the fields of a record are read, and nothing that stands in it is looked at.
#[repr(C)]
#[derive(Drop)]
pub struct TetraReceiver {
    pub settings: TetraSettings,
    pub turn: u32,
    pub lanes: [TetraKeptWords; 4],
    pub work: TetraField,
}

/// Begins a receiver. Answers 0, or the number of a fault of the settings, and then the receiver is as it was: -3 for the
/// colour, -4 for the direction or a mode, -5 for the place of slot 0.
#[unsafe(no_mangle)]
pub extern "C" fn tetra_receiver_init(receiver: &mut TetraReceiver, settings: &TetraSettings) -> i32
    ensures answer { result ≡ answer_of (settings_fault settings.now) }
    ensures stands { result ≡ pos 0 → ReceiverIs (settings_of settings.now) [] receiver.new }
    ensures kept { result ≢ pos 0 → receiver.new ≡ receiver.old }
{
    match checked_settings(settings) {
        Ok(_) => {
            receiver.settings = *settings;
            receiver.turn = 0;
            clear_lanes(&mut receiver.lanes);
            0
        }
        Err(fault) => fault.number(),
    }
}

/// Begins each lane anew.
fn clear_lanes(lanes: &mut [TetraKeptWords; 4])
    ensures { AreClear lanes.new }
{
    for c in 0..4usize {
        lanes[c].clear();
    }
}

/// Whether what is kept of timeslot `c + 1` is what its mode keeps.
fn is_lane(settings: &Settings, lanes: &[TetraKeptWords; 4], c: usize) -> bool
    requires { c < 4 }
    ensures { result ≡ is_lane settings.now lanes.now (c + 1) }
{
    let lane = &lanes[c];
    is_ring(depth(settings.modes[c]), lane.count, lane.oldest)
}

/// Whether what is kept of each timeslot is what its mode keeps.
fn are_lanes(settings: &Settings, lanes: &[TetraKeptWords; 4]) -> bool
    ensures { result ≡ are_lanes settings.now lanes.now }
{
    is_lane(settings, lanes, 0)
        && is_lane(settings, lanes, 1)
        && is_lane(settings, lanes, 2)
        && is_lane(settings, lanes, 3)
}

/// The settings of a receiver that may read its next slot.
pub fn ready(receiver: &TetraReceiver) -> Result<Settings, Fault>
    ensures fault { result_err result ≡ receiver_fault receiver.now }
    ensures value { IfOk result (λ found. found ≡ settings_of receiver.now.settings) }
    ensures valid { IfOk result IsValid }
    ensures few { IfOk result (λ _. receiver.now.turn < 16777216) }
{
    let settings = checked_settings(&receiver.settings)?;
    if receiver.turn >= 16_777_216 {
        return Err(Fault::Turn);
    }
    if !are_lanes(&settings, &receiver.lanes) {
        return Err(Fault::Kept);
    }
    Ok(settings)
}

/// Where the lane of the slot numbered `turn` stands: its timeslot, counted from 0.
pub fn lane_at(settings: &Settings, turn: u32) -> usize
    requires { IsValid settings.now }
    ensures value { result + 1 ≡ timeslot_of settings.now.at turn }
    ensures within { result < 4 }
{
    let (timeslot, _, _) = clock(settings.at, turn);
    usize::from(timeslot) - 1
}

/// A front without fields, to be written over.
pub fn empty_front() -> Front {
    Front {
        letter: 0,
        fields: ArrayVec::new(),
    }
}

/// Reads the slot numbered `turn`, writes what is read of it, and takes it into the lane of its timeslot. It is heard in two
/// steps, so that a half slot is decoded once, and tells then where the load stands.
#[inline(never)]
fn read_slot(
    settings: &Settings,
    turn: u32,
    slot: &[i8; 510],
    lane: &mut TetraKeptWords,
    reading: &mut TetraReading,
)
    requires { IsValid settings.now }
    ensures reading { (history : List (List ℤ)) → turn ≡ length history
        → HeardStands KeptStands settings.now turn history lane.old
        → ArePut (slot_reading settings.now history (soft_values slot.now)) reading.new }
    ensures stands { (history : List (List ℤ)) → turn ≡ length history
        → HeardStands KeptStands settings.now turn history lane.old
        → HeardStands KeptStands settings.now turn (history ++ soft_values slot.now ∷ []) lane.new }
{
    let key = key(&settings.colour);
    let code = AccessCode::of(&settings.rows);
    let soft = slot_values(slot);
    let mut work = Work::new();
    let mut message = Bits::new();
    let mut front = empty_front();
    hear_before_load(settings, &key, turn, &mut work, &soft, &mut front);
    let begun = front.fields.len();
    let last_good = put_fields(&code, &front.fields, 0, &mut message, &mut reading.fields);
    hear_rest(
        settings, &key, turn, lane, last_good, &mut work, &soft, &mut front,
    );
    put_fields(
        &code,
        &front.fields,
        begun,
        &mut message,
        &mut reading.fields,
    );
    reading.letter = front.letter;
    reading.count = front.fields.len() as u8;
}

/// Reads the slot whose turn it is, and writes what is read of it.
fn read_next(
    receiver: &mut TetraReceiver,
    slot: &[i8; 510],
    reading: &mut TetraReading,
) -> Result<(), Fault>
    ensures fault { result_err result ≡ receiver_fault receiver.old }
    ensures reading { IsOk result → (settings : Settings) (history : List (List ℤ)) → ReceiverIs settings history receiver.old
        → ArePut (slot_reading settings history (soft_values slot.now)) reading.new }
    ensures stands { IsOk result → (settings : Settings) (history : List (List ℤ)) → ReceiverIs settings history receiver.old
        → ReceiverIs settings (history ++ soft_values slot.now ∷ []) receiver.new }
    ensures settings { receiver.new.settings ≡ receiver.old.settings }
    ensures turn { IsOk result → receiver.new.turn ≡ receiver.old.turn + 1 }
    ensures reading_kept { IsErr result → reading.new ≡ reading.old }
    ensures kept { IsErr result → receiver.new ≡ receiver.old }
{
    let settings = ready(receiver)?;
    let at = lane_at(&settings, receiver.turn);
    read_slot(
        &settings,
        receiver.turn,
        slot,
        &mut receiver.lanes[at],
        reading,
    );
    receiver.turn += 1;
    Ok(())
}

/// Reads the slot whose turn it is from its 510 values. Answers 0, or the number of a fault, and then nothing is written
/// and it is still the turn of this slot: -3 to -5 as `tetra_receiver_init`, -6 where there were 16,777,216 slots, -7
/// where what is kept of a timeslot is not what its mode keeps.
#[unsafe(no_mangle)]
pub extern "C" fn tetra_receiver_slot(
    receiver: &mut TetraReceiver,
    slot: &[i8; 510],
    reading: &mut TetraReading,
) -> i32
    ensures answer { result ≡ answer_of (receiver_fault receiver.old) }
    ensures reading { result ≡ pos 0 → (settings : Settings) (history : List (List ℤ)) → ReceiverIs settings history receiver.old
        → ArePut (slot_reading settings history (soft_values slot.now)) reading.new }
    ensures stands { result ≡ pos 0 → (settings : Settings) (history : List (List ℤ)) → ReceiverIs settings history receiver.old
        → ReceiverIs settings (history ++ soft_values slot.now ∷ []) receiver.new }
    ensures settings { receiver.new.settings ≡ receiver.old.settings }
    ensures turn { result ≡ pos 0 → receiver.new.turn ≡ receiver.old.turn + 1 }
    // What is kept is refused only where it was changed by another hand.
    ensures own { (settings : Settings) (history : List (List ℤ)) → ReceiverIs settings history receiver.old
        → result ≢ number_of Fault.Kept }
    ensures reading_kept { result ≢ pos 0 → reading.new ≡ reading.old }
    ensures receiver_kept { result ≢ pos 0 → receiver.new ≡ receiver.old }
{
    match read_next(receiver, slot, reading) {
        Ok(()) => 0,
        Err(fault) => fault.number(),
    }
}
