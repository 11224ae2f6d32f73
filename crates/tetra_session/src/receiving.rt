// Receiving one slot, with what is kept of its timeslot.
ghost use Rattle.std.specs.Prelude.{◌≡◌, ◌≤◌, ◌++◌, ◌∷◌, [], List, ℕ, ℤ, IfSome, MatchOption, All, length, map, nat_abs};
ghost use Rattle.arrayvec.specs.ArrayVec.{array_vec_len};
ghost use Rattle.tetra_bits.specs.Soft.{AllSoft, AllWithin};
ghost use Rattle.tetra_bits.specs.declared.soft.TheConstants.{SOFT_MAX};
ghost use Rattle.tetra_scramble.specs.Key.{key_of};
ghost use Rattle.tetra_settings.specs.Readings.{IsWellFormed};
ghost use Rattle.tetra_settings.specs.Slots.{byte_of, mode_of, use_of};
ghost use Rattle.tetra_settings.specs.Validity.{IsValid};
ghost use Rattle.tetra_settings.specs.declared.slots.SlotUse.TheVariants as SlotUse;
ghost use Rattle.tetra_session.specs.Begun.{IsBegun, IsLastGood, GoesOn};
ghost use Rattle.tetra_session.specs.Fronts.{IsFront, IsFrontField, IsBounded};
ghost use Rattle.tetra_session.specs.Heard.{HeardStands, letter_heard, second_stolen, block_heard, field_heard, field_of_place, slot_front, slot_reading};
ghost use Rattle.tetra_session.specs.Spots.{FitsSpot, load_place, places_of};
ghost use Rattle.tetra_session.specs.Time.{depth};

use crate::fields::{
    Work, allowed_in, block_is_soft, gather, hear_field, hear_fields, keep_fields, letter_by,
    load_by_front, load_by_reading, read_fields, read_load,
};
use crate::front::{Front, FrontField};
use crate::gathering::Gathers;
use crate::spans::depth;
use crate::spots::{Place, has_load, is_downlink, load_place, places_before_load};
use crate::tables::Tables;
use arrayvec::ArrayVec;
use tetra_bits::Soft;
use tetra_bursts::{field_sizes, kind};
use tetra_scramble::Key;
use tetra_settings::{Dir, Field, Letter, Settings, SlotReading, mode_at, slot_use};

/// The letter of slot `turn`, by the values of its 510 positions.
#[tactic(auto, unfolding(crate::specs::Heard::letter_heard))]
fn letter_heard(settings: &Settings, turn: u32, soft: &[i16; 510]) -> Letter
    requires valid { IsValid settings.now }
    requires soft { AllSoft soft.now }
    ensures { result ≡ letter_heard settings.now turn soft.now }
{
    let slot = slot_use(settings, turn);
    let dir = settings.dir;
    letter_by(slot, kind(soft, is_downlink(dir), allowed_in(dir, slot)))
}

/// Takes slot `turn`, with the place of its load, into the lane of its timeslot. `work.block` is then the block of
/// protected data that is complete with it, where one is.
fn take_slot<G: Gathers>(
    settings: &Settings,
    key: &Key,
    turn: u32,
    lane: &mut G,
    load: Option<Place>,
    soft: &[i16; 510],
    work: &mut Work,
)
    requires valid { IsValid settings.now }
    requires keyed { key.now ≡ key_of settings.now.colour }
    requires soft { AllSoft soft.now }
    requires load { load ≡ load_place (letter_heard settings.now turn soft.now) (mode_of settings.now turn)
        (second_stolen settings.now.dir key.now soft.now) }
    ensures block { (history : List (List ℤ)) → turn ≡ length history → HeardStands G.Stands settings.now turn history lane.old
        → use_of settings.now (length history) ≡ SlotUse.Traffic → 1 ≤ depth (mode_of settings.now (length history))
        → work.new.block ≡ block_heard settings.now history soft.now }
    ensures size { IfSome work.new.block (λ values. length values ≡ 432) }
    ensures stands { (history : List (List ℤ)) → turn ≡ length history → HeardStands G.Stands settings.now turn history lane.old
        → HeardStands G.Stands settings.now turn (history ++ soft.now ∷ []) lane.new }
{
    match load {
        Some(load) => gather(
            lane,
            depth(mode_at(settings, turn)),
            settings.dir,
            load,
            key,
            soft,
            work,
        ),
        None => work.block = None,
    }
}

/// Takes slot `turn`, of this letter, and writes its fields with what is read of them over those that are there.
fn read_slot<G: Gathers>(
    settings: &Settings,
    tables: &Tables,
    turn: u32,
    lane: &mut G,
    letter: Letter,
    work: &mut Work,
    soft: &[i16; 510],
    fields: &mut ArrayVec<Field, 4>,
)
    requires valid { IsValid settings.now }
    requires keyed { tables.now.key ≡ key_of settings.now.colour }
    requires access { tables.now.access ≡ settings.now.rows }
    requires soft { AllSoft soft.now }
    requires letter { letter ≡ letter_heard settings.now turn soft.now }
    ensures fields { fields.new.items
        ≡ map (field_of_place settings.now tables.now.key work.new.block soft.now)
        (places_of settings.now.dir letter (mode_of settings.now turn)
        (second_stolen settings.now.dir tables.now.key soft.now)) }
    ensures block { (history : List (List ℤ)) → turn ≡ length history → HeardStands G.Stands settings.now turn history lane.old
        → use_of settings.now (length history) ≡ SlotUse.Traffic → 1 ≤ depth (mode_of settings.now (length history))
        → work.new.block ≡ block_heard settings.now history soft.now }
    ensures size { IfSome work.new.block (λ values. length values ≡ 432) }
    ensures stands { (history : List (List ℤ)) → turn ≡ length history → HeardStands G.Stands settings.now turn history lane.old
        → HeardStands G.Stands settings.now turn (history ++ soft.now ∷ []) lane.new }
{
    let places = places_before_load(settings.dir, letter);
    keep_fields(fields, places.len() + usize::from(has_load(letter)));
    read_fields(
        settings,
        &places,
        tables,
        &None,
        soft,
        &mut work.scratch,
        fields,
    );
    let load = load_by_reading(letter, mode_at(settings, turn), &fields[..places.len()]);
    take_slot(settings, &tables.key, turn, lane, load, soft, work);
    read_load(
        settings,
        load,
        tables,
        &work.block,
        soft,
        &mut work.scratch,
        fields,
    );
}

/// The first of the two steps in which a slot is heard: the letter of slot `turn`, which it answers, and the soft values of
/// the fields in front of its load, from the values of its 510 positions, each from -`SOFT_MAX` to `SOFT_MAX`, written over
/// a front that is there. The second is `hear_rest`; between the two the last of these fields is read, since it tells where
/// the load stands in a slot of data whose first half is stolen. The settings are valid, and the key is theirs.
pub fn hear_before_load(
    settings: &Settings,
    key: &Key,
    turn: u32,
    work: &mut Work,
    soft: &[i16; 510],
    front: &mut Front,
) -> Letter
    requires valid { IsValid settings.now }
    requires keyed { key.now ≡ key_of settings.now.colour }
    requires soft { AllSoft soft.now }
    ensures letter { result ≡ letter_heard settings.now turn soft.now }
    ensures begun { IsBegun settings.now turn soft.now front.new }
    ensures formed { All IsFrontField front.new.fields.items }
{
    let letter = letter_heard(settings, turn, soft);
    let places = places_before_load(settings.dir, letter);
    front.letter = letter.byte();
    keep_fields(&mut front.fields, places.len());
    hear_fields(
        settings.dir,
        &places,
        key,
        &None,
        soft,
        &mut work.scratch.type5,
        &mut front.fields,
    );
    field_sizes();
    letter
}

/// Puts the field of the load with its values, where there is one, behind the fields in front of it.
fn add_load(
    dir: Dir,
    load: Option<Place>,
    key: &Key,
    block: &Option<Soft>,
    soft: &[i16; 510],
    type5: &mut Soft,
    fields: &mut ArrayVec<FrontField, 4>,
)
    requires soft { AllSoft soft.now }
    requires place { IfSome load (FitsSpot dir) }
    requires room { array_vec_len fields.old ≤ 3 }
    ensures { MatchOption load (fields.new.items ≡ fields.old.items) (λ place. fields.new.items
        ≡ fields.old.items ++ field_heard dir key.now block.now soft.now place ∷ []) }
{
    if let Some(load) = load {
        let mut field = FrontField::default();
        hear_field(dir, load, key, block, soft, type5, &mut field);
        fields.push(field);
    }
}

/// The second step, once the place of the load is known: takes slot `turn` into the lane of its timeslot, and puts the
/// field of the load, where there is one, behind those of the first step.
fn hear_load<G: Gathers>(
    settings: &Settings,
    key: &Key,
    turn: u32,
    lane: &mut G,
    load: Option<Place>,
    work: &mut Work,
    soft: &[i16; 510],
    front: &mut Front,
)
    requires valid { IsValid settings.now }
    requires keyed { key.now ≡ key_of settings.now.colour }
    requires soft { AllSoft soft.now }
    requires load { load ≡ load_place (letter_heard settings.now turn soft.now) (mode_of settings.now turn)
        (second_stolen settings.now.dir key.now soft.now) }
    requires begun { IsBegun settings.now turn soft.now front.old }
    ensures front { (history : List (List ℤ)) → turn ≡ length history → HeardStands G.Stands settings.now turn history lane.old
        → front.new ≡ slot_front settings.now history soft.now }
    ensures goes_on { GoesOn front.old front.new }
    ensures well_formed { IsFront front.new }
    ensures stands { (history : List (List ℤ)) → turn ≡ length history → HeardStands G.Stands settings.now turn history lane.old
        → HeardStands G.Stands settings.now turn (history ++ soft.now ∷ []) lane.new }
{
    take_slot(settings, key, turn, lane, load, soft, work);
    add_load(
        settings.dir,
        load,
        key,
        &work.block,
        soft,
        &mut work.scratch.type5,
        &mut front.fields,
    );
    field_sizes();
}

/// The place of the load of slot `turn`, by its letter as a byte and by whether block 2 is stolen.
fn load_begun(settings: &Settings, turn: u32, letter: u8, second_stolen: bool) -> Option<Place>
    requires { IsValid settings.now }
    ensures { (read : Letter) → letter ≡ byte_of read
        → result ≡ load_place read (mode_of settings.now turn) second_stolen }
{
    match Letter::from_byte(letter) {
        Some(letter) => load_place(letter, mode_at(settings, turn), second_stolen),
        None => None,
    }
}

/// The second of the two steps in which a slot is heard: puts the load of slot `turn`, where it has one, behind the fields
/// that `hear_before_load` has written from the same values. `last_good` tells whether the last of these is read as Good;
/// where there is none, nothing rests on it. `lane` is that of the slot's timeslot, and takes the slot. The settings are
/// valid, and the key is theirs.
pub fn hear_rest<G: Gathers>(
    settings: &Settings,
    key: &Key,
    turn: u32,
    lane: &mut G,
    last_good: bool,
    work: &mut Work,
    soft: &[i16; 510],
    front: &mut Front,
)
    requires valid { IsValid settings.now }
    requires keyed { key.now ≡ key_of settings.now.colour }
    requires soft { AllSoft soft.now }
    requires begun { IsBegun settings.now turn soft.now front.old }
    requires last { IsLastGood settings.now.rows.0 front.old.fields.items last_good }
    ensures front { (history : List (List ℤ)) → turn ≡ length history → HeardStands G.Stands settings.now turn history lane.old
        → front.new ≡ slot_front settings.now history soft.now }
    ensures goes_on { GoesOn front.old front.new }
    ensures well_formed { IsFront front.new }
    ensures stands { (history : List (List ℤ)) → turn ≡ length history → HeardStands G.Stands settings.now turn history lane.old
        → HeardStands G.Stands settings.now turn (history ++ soft.now ∷ []) lane.new }
{
    let load = load_begun(settings, turn, front.letter, last_good);
    hear_load(settings, key, turn, lane, load, work, soft, front);
}

/// The letter of slot `turn` and the soft values of its fields, from the values of its 510 positions, each from
/// -`SOFT_MAX` to `SOFT_MAX`, written over a front that is there: both steps in one. `lane` is that of the slot's timeslot,
/// and takes the slot. The settings are valid, and the key is theirs.
pub fn hear_turn<G: Gathers>(
    settings: &Settings,
    key: &Key,
    turn: u32,
    lane: &mut G,
    work: &mut Work,
    soft: &[i16; 510],
    front: &mut Front,
)
    requires valid { IsValid settings.now }
    requires keyed { key.now ≡ key_of settings.now.colour }
    requires soft { AllSoft soft.now }
    ensures front { (history : List (List ℤ)) → turn ≡ length history → HeardStands G.Stands settings.now turn history lane.old
        → front.new ≡ slot_front settings.now history soft.now }
    ensures well_formed { IsFront front.new }
    ensures stands { (history : List (List ℤ)) → turn ≡ length history → HeardStands G.Stands settings.now turn history lane.old
        → HeardStands G.Stands settings.now turn (history ++ soft.now ∷ []) lane.new }
{
    let letter = hear_before_load(settings, key, turn, work, soft, front);
    let load = load_by_front(letter, mode_at(settings, turn), &front.fields);
    hear_load(settings, key, turn, lane, load, work, soft, front);
}

/// The reading of slot `turn`, from the values of its 510 positions, each from -`SOFT_MAX` to `SOFT_MAX`, written over a
/// reading that is there, whose potentials serve again: of each field the first-least message with its metric and its
/// mark. `lane` is that of the slot's timeslot, and takes the slot. The settings are valid, and the tables are theirs.
pub fn read_turn<G: Gathers>(
    settings: &Settings,
    tables: &Tables,
    turn: u32,
    lane: &mut G,
    work: &mut Work,
    soft: &[i16; 510],
    reading: &mut SlotReading,
)
    requires valid { IsValid settings.now }
    requires keyed { tables.now.key ≡ key_of settings.now.colour }
    requires access { tables.now.access ≡ settings.now.rows }
    requires soft { AllSoft soft.now }
    ensures reading { (history : List (List ℤ)) → turn ≡ length history → HeardStands G.Stands settings.now turn history lane.old
        → reading.new ≡ slot_reading settings.now history soft.now }
    ensures well_formed { IsWellFormed reading.new }
    ensures small { All (IsBounded (nat_abs SOFT_MAX)) reading.new.fields.items }
    ensures bounded { (history : List (List ℤ)) → turn ≡ length history → HeardStands G.Stands settings.now turn history lane.old
        → (top : ℕ) → All (AllWithin top) history → AllWithin top soft.now → All (IsBounded top) reading.new.fields.items }
    ensures stands { (history : List (List ℤ)) → turn ≡ length history → HeardStands G.Stands settings.now turn history lane.old
        → HeardStands G.Stands settings.now turn (history ++ soft.now ∷ []) lane.new }
{
    let letter = letter_heard(settings, turn, soft);
    reading.letter = letter.byte();
    read_slot(
        settings,
        tables,
        turn,
        lane,
        letter,
        work,
        soft,
        &mut reading.fields,
    );
    block_is_soft(&work.block);
    field_sizes();
}
