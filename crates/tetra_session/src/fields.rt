// The letter and the fields of a slot.
ghost use Rattle.std.specs.Prelude.{◌≡◌, ◌≢◌, ◌≤◌, ◌++◌, ◌∷◌, ◌-◌, [], ℕ, Bool, List, ℤ, length, map, drop, false, None, slice_index_or, slice_set, All, IfSome, MatchOption, IsTrue, nat_abs};
ghost use Rattle.arrayvec.specs.ArrayVec.{array_vec_len};
ghost use Rattle.tetra_bits.specs.Parts.{InParts};
ghost use Rattle.tetra_bits.specs.Soft.{AllSoft};
ghost use Rattle.tetra_bits.specs.declared.soft.TheConstants.{SOFT_MAX};
ghost use Rattle.tetra_channels.specs.Channels.{half};
ghost use Rattle.tetra_channels.specs.Fields.{coded_reading};
ghost use Rattle.tetra_diag.specs.Diagonal.{gathered};
ghost use Rattle.tetra_settings.specs.Readings.{IsField, certificate_rows, sizes};
ghost use Rattle.tetra_settings.specs.declared.slots.Letter.TheVariants as Letter;
ghost use Rattle.tetra_session.specs.Time.{MayBeDepth};
ghost use Rattle.tetra_session.specs.Heard.{allowed_in, letter_by, place_values, second_stolen, is_good, is_spread, field_heard, field_of_place};
ghost use Rattle.tetra_session.specs.Fronts.{IsFrontField, IsBounded};
ghost use Rattle.tetra_session.specs.Readers.{reader, read_by, read_field, field_reading};
ghost use Rattle.tetra_session.specs.Spots.{FitsSpot, load_place, places_before_load};

use crate::front::FrontField;
use crate::gathering::Gathers;
use crate::spots::{Place, load_place, spot_into};
use crate::tables::Tables;
use arrayvec::ArrayVec;
use tetra_bits::{Bits, Mark, Outcome, Potentials, Reading, Soft, Table};
use tetra_bursts::{Allowed, Train};
use tetra_channels::{Aach, Bsch, Data24, Data48, Full, Half, Hu, Raw72, drop_potentials};
use tetra_rm::AccessCode;
use tetra_scramble::{Key, flip_soft, flip_soft_into, zero_key};
use tetra_settings::{Dir, Field, FieldName, Letter, Mode, Settings, SlotUse};
use tetra_speech::{decode_half_into, decode_whole_into, half_front_into, whole_front_into};

/// Lists that are filled on the way of a slot, kept so that they serve again.
#[derive(Drop)]
pub struct Scratch {
    /// The values at a spot, in the order of type-5 bits.
    pub type5: Soft,
    /// The values of a field, after its key.
    pub values: Soft,
}

/// What is filled on the way of a slot, kept so that it serves again for each: nothing in it rests on the slot before.
#[derive(Drop)]
pub struct Work {
    /// Lists that are filled on the way.
    pub scratch: Scratch,
    /// The block of protected data that was complete with the last slot, where one was.
    pub block: Option<Soft>,
}

impl Work {
    /// Nothing filled yet.
    pub fn new() -> Work
        ensures { result.block ≡ None }
    {
        Work {
            scratch: Scratch {
                type5: Soft::new(),
                values: Soft::new(),
            },
            block: None,
        }
    }
}

/// The training sequences that a slot may have. In control bursts none is asked for.
pub fn allowed_in(dir: Dir, slot: SlotUse) -> Allowed
    ensures { result ≡ allowed_in dir slot }
{
    match (dir, slot) {
        (Dir::Dl, SlotUse::Signalling) => Allowed {
            n: true,
            p: true,
            y: true,
        },
        (Dir::Ul, SlotUse::Signalling) | (Dir::Dl | Dir::Ul, SlotUse::Control) => Allowed {
            n: true,
            p: false,
            y: false,
        },
        (Dir::Dl | Dir::Ul, SlotUse::Traffic) => Allowed {
            n: true,
            p: true,
            y: false,
        },
    }
}

/// The letter of a slot by what it carries and by its kind; `Y` is not allowed in traffic.
pub fn letter_by(slot: SlotUse, train: Train) -> Letter
    ensures { result ≡ letter_by slot train }
{
    match (slot, train) {
        (SlotUse::Signalling, Train::N) => Letter::F,
        (SlotUse::Signalling, Train::P) => Letter::H,
        (SlotUse::Signalling, Train::Y) => Letter::S,
        (SlotUse::Traffic, Train::N | Train::Y) => Letter::T,
        (SlotUse::Traffic, Train::P) => Letter::P,
        (SlotUse::Control, Train::N | Train::P | Train::Y) => Letter::C,
    }
}

/// Whether a mark is that of a good message: its parity holds. This project's own.
pub fn is_good(mark: Mark) -> bool
    ensures { result ≡ is_good mark }
{
    match mark {
        Mark::Good => true,
        Mark::Bad | Mark::Unchecked | Mark::NotYet => false,
    }
}

/// The values of the field at a place, after its key, and in the order of type-3 bits where it has a code, written over
/// those that are there. `type5` is filled on the way.
#[tactic(auto, unfolding(crate::specs::Heard::place_values))]
pub fn hear(
    dir: Dir,
    place: Place,
    key: &Key,
    soft: &[i16; 510],
    type5: &mut Soft,
    values: &mut Soft,
)
    requires soft { AllSoft soft.now }
    requires place { FitsSpot dir place }
    ensures values { values.new ≡ place_values dir key.now soft.now place }
    ensures size { length values.new ≡ (sizes place.name).values }
{
    spot_into(dir, place.spot, soft, type5);
    match place.name {
        FieldName::Aach => flip_soft_into(type5, key, 1, values),
        FieldName::Sync => Bsch::front_into(type5, &zero_key(), values),
        FieldName::Half => Half::front_into(type5, key, values),
        FieldName::Hu => Hu::front_into(type5, key, values),
        FieldName::Full => Full::front_into(type5, key, values),
        FieldName::D72 => flip_soft_into(type5, key, 1, values),
        FieldName::D48 => Data48::front_into(type5, key, values),
        FieldName::D24 => Data24::front_into(type5, key, values),
        FieldName::Whole => whole_front_into(&flip_soft(type5, key, 1), values),
        FieldName::Single => half_front_into(&flip_soft(type5, key, 1), values),
    }
}

/// Takes the load of a traffic slot into the lane of its timeslot, where it is a slot word of protected data, spread over
/// `depth` slots. `work.block` is then the block that is complete with it, where one is.
pub fn gather<G: Gathers>(
    lane: &mut G,
    depth: usize,
    dir: Dir,
    load: Place,
    key: &Key,
    soft: &[i16; 510],
    work: &mut Work,
)
    requires depth { MayBeDepth depth }
    requires soft { AllSoft soft.now }
    requires place { FitsSpot dir load }
    ensures block { (words : List (List ℤ)) → G.Stands depth words lane.old → 1 ≤ depth → IsTrue (is_spread load.name)
        → work.new.block ≡ gathered depth (words ++ place_values dir key.now soft.now load ∷ []) }
    ensures stands { (words : List (List ℤ)) → G.Stands depth words lane.old
        → IsTrue (is_spread load.name) → G.Stands depth (words ++ place_values dir key.now soft.now load ∷ []) lane.new }
    ensures still { is_spread load.name ≡ false → lane.new ≡ lane.old }
    ensures size { IfSome work.new.block (λ values. length values ≡ 432) }
{
    if is_spread(load.name) {
        hear(
            dir,
            load,
            key,
            soft,
            &mut work.scratch.type5,
            &mut work.scratch.values,
        );
        let values = work.block.get_or_insert_with(Soft::new);
        if !lane.push_into(depth, &work.scratch.values, values) {
            work.block = None;
        }
    } else {
        work.block = None;
    }
}

/// The values of a block are soft values.
pub fn block_is_soft(block: &Option<Soft>)
    ensures { IfSome block.now AllSoft }
{
    if let Some(values) = block {
        let _ = values.len();
    }
}

/// What is read of the values of a field that has a trellis, in parts: the message over the bits that are there, the costs
/// to go into a table, and the mark and the metric as the answer.
fn read_coded<T: Table>(name: FieldName, soft: &Soft, message: &mut Bits, table: &mut T) -> Outcome
    requires size { length soft.now ≡ (sizes name).values }
    requires trellis { certificate_rows name ≢ 0 }
    ensures { (rows : List ℕ) → InParts (read_by (reader name) rows soft.now) result message.new (T.rows_of table.new) }
{
    match name {
        FieldName::Sync => Bsch::decode3_into(soft, message, table),
        FieldName::Half => Half::decode3_into(soft, message, table),
        FieldName::Hu => Hu::decode3_into(soft, message, table),
        FieldName::Full => Full::decode3_into(soft, message, table),
        FieldName::D48 => Data48::decode3_into(soft, message, table),
        FieldName::D24 => Data24::decode3_into(soft, message, table),
        FieldName::Whole => decode_whole_into(soft, message, table),
        FieldName::Single => decode_half_into(soft, message, table),
        FieldName::Aach | FieldName::D72 => unreachable!(),
    }
}

/// What is read of the values of a field without a trellis: the message over the bits that are there, and the mark and the
/// metric as the answer.
fn read_uncoded(name: FieldName, code: &AccessCode, soft: &Soft, message: &mut Bits) -> Outcome
    requires size { length soft.now ≡ (sizes name).values }
    requires no_trellis { certificate_rows name ≡ 0 }
    ensures { InParts (read_by (reader name) code.now.0 soft.now) result message.new [] }
{
    match name {
        FieldName::Aach => Aach::decode2_into(code, soft, message),
        FieldName::D72 => Raw72::decode1_into(soft, message),
        FieldName::Sync
        | FieldName::Half
        | FieldName::Hu
        | FieldName::Full
        | FieldName::D48
        | FieldName::D24
        | FieldName::Whole
        | FieldName::Single => unreachable!(),
    }
}

/// What is read of the values of a field, written over a reading that is there, whose potentials serve again.
pub fn read(name: FieldName, code: &AccessCode, soft: &Soft, reading: &mut Reading)
    requires size { length soft.now ≡ (sizes name).values }
    ensures { reading.new ≡ read_by (reader name) code.now.0 soft.now }
{
    let outcome = if name.certificate_rows() == 0 {
        drop_potentials(&mut reading.potentials);
        read_uncoded(name, code, soft, &mut reading.bits)
    } else {
        let potentials = reading.potentials.get_or_insert_with(Potentials::new);
        read_coded(name, soft, &mut reading.bits, potentials)
    };
    reading.mark = outcome.mark;
    reading.metric = outcome.metric;
}

/// The same in parts: a field without a trellis leaves no rows in the table.
fn read_parts<T: Table>(
    name: FieldName,
    code: &AccessCode,
    soft: &Soft,
    message: &mut Bits,
    table: &mut T,
) -> Outcome
    requires size { length soft.now ≡ (sizes name).values }
    ensures { InParts (read_by (reader name) code.now.0 soft.now) result message.new (T.rows_of table.new) }
{
    if name.certificate_rows() == 0 {
        table.begin(0);
        read_uncoded(name, code, soft, message)
    } else {
        read_coded(name, soft, message, table)
    }
}

/// The reading of a block of protected data that is complete, or that is not yet, written over a reading that is there.
fn read_block(name: FieldName, code: &AccessCode, block: &Option<Soft>, reading: &mut Reading)
    requires size { IfSome block.now (λ values. length values ≡ (sizes name).values) }
    ensures { reading.new ≡ field_reading code.now.0 name block.now }
{
    match block {
        Some(values) => read(name, code, values, reading),
        None => {
            reading.mark = Mark::NotYet;
            reading.metric = 0;
            reading.bits = Bits::zeros(name.sizes().bits);
            drop_potentials(&mut reading.potentials);
        }
    }
}

/// What is read of a field of a front, by its values, in parts, each over what is there: the first-least message, its
/// certificate into a table, which has no rows where there is none, and its mark and its metric as the answer; where the
/// field has no values, not yet. The code is that of the access field. So the fields of a slot that is heard can be read
/// one by one, with no more room than one message, and certificates where they are wanted.
#[tactic(auto, unfolding(crate::specs::Readers::read_field))]
pub fn read_heard<T: Table>(
    code: &AccessCode,
    heard: &FrontField,
    message: &mut Bits,
    table: &mut T,
) -> Outcome
    requires { IsFrontField heard.now }
    ensures parts { InParts (read_field code.now.0 heard.now).reading result message.new (T.rows_of table.new) }
    ensures formed { IsField (read_field code.now.0 heard.now) }
    ensures small { IsBounded (nat_abs SOFT_MAX) (read_field code.now.0 heard.now) }
{
    block_is_soft(&heard.soft);
    match &heard.soft {
        Some(values) => read_parts(heard.name, code, values, message, table),
        None => {
            *message = Bits::zeros(heard.name.sizes().bits);
            table.begin(0);
            Outcome {
                mark: Mark::NotYet,
                metric: 0,
            }
        }
    }
}

/// Whether the values of a field come over several slots: those of protected data.
fn is_spread(name: FieldName) -> bool
    ensures { result ≡ is_spread name }
{
    match name {
        FieldName::D48 | FieldName::D24 => true,
        FieldName::Aach
        | FieldName::Sync
        | FieldName::Half
        | FieldName::Hu
        | FieldName::Full
        | FieldName::D72
        | FieldName::Whole
        | FieldName::Single => false,
    }
}

/// The field at a place with its values, written over a field that is there.
#[tactic(auto, unfolding(crate::specs::Heard::field_heard))]
pub fn hear_field(
    dir: Dir,
    place: Place,
    key: &Key,
    block: &Option<Soft>,
    soft: &[i16; 510],
    type5: &mut Soft,
    field: &mut FrontField,
)
    requires soft { AllSoft soft.now }
    requires place { FitsSpot dir place }
    ensures { field.new ≡ field_heard dir key.now block.now soft.now place }
{
    field.name = place.name;
    if is_spread(place.name) {
        field.soft = block.as_ref().map(Soft::copy);
    } else {
        let values = field.soft.get_or_insert_with(Soft::new);
        hear(dir, place, key, soft, type5, values);
    }
}

/// The fields at these places with their values, written over the first of those that are there.
pub fn hear_fields(
    dir: Dir,
    places: &[Place],
    key: &Key,
    block: &Option<Soft>,
    soft: &[i16; 510],
    type5: &mut Soft,
    fields: &mut [FrontField],
)
    requires soft { AllSoft soft.now }
    requires fit { All (FitsSpot dir) places.now }
    requires as_many { length places.now ≤ length fields.old }
    ensures { fields.new ≡ map (field_heard dir key.now block.now soft.now) places.now
        ++ drop (length places.now) fields.old }
{
    for i in 0..places.len() {
        hear_field(dir, places[i], key, block, soft, type5, &mut fields[i]);
    }
}

/// The field at a place with what is read of it, written over a field that is there.
#[tactic(auto, unfolding(crate::specs::Heard::field_of_place))]
fn read_field(
    settings: &Settings,
    place: Place,
    tables: &Tables,
    block: &Option<Soft>,
    soft: &[i16; 510],
    scratch: &mut Scratch,
    field: &mut Field,
)
    requires access { tables.now.access ≡ settings.now.rows }
    requires soft { AllSoft soft.now }
    requires place { FitsSpot settings.now.dir place }
    requires block { IfSome block.now (λ values. length values ≡ 432) }
    ensures { field.new ≡ field_of_place settings.now tables.now.key block.now soft.now place }
{
    field.name = place.name;
    if is_spread(place.name) {
        read_block(place.name, &tables.access, block, &mut field.reading);
        return;
    }
    hear(
        settings.dir,
        place,
        &tables.key,
        soft,
        &mut scratch.type5,
        &mut scratch.values,
    );
    read(
        place.name,
        &tables.access,
        &scratch.values,
        &mut field.reading,
    );
}

/// The fields at these places with what is read of them, written over the first of those that are there.
pub fn read_fields(
    settings: &Settings,
    places: &[Place],
    tables: &Tables,
    block: &Option<Soft>,
    soft: &[i16; 510],
    scratch: &mut Scratch,
    fields: &mut [Field],
)
    requires access { tables.now.access ≡ settings.now.rows }
    requires soft { AllSoft soft.now }
    requires fit { All (FitsSpot settings.now.dir) places.now }
    requires block { IfSome block.now (λ values. length values ≡ 432) }
    requires as_many { length places.now ≤ length fields.old }
    ensures { fields.new ≡ map (field_of_place settings.now tables.now.key block.now soft.now) places.now
        ++ drop (length places.now) fields.old }
{
    for i in 0..places.len() {
        read_field(
            settings,
            places[i],
            tables,
            block,
            soft,
            scratch,
            &mut fields[i],
        );
    }
}

/// The place of the load of a slot, by what is read of the fields in front of it: where the first half of the slot is
/// stolen, the last of them tells whether the second half is stolen too.
pub fn load_by_reading(letter: Letter, mode: Mode, fields: &[Field]) -> Option<Place>
    ensures { (settings : Settings) (key : List Bool) (soft : List ℤ)
        → fields.now ≡ map (field_of_place settings key None soft) (places_before_load settings.dir letter)
        → result ≡ load_place letter mode (second_stolen settings.dir key soft) }
{
    match fields.last() {
        Some(last) => load_place(letter, mode, is_good(last.reading.mark)),
        None => load_place(letter, mode, false),
    }
}

/// Whether values of a half slot channel, in the order of type-3 bits, are read as Good. It has room of its own for what is
/// read, which only this call takes.
#[inline(never)]
fn half_reads_good(values: &Soft) -> bool
    requires { length values.now ≡ 216 }
    ensures { result ≡ is_good (coded_reading half values.now).mark }
{
    let outcome = Half::decode3_into(values, &mut Bits::new(), &mut Potentials::new());
    is_good(outcome.mark)
}

/// Whether there are values of a half slot channel, and they are read as Good.
fn reads_good(values: &Option<Soft>) -> bool
    requires { IfSome values.now (λ soft. length soft ≡ 216) }
    ensures { MatchOption values.now (result ≡ false) (λ soft. result ≡ is_good (coded_reading half soft).mark) }
{
    match values {
        Some(values) => half_reads_good(values),
        None => false,
    }
}

/// The place of the load of a slot, by the fields in front of it with their values. It rests on what is read of the last
/// of them only where the first half of a slot of data is stolen.
pub fn load_by_front(letter: Letter, mode: Mode, fields: &[FrontField]) -> Option<Place>
    requires { letter ≡ Letter.P → (other : FrontField)
        → IfSome (slice_index_or fields.now (length fields.now - 1) other).soft (λ values. length values ≡ 216) }
    ensures { (dir : Dir) (key : List Bool) (soft : List ℤ)
        → fields.now ≡ map (field_heard dir key None soft) (places_before_load dir letter)
        → result ≡ load_place letter mode (second_stolen dir key soft) }
{
    if letter != Letter::P || mode == Mode::Speech {
        return load_place(letter, mode, false);
    }
    match fields.last() {
        Some(last) => load_place(letter, mode, reads_good(&last.soft)),
        None => load_place(letter, mode, false),
    }
}

/// The field of the load with what is read of it, where a slot has one, written over the last of the fields that are
/// there.
pub fn read_load(
    settings: &Settings,
    load: Option<Place>,
    tables: &Tables,
    block: &Option<Soft>,
    soft: &[i16; 510],
    scratch: &mut Scratch,
    fields: &mut [Field],
)
    requires access { tables.now.access ≡ settings.now.rows }
    requires soft { AllSoft soft.now }
    requires place { IfSome load (FitsSpot settings.now.dir) }
    requires block { IfSome block.now (λ values. length values ≡ 432) }
    requires there { IfSome load (λ place. 1 ≤ length fields.old) }
    ensures { MatchOption load (fields.new ≡ fields.old) (λ place. fields.new
        ≡ slice_set fields.old (length fields.old - 1) (field_of_place settings.now tables.now.key block.now soft.now place)) }
{
    if let Some(load) = load {
        let last = fields.len() - 1;
        read_field(
            settings,
            load,
            tables,
            block,
            soft,
            scratch,
            &mut fields[last],
        );
    }
}

/// Leaves so many fields in the list: those that are there, and new ones behind them.
pub fn keep_fields<F: Default + Drop>(fields: &mut ArrayVec<F, 4>, count: usize)
    requires { count ≤ 4 }
    ensures { array_vec_len fields.new ≡ count }
{
    fields.truncate(count);
    for _ in fields.len()..count {
        fields.push(F::default());
    }
}
