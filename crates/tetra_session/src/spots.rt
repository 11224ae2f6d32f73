// Where the fields of a slot stand.
ghost use Rattle.std.specs.Prelude.{◌≡◌, ◌≤◌, ◌++◌, Bool, is_some, length, replicate, pos};
ghost use Rattle.tetra_bits.specs.Soft.{AllSoft};
ghost use Rattle.tetra_bursts.specs.Fields.{first_half, second_half};
ghost use Rattle.tetra_settings.specs.Readings.{traffic_name};
ghost use Rattle.tetra_settings.specs.declared.types.Mode.{Mode};
ghost use Rattle.tetra_session.specs.Spots.{access_spot, block_places, is_downlink, load_place, places_before_load, rest_spot, spot_values, spot_size, HasSpot};

use arrayvec::ArrayVec;
use tetra_bits::Soft;
use tetra_bursts::{
    aach_field_into, aach_sync_into, first_half_into, second_half, second_half_into,
    sub_first_into, sub_second_into, sync_field_into,
};
use tetra_settings::{Dir, FieldName, Letter, Mode};

/// Where a field stands in a slot (EN 300 392-2 clause 9.4.4).
#[derive(Clone, Copy, PartialEq, Eq, Debug, Drop)]
pub enum Spot {
    /// The access field of a normal downlink burst.
    Access,
    /// The access field of a synchronisation burst.
    SyncAccess,
    /// The BSCH of a synchronisation burst.
    Sync,
    /// Block 1.
    FirstBlock,
    /// Block 2, also of a synchronisation burst.
    SecondBlock,
    /// Block 1 and block 2.
    WholeSlot,
    /// Block 2, behind 216 values 0 for block 1, which is stolen.
    Rest,
    /// 432 values 0: both blocks are stolen.
    Nowhere,
    /// The first subslot.
    FirstSubslot,
    /// The second subslot.
    SecondSubslot,
}

/// A field and where it stands.
#[derive(Clone, Copy, PartialEq, Eq, Debug, Drop)]
pub struct Place {
    pub name: FieldName,
    pub spot: Spot,
}

impl Default for Place {
    ghost is_default = { λ _. Unit {0} };

    /// An access field, which nothing rests on: a list of fixed capacity asks for some value.
    fn default() -> Self {
        Place {
            name: FieldName::Aach,
            spot: Spot::Access,
        }
    }
}

/// The places of the fields of a letter, behind the access field and in front of the load.
fn block_places(letter: Letter) -> &'static [Place]
    ensures places { result.now ≡ block_places letter }
    ensures few { length result.now ≤ 2 }
{
    match letter {
        Letter::F => &[Place {
            name: FieldName::Full,
            spot: Spot::WholeSlot,
        }],
        Letter::H | Letter::P => &[
            Place {
                name: FieldName::Half,
                spot: Spot::FirstBlock,
            },
            Place {
                name: FieldName::Half,
                spot: Spot::SecondBlock,
            },
        ],
        Letter::S => &[
            Place {
                name: FieldName::Sync,
                spot: Spot::Sync,
            },
            Place {
                name: FieldName::Half,
                spot: Spot::SecondBlock,
            },
        ],
        Letter::C => &[
            Place {
                name: FieldName::Hu,
                spot: Spot::FirstSubslot,
            },
            Place {
                name: FieldName::Hu,
                spot: Spot::SecondSubslot,
            },
        ],
        Letter::T | Letter::Q => &[],
    }
}

/// The field of the load of a traffic slot in this mode; speech gives the name for speech.
fn traffic_name(mode: Mode, speech: FieldName) -> FieldName
    ensures { result ≡ traffic_name mode speech }
{
    match mode {
        Mode::D72 => FieldName::D72,
        Mode::D48(_) => FieldName::D48,
        Mode::D24(_) => FieldName::D24,
        Mode::Speech | Mode::Sig | Mode::Cb => speech,
    }
}

/// Where the load of a slot stands whose first half is stolen: of data what is left of it, speech in block 2.
fn rest_spot(mode: Mode, second_stolen: bool) -> Spot
    ensures { result ≡ rest_spot mode second_stolen }
{
    match (mode, second_stolen) {
        (Mode::D72 | Mode::D48(_) | Mode::D24(_), false) => Spot::Rest,
        (Mode::D72 | Mode::D48(_) | Mode::D24(_), true) => Spot::Nowhere,
        (Mode::Speech | Mode::Sig | Mode::Cb, _) => Spot::SecondBlock,
    }
}

/// The place of the load of a slot, where it has one. A slot is never read as `Q`.
pub fn load_place(letter: Letter, mode: Mode, second_stolen: bool) -> Option<Place>
    ensures { result ≡ load_place letter mode second_stolen }
{
    match letter {
        Letter::T => Some(Place {
            name: traffic_name(mode, FieldName::Whole),
            spot: Spot::WholeSlot,
        }),
        Letter::P => Some(Place {
            name: traffic_name(mode, FieldName::Single),
            spot: rest_spot(mode, second_stolen),
        }),
        Letter::F | Letter::H | Letter::S | Letter::Q | Letter::C => None,
    }
}

/// Where the access field of a slot of this letter stands.
fn access_spot(letter: Letter) -> Spot
    ensures { result ≡ access_spot letter }
{
    match letter {
        Letter::S => Spot::SyncAccess,
        Letter::F | Letter::H | Letter::T | Letter::P | Letter::Q | Letter::C => Spot::Access,
    }
}

/// Whether a slot of this letter has a load.
pub fn has_load(letter: Letter) -> bool
    ensures { (mode : Mode) (second_stolen : Bool) → result ≡ is_some (load_place letter mode second_stolen) }
{
    match letter {
        Letter::T | Letter::P => true,
        Letter::F | Letter::H | Letter::S | Letter::Q | Letter::C => false,
    }
}

/// The places of the fields in front of the load, on the downlink with the access field before them.
pub fn places_before_load(dir: Dir, letter: Letter) -> ArrayVec<Place, 3>
    ensures { result.items ≡ places_before_load dir letter }
{
    let mut places = ArrayVec::new();
    if dir == Dir::Dl {
        places.push(Place {
            name: FieldName::Aach,
            spot: access_spot(letter),
        });
    }
    places.try_extend_from_slice(block_places(letter)).unwrap();
    places
}

/// Whether the direction is the downlink.
pub fn is_downlink(dir: Dir) -> bool
    ensures { result ≡ is_downlink dir }
{
    match dir {
        Dir::Dl => true,
        Dir::Ul => false,
    }
}

/// Writes the values at a spot over a list that is there, in the order of type-5 bits.
pub fn spot_into(dir: Dir, spot: Spot, soft: &[i16; 510], values: &mut Soft)
    requires soft { AllSoft soft.now }
    requires here { HasSpot dir spot }
    ensures values { values.new ≡ spot_values dir spot soft.now }
    ensures size { length values.new ≡ spot_size spot }
{
    let dl = is_downlink(dir);
    match spot {
        Spot::Access => aach_field_into(soft, dl, values),
        Spot::SyncAccess => aach_sync_into(soft, values),
        Spot::Sync => sync_field_into(soft, dl, values),
        Spot::FirstBlock => first_half_into(soft, dl, values),
        Spot::SecondBlock => second_half_into(soft, dl, values),
        Spot::WholeSlot => whole_into(soft, dl, values),
        Spot::Rest => rest_into(soft, dl, values),
        Spot::Nowhere => silent_into(values, 432),
        Spot::FirstSubslot => sub_first_into(soft, dl, values),
        Spot::SecondSubslot => sub_second_into(soft, dl, values),
    }
}

/// Block 1 and block 2.
fn whole_into(soft: &[i16; 510], dl: bool, values: &mut Soft)
    requires { AllSoft soft.now }
    ensures values { values.new ≡ first_half dl soft.now ++ second_half dl soft.now }
    ensures size { length values.new ≡ 432 }
{
    first_half_into(soft, dl, values);
    let second = second_half(soft, dl);
    for i in 0..second.len() {
        values.push(second.get(i));
    }
}

/// Block 2, behind values 0 for block 1.
fn rest_into(soft: &[i16; 510], dl: bool, values: &mut Soft)
    requires { AllSoft soft.now }
    ensures values { values.new ≡ replicate 216 (pos 0) ++ second_half dl soft.now }
    ensures size { length values.new ≡ 432 }
{
    silent_into(values, 216);
    let second = second_half(soft, dl);
    for i in 0..second.len() {
        values.push(second.get(i));
    }
}

/// So many values 0, which say nothing.
fn silent_into(values: &mut Soft, count: usize)
    requires { count ≤ 432 }
    ensures values { values.new ≡ replicate count (pos 0) }
    ensures size { length values.new ≡ count }
{
    values.clear();
    values.resize(count);
}
