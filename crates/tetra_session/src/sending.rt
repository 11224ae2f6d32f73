// Sending one slot, with what is kept of its timeslot.
ghost use Rattle.std.specs.Prelude.{◌≡◌, ◌≢◌, ◌<◌, ◌++◌, ◌∷◌, [], List, IfSome, length};
ghost use Rattle.std.specs.Option.{option_map};
ghost use Rattle.tetra_bursts.specs.Bursts.{control_up_slot};
ghost use Rattle.tetra_bursts.specs.declared.table.Train.TheVariants.{P as PTrain};
ghost use Rattle.tetra_channels.specs.Channels.{half, type5_bits};
ghost use Rattle.tetra_scramble.specs.Key.{key_of};
ghost use Rattle.tetra_settings.specs.Blocks.{Fits};
ghost use Rattle.tetra_settings.specs.Validity.{IsValid};
ghost use Rattle.tetra_settings.specs.declared.blocks.SlotBlocks.{SlotBlocks};
ghost use Rattle.tetra_session.specs.Sent.{SentStands, Normal, access_of, slot_of, slot_written, subslot_bits, whole};

use crate::spreading::{Spreads, load_word, rest_word, take_load};
use crate::words::{first_half, second_half};
use tetra_bits::Bits;
use tetra_bursts::{Train, control_up, normal_down, normal_up, sync_down};
use tetra_channels::{Aach, Bsch, Full, Half, Hu};
use tetra_rm::Rows;
use tetra_scramble::{Key, zero_key};
use tetra_settings::{Body, Dir, Settings, SlotBlocks, mode_at};

/// Slot `turn` with these blocks, which fit it: 510 positions, 127 for bit 0, -127 for bit 1, 0 where the slot is silent
/// (EN 300 392-2 clauses 8 and 9). `lane` is that of the slot's timeslot, and takes its load. The settings are valid, and
/// the key is theirs.
pub fn send_turn<S: Spreads>(
    settings: &Settings,
    key: &Key,
    turn: u32,
    lane: &mut S,
    blocks: &SlotBlocks,
) -> [i8; 510]
    requires valid { IsValid settings.now }
    requires keyed { key.now ≡ key_of settings.now.colour }
    requires fits { Fits settings.now turn blocks.now }
    ensures slot { (history : List SlotBlocks) → turn ≡ length history → SentStands S.Stands settings.now turn history lane.old
        → result ≡ slot_written settings.now history blocks.now }
    ensures stands { (history : List SlotBlocks) → turn ≡ length history → SentStands S.Stands settings.now turn history lane.old
        → SentStands S.Stands settings.now turn (history ++ blocks.now ∷ []) lane.new }
{
    let dir = settings.dir;
    let mode = mode_at(settings, turn);
    let access = access(&settings.rows, key, blocks.aach);
    match &blocks.body {
        Body::Full { block } => whole(dir, Train::N, &access, &Full::encode(block, key)),
        Body::Halves { first, second } => halves(dir, key, &access, first, second),
        Body::Sync { sync, half } => sync_down(
            &Bsch::encode(sync, &zero_key()),
            &access,
            &Half::encode(half, key),
        ),
        Body::Traffic { load } => {
            let word = load_word(lane, mode, load, key);
            whole(dir, Train::N, &access, &word)
        }
        Body::Stolen { first, load } => {
            let rest = rest_word(lane, mode, load, key);
            let first = Half::encode(first, key);
            normal(dir, Train::P, &first, &access, &rest)
        }
        Body::Both {
            first,
            second,
            load,
        } => {
            take_load(lane, mode, load);
            halves(dir, key, &access, first, second)
        }
        Body::Control { first, second } => control(key, first.as_ref(), second.as_ref()),
    }
}

/// The type-5 bits of an access field, and none where there is none.
fn access(rows: &Rows, key: &Key, message: Option<u16>) -> Bits
    requires { IfSome message (λ m. m < 16384) }
    ensures bits { result ≡ access_of rows.now.0 key.now message }
    ensures size { IfSome message (λ m. length result ≡ 30) }
{
    match message {
        Some(message) => Aach::encode(rows, message, key),
        None => Bits::new(),
    }
}

/// A normal burst in a direction.
fn normal(dir: Dir, train: Train, first: &Bits, access: &Bits, second: &Bits) -> [i8; 510]
    requires train { train ≢ Train.Y }
    requires first { length first.now ≡ 216 }
    requires access { dir ≡ Dir.Dl → length access.now ≡ 30 }
    requires second { length second.now ≡ 216 }
    ensures { result ≡ slot_of dir access.now (Normal train first.now second.now) }
{
    match dir {
        Dir::Dl => normal_down(train, first, access, second),
        Dir::Ul => normal_up(train, first, second),
    }
}

/// A normal burst whose blocks are the halves of a word of 432 bits.
fn whole(dir: Dir, train: Train, access: &Bits, word: &Bits) -> [i8; 510]
    requires train { train ≢ Train.Y }
    requires access { dir ≡ Dir.Dl → length access.now ≡ 30 }
    requires word { length word.now ≡ 432 }
    ensures { result ≡ slot_of dir access.now (whole train word.now) }
{
    normal(dir, train, &first_half(word), access, &second_half(word))
}

/// A normal burst with a half slot channel in each block.
fn halves(dir: Dir, key: &Key, access: &Bits, first: &Bits, second: &Bits) -> [i8; 510]
    requires first { length first.now ≡ 124 }
    requires access { dir ≡ Dir.Dl → length access.now ≡ 30 }
    requires second { length second.now ≡ 124 }
    ensures { result ≡ slot_of dir access.now (Normal PTrain
        (type5_bits half key.now first.now) (type5_bits half key.now second.now)) }
{
    normal(
        dir,
        Train::P,
        &Half::encode(first, key),
        access,
        &Half::encode(second, key),
    )
}

/// A control burst: the subslots that are sent.
fn control(key: &Key, first: Option<&Bits>, second: Option<&Bits>) -> [i8; 510]
    requires first { IfSome first (λ bits. length bits.now ≡ 92) }
    requires second { IfSome second (λ bits. length bits.now ≡ 92) }
    ensures { result ≡ control_up_slot
        (subslot_bits key.now (option_map (λ bits. bits.now) first.entry))
        (subslot_bits key.now (option_map (λ bits. bits.now) second.entry)) }
{
    let first = first.map(|block| Hu::encode(block, key));
    let second = second.map(|block| Hu::encode(block, key));
    control_up(first.as_ref(), second.as_ref())
}
