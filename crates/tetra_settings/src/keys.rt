// The commands, and the table of keys.
ghost use Rattle.std.specs.Prelude.{◌≡◌, IfOk, IsTrue};
ghost use Rattle.tetra_settings.specs.Keys.{row, key_of_text, command_of_text, takes_key, is_taker};
ghost use Rattle.tetra_settings.specs.Values.{IsAmong};

use crate::types::{Command, Dir, Form, Mode};
use crate::values::{Value, Values};

/// The words before `=`.
#[derive(Clone, Copy, Debug, PartialEq, Eq)]
pub enum Key {
    Dir,
    Mcc,
    Mnc,
    Cc,
    Ts1,
    Ts2,
    Ts3,
    Ts4,
    At,
    Max,
    Form,
    Draw,
    Slots,
    Damage,
}

pub const KEYS: [Key; 14] = [
    Key::Dir,
    Key::Mcc,
    Key::Mnc,
    Key::Cc,
    Key::Ts1,
    Key::Ts2,
    Key::Ts3,
    Key::Ts4,
    Key::At,
    Key::Max,
    Key::Form,
    Key::Draw,
    Key::Slots,
    Key::Damage,
];

/// The commands that take a key.
#[derive(Clone, Copy, Debug, PartialEq, Eq)]
pub enum Takers {
    /// All commands.
    All,
    /// Those that read: `encode`, `decode` and `audit`.
    Readers,
    /// `decode` alone.
    Decode,
    /// Those that read nothing: `gen` and `trial`.
    Makers,
    /// `trial` alone.
    Trial,
}

/// What the table has beside a key.
#[derive(Clone, Copy)]
pub struct Row {
    pub name: &'static str,
    pub values: Values,
    pub default: Value,
    pub takers: Takers,
}

/// The row of a key whose values are numbers.
fn numbers(name: &'static str, low: u64, high: u64, default: u64, takers: Takers) -> Row
    ensures name { result.name.now ≡ name.now }
    ensures values { result.values ≡ Values.Between low high }
    ensures default { result.default ≡ Value.Number default }
    ensures takers { result.takers ≡ takers }
{
    Row {
        name,
        values: Values::Between(low, high),
        default: Value::Number(default),
        takers,
    }
}

/// The row of a timeslot.
fn timeslot(name: &'static str) -> Row
    ensures name { result.name.now ≡ name.now }
    ensures values { result.values ≡ Values.Timeslots }
    ensures default { result.default ≡ Value.Timeslot Mode.Sig }
    ensures takers { result.takers ≡ Takers.All }
{
    Row {
        name,
        values: Values::Timeslots,
        default: Value::Timeslot(Mode::Sig),
        takers: Takers::All,
    }
}

/// The table of keys.
pub fn row_of(key: Key) -> Row
    ensures name { result.name.now ≡ (row key).name }
    ensures values { result.values ≡ (row key).values }
    ensures default { result.default ≡ (row key).default }
    ensures takers { result.takers ≡ (row key).takers }
{
    match key {
        Key::Dir => Row {
            name: "dir",
            values: Values::Directions,
            default: Value::Direction(Dir::Dl),
            takers: Takers::All,
        },
        Key::Mcc => numbers("mcc", 0, 1_023, 0, Takers::All),
        Key::Mnc => numbers("mnc", 0, 16_383, 0, Takers::All),
        Key::Cc => numbers("cc", 0, 63, 0, Takers::All),
        Key::Ts1 => timeslot("ts1"),
        Key::Ts2 => timeslot("ts2"),
        Key::Ts3 => timeslot("ts3"),
        Key::Ts4 => timeslot("ts4"),
        Key::At => numbers("at", 0, 4_319, 0, Takers::All),
        Key::Max => numbers("max", 1, 16_777_216, 1_000_000, Takers::Readers),
        Key::Form => Row {
            name: "form",
            values: Values::Forms,
            default: Value::Shape(Form::Plain),
            takers: Takers::Decode,
        },
        Key::Draw => numbers("draw", 0, 18_446_744_073_709_551_615, 0, Takers::Makers),
        Key::Slots => numbers("slots", 1, 1_000_000, 1, Takers::Makers),
        Key::Damage => numbers("damage", 0, 510, 0, Takers::Trial),
    }
}

/// The key of this name.
#[tactic(auto, unfolding(crate::specs::Keys::key_of_text))]
pub fn key_of(text: &str) -> Option<Key>
    ensures { result ≡ key_of_text text.now }
{
    KEYS.iter().copied().find(|key| row_of(*key).name == text)
}

/// Whether a command takes a key.
pub fn takes(command: Command, key: Key) -> bool
    ensures { result ≡ takes_key command key }
{
    let reads = match command {
        Command::Encode | Command::Decode | Command::Audit => true,
        Command::Gen | Command::Trial => false,
    };
    match row_of(key).takers {
        Takers::All => true,
        Takers::Readers => reads,
        Takers::Decode => command == Command::Decode,
        Takers::Makers => !reads,
        Takers::Trial => command == Command::Trial,
    }
}

/// The command of this name.
#[tactic(auto, unfolding(crate::specs::Keys::command_of_text))]
pub fn command_of(text: &str) -> Option<Command>
    ensures { result ≡ command_of_text text.now }
{
    match text {
        "encode" => Some(Command::Encode),
        "decode" => Some(Command::Decode),
        "audit" => Some(Command::Audit),
        "gen" => Some(Command::Gen),
        "trial" => Some(Command::Trial),
        _ => None,
    }
}
