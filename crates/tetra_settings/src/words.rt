// The words of a command line: a command, and pairs `key=value`.
ghost use Rattle.std.specs.Prelude.{IfOk, take, drop, length, ◌≡◌, ◌≤◌, map, is_some, string_bytes, IfSome};
ghost use Rattle.std.specs.Option.{option_map};
ghost use Rattle.tetra_settings.specs.Words.{texts, value_under, given, reason, first_fault, are_timeslots, gives_cb, first_cb, setting_of, settings_of, meaning};
ghost use Rattle.tetra_settings.specs.Faults.{NamesFirst};
ghost use Rattle.tetra_settings.specs.Validity.{IsValid, IsInRanges};
ghost use Rattle.tetra_settings.specs.Keys.{row};
ghost use Rattle.tetra_settings.specs.Values.{IsAmong, number_in, direction_in, mode_in, form_in};

use crate::keys::{Key, command_of, key_of, row_of, takes};
use crate::types::{Command, Dir, Form, Mode, Settings, WordFault, WordWhy};
use crate::values::{Value, Values, value_of};
use tetra_rm::own_rows;
use tetra_scramble::Colour;

/// The value of a word that has this key.
fn value_in<'a>(word: &'a str, name: &str) -> Option<&'a str>
    ensures { option_map (λ v. v.now) result ≡ value_under name.now word.now }
{
    match word.split_once('=') {
        Some((key, value)) if key == name => Some(value),
        _ => None,
    }
}

/// The value of the first word that has this key.
fn first_value<'a>(words: &'a [String], name: &str) -> Option<&'a str>
    ensures { option_map (λ v. v.now) result ≡ given name.now (texts words.now) }
{
    for word in words {
        let value = value_in(word.as_str(), name);
        if value.is_some() {
            return value;
        }
    }
    None
}

/// The first reason against a word, behind the words before it.
fn reason_against(command: Command, earlier: &[String], word: &str) -> Option<WordWhy>
    ensures { result ≡ reason command (texts earlier.now) word.now }
{
    let Some((name, value)) = word.split_once('=') else {
        return Some(WordWhy::NotPair);
    };
    let Some(key) = key_of(name) else {
        return Some(WordWhy::UnknownKey);
    };
    if !takes(command, key) {
        return Some(WordWhy::NotHere);
    }
    if first_value(earlier, name).is_some() {
        return Some(WordWhy::Repeated);
    }
    value_of(row_of(key).values, value).err()
}

/// The first faulty word behind the command.
fn find_fault(command: Command, words: &[String]) -> Option<WordFault>
    requires { 1 ≤ length words.now }
    ensures { result ≡ first_fault command (texts (take 1 words.now)) (texts (drop 1 words.now)) }
{
    for index in 1..words.len() {
        if let Some(why) = reason_against(command, &words[..index], words[index].as_str()) {
            return Some(WordFault { index, why });
        }
    }
    None
}

/// Whether these are the values of a timeslot.
fn are_timeslots(values: Values) -> bool
    ensures { result ≡ are_timeslots values }
{
    match values {
        Values::Timeslots => true,
        Values::Between(..) | Values::Directions | Values::Forms => false,
    }
}

/// Whether a word gives a timeslot `cb`.
fn is_cb(word: &str) -> bool
    ensures { result ≡ gives_cb word.now }
{
    let Some((name, value)) = word.split_once('=') else {
        return false;
    };
    match key_of(name) {
        Some(key) => are_timeslots(row_of(key).values) && value == "cb",
        None => false,
    }
}

/// The first word that gives a timeslot `cb`.
fn find_cb(words: &[String]) -> Option<WordFault>
    ensures { result ≡ first_cb 0 (texts words.now) }
{
    for index in 0..words.len() {
        if is_cb(words[index].as_str()) {
            return Some(WordFault {
                index,
                why: WordWhy::NotUplink,
            });
        }
    }
    None
}

/// What the words give a key, and else its default.
fn setting(words: &[String], key: Key) -> Value
    ensures value { result ≡ setting_of key (texts words.now) }
    ensures among { IsAmong (row key).values result }
{
    let row = row_of(key);
    match first_value(words, row.name) {
        Some(text) => value_of(row.values, text).unwrap_or(row.default),
        None => row.default,
    }
}

/// The number that the words give a key, and else its default.
fn number(words: &[String], key: Key) -> u64
    ensures value { result ≡ number_in (setting_of key (texts words.now)) }
    ensures among { IsAmong (row key).values (setting_of key (texts words.now)) }
{
    match setting(words, key) {
        Value::Number(n) => n,
        Value::Direction(_) | Value::Timeslot(_) | Value::Shape(_) => 0,
    }
}

/// The mode that the words give a timeslot, and else signalling.
fn mode(words: &[String], key: Key) -> Mode
    ensures { result ≡ mode_in (setting_of key (texts words.now)) }
{
    match setting(words, key) {
        Value::Timeslot(mode) => mode,
        Value::Number(_) | Value::Direction(_) | Value::Shape(_) => Mode::Sig,
    }
}

fn direction(words: &[String]) -> Dir
    ensures { result ≡ direction_in (setting_of Key.Dir (texts words.now)) }
{
    match setting(words, Key::Dir) {
        Value::Direction(dir) => dir,
        Value::Number(_) | Value::Timeslot(_) | Value::Shape(_) => Dir::Dl,
    }
}

fn form(words: &[String]) -> Form
    ensures { result ≡ form_in (setting_of Key.Form (texts words.now)) }
{
    match setting(words, Key::Form) {
        Value::Shape(form) => form,
        Value::Number(_) | Value::Direction(_) | Value::Timeslot(_) => Form::Plain,
    }
}

fn settings(words: &[String]) -> Settings
    ensures value { result ≡ settings_of (texts words.now) }
    ensures ranges { IsInRanges result }
{
    Settings {
        dir: direction(words),
        colour: Colour {
            mcc: number(words, Key::Mcc) as u16,
            mnc: number(words, Key::Mnc) as u16,
            cc: number(words, Key::Cc) as u8,
        },
        modes: [
            mode(words, Key::Ts1),
            mode(words, Key::Ts2),
            mode(words, Key::Ts3),
            mode(words, Key::Ts4),
        ],
        at: number(words, Key::At) as u16,
        max: number(words, Key::Max) as u32,
        form: form(words),
        draw: number(words, Key::Draw),
        slots: number(words, Key::Slots) as u32,
        damage: number(words, Key::Damage) as u16,
        rows: own_rows(),
    }
}

/// The command and the settings that the words give, or the first faulty word with its first reason.
///
/// Word 0 is the command; each further word is a pair `key=value`, each key at most once. This
/// project's own.
pub fn read_words(words: &[String]) -> Result<(Command, Settings), WordFault>
    ensures meaning { result ≡ meaning (texts words.now) }
    ensures first { NamesFirst (texts words.now) result }
    ensures valid { IfOk result (λ found. IsValid found.1) }
{
    read(words)
}

#[tactic(auto, unfolding(crate::specs::Words::meaning))]
fn read(words: &[String]) -> Result<(Command, Settings), WordFault>
    ensures meaning { result ≡ meaning (texts words.now) }
    ensures ranges { IfOk result (λ found. IsInRanges found.1) }
{
    if words.is_empty() {
        return Err(WordFault {
            index: 0,
            why: WordWhy::NoCommand,
        });
    }
    let Some(command) = command_of(words[0].as_str()) else {
        return Err(WordFault {
            index: 0,
            why: WordWhy::UnknownCommand,
        });
    };
    if let Some(fault) = find_fault(command, words) {
        return Err(fault);
    }
    let settings = settings(words);
    if settings.dir == Dir::Dl
        && let Some(fault) = find_cb(words)
    {
        return Err(fault);
    }
    Ok((command, settings))
}
