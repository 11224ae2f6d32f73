// The words behind `=`.
ghost use Rattle.std.specs.Prelude.{◌≡◌, ◌≤◌, ◌<◌, ◌^◌, IfOk, Ok, Err, IsTrue, true, if◌then◌else◌, Some, None, nat_lt};
ghost use Rattle.std.specs.List.{list_all};
ghost use Rattle.std.specs.Char.{is_ascii_digit};
ghost use Rattle.std.specs.Str.Parse.{digits_value};
ghost use Rattle.tetra_settings.specs.Values.{value_by, number_value, is_number, direction_by_text, mode_by_text, form_by_text, IsAmong};

use crate::types::{Dir, Form, Mode, Span, WordWhy};

/// What a key was given.
#[derive(Clone, Copy, Debug, PartialEq, Eq)]
pub enum Value {
    Number(u64),
    Direction(Dir),
    Timeslot(Mode),
    Shape(Form),
}

/// What a key may be given.
#[derive(Clone, Copy, Debug, PartialEq, Eq)]
pub enum Values {
    /// A number from the first to the second.
    Between(u64, u64),
    Directions,
    Timeslots,
    Forms,
}

fn all_digits(text: &[u8]) -> bool
    ensures { result ≡ list_all is_ascii_digit text.now }
{
    text.iter().all(|b| b.is_ascii_digit())
}

/// Whether a text is `0`, or digits of which the first is not 0.
fn is_decimal(text: &[u8]) -> bool
    ensures { result ≡ is_number text.now }
{
    if text.is_empty() {
        return false;
    }
    if text[0] == b'0' {
        return text.len() == 1;
    }
    all_digits(text)
}

/// The number that such digits write, where it is below 2^64.
fn read_number(text: &str) -> Option<u64>
    requires { IsTrue (is_number text.now) }
    ensures { result ≡ (if nat_lt (digits_value 10 text.now) (2 ^ 64) then Some (digits_value 10 text.now) else None) }
{
    match text.parse::<u64>() {
        Ok(n) => Some(n),
        Err(_) => None,
    }
}

fn number(text: &str, low: u64, high: u64) -> Result<Value, WordWhy>
    ensures value { result ≡ number_value low high text.now }
    ensures range { IfOk result (IsAmong (Values.Between low high)) }
{
    if !is_decimal(text.as_bytes()) {
        return Err(WordWhy::BadNumber);
    }
    match read_number(text) {
        Some(n) if low <= n && n <= high => Ok(Value::Number(n)),
        _ => Err(WordWhy::OutOfRange),
    }
}

#[tactic(auto, unfolding(crate::specs::Values::direction_by_text))]
fn direction(text: &str) -> Option<Dir>
    ensures { result ≡ direction_by_text text.now }
{
    match text {
        "dl" => Some(Dir::Dl),
        "ul" => Some(Dir::Ul),
        _ => None,
    }
}

#[tactic(auto, unfolding(crate::specs::Values::mode_by_text))]
fn mode(text: &str) -> Option<Mode>
    ensures { result ≡ mode_by_text text.now }
{
    match text {
        "sig" => Some(Mode::Sig),
        "cb" => Some(Mode::Cb),
        "d72" => Some(Mode::D72),
        "d48n1" => Some(Mode::D48(Span::One)),
        "d48n4" => Some(Mode::D48(Span::Four)),
        "d48n8" => Some(Mode::D48(Span::Eight)),
        "d24n1" => Some(Mode::D24(Span::One)),
        "d24n4" => Some(Mode::D24(Span::Four)),
        "d24n8" => Some(Mode::D24(Span::Eight)),
        "speech" => Some(Mode::Speech),
        _ => None,
    }
}

#[tactic(auto, unfolding(crate::specs::Values::form_by_text))]
fn form(text: &str) -> Option<Form>
    ensures { result ≡ form_by_text text.now }
{
    match text {
        "plain" => Some(Form::Plain),
        "audit" => Some(Form::Audit),
        _ => None,
    }
}

/// The value that a text gives a key with these values.
pub fn value_of(values: Values, text: &str) -> Result<Value, WordWhy>
    ensures value { result ≡ value_by values text.now }
    ensures among { IfOk result (IsAmong values) }
{
    let found = match values {
        Values::Between(low, high) => return number(text, low, high),
        Values::Directions => direction(text).map(Value::Direction),
        Values::Timeslots => mode(text).map(Value::Timeslot),
        Values::Forms => form(text).map(Value::Shape),
    };
    found.ok_or(WordWhy::UnknownValue)
}
