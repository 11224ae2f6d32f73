// The summary of a trial.
ghost use Rattle.std.specs.Prelude.{◌≡◌, ◌≤◌, ◌+◌, ◌++◌, length, codes};
ghost use Rattle.tetra_engine.specs.Trying.{number_line, summary};

use crate::texts::{add, add_number};
use arrayvec::ArrayString;
use tetra_trial::Tally;

/// The text of a summary: ten lines of a word and a number of at most twenty digits.
pub type Summary = ArrayString<320>;

/// Puts a line behind a text that has room for it: a word, a space, a number and a newline.
fn add_line(text: &mut Summary, word: &str, number: u64)
    requires word { length word.now ≤ 9 }
    requires room { length text.old.bytes + 31 ≤ 320 }
    ensures text { text.new.bytes ≡ text.old.bytes ++ number_line word.now number }
    ensures short { length text.new.bytes ≤ length text.old.bytes + 31 }
{
    add(text, word);
    add(text, " ");
    add_number(text, number);
    add(text, "\n");
}

/// The ten lines of a tally.
pub fn summary_of(tally: &Tally) -> Summary
    ensures { result.bytes ≡ summary tally.now }
{
    let mut text = Summary::new();
    add_line(&mut text, "slots", tally.slots);
    add_line(&mut text, "kinds", tally.kinds);
    add_line(&mut text, "good", tally.good);
    add_line(&mut text, "bad", tally.bad);
    add_line(&mut text, "unchecked", tally.unchecked);
    add_line(&mut text, "notyet", tally.notyet);
    add_line(&mut text, "equal", tally.equal);
    add_line(&mut text, "differ", tally.differ);
    add_line(&mut text, "other", tally.other);
    add_line(&mut text, "metric", tally.metric);
    text
}
