// What the program says at its end, and the number that it ends with.
ghost use Rattle.std.specs.Prelude.{◌≡◌};
ghost use Rattle.tetra_cli.specs.Ends.{IsWritten, spoken, ending_text, ending_code};

use crate::no_words;
use crate::no_words::NoWords;
use tetra_engine::{End, exit_code, line};
use tetra_io::{Sink, put_all};

/// How the program came to its end.
#[derive(Clone, Copy, PartialEq, Eq)]
pub enum Ending {
    /// It had no words, and nothing ran.
    NoWords(NoWords),
    /// A run ended.
    Ran(End),
}

/// Writes a text with a newline behind it, or nothing where it is empty. What the sink does not take is lost.
fn say<K: Sink>(sink: &mut K, text: &str)
    ensures { IsWritten (K.taken sink.old) (K.taken sink.new) (K.faults sink.old) (K.faults sink.new)
        (spoken text.now) }
{
    if text.is_empty() {
        return;
    }
    if put_all(sink, text.as_bytes()).is_ok() {
        let _ = put_all(sink, b"\n");
    }
}

/// Says on a sink why the program ends, and answers the number that it ends with.
pub fn conclude<K: Sink>(sink: &mut K, ending: &Ending) -> u8
    // The line of the end goes out whole, with a newline where it is not empty, but where a write failed.
    ensures said { IsWritten (K.taken sink.old) (K.taken sink.new) (K.faults sink.old) (K.faults sink.new)
        (spoken (ending_text ending.now)) }
    ensures code { result ≡ ending_code ending.now }
{
    match ending {
        Ending::NoWords(cause) => {
            say(sink, no_words::text(*cause));
            no_words::exit_code(*cause)
        }
        Ending::Ran(end) => {
            say(sink, line(end).as_str());
            exit_code(end)
        }
    }
}
