// Why the program has no words, and what it says and ends with then.
ghost use Rattle.std.specs.Prelude.{◌≡◌, ◌↔◌};
ghost use Rattle.tetra_cli.specs.Ends.{no_words_text, no_words_code};

use std::io::ErrorKind;

/// Why there are no words.
#[derive(Clone, Copy, PartialEq, Eq)]
pub enum NoWords {
    Memory,
    System,
}

/// Why there are none where the system ended so.
pub fn cause(kind: ErrorKind) -> NoWords
    ensures { (result ≡ NoWords.Memory) ↔ (kind ≡ ErrorKind.OutOfMemory) }
{
    if kind == ErrorKind::OutOfMemory {
        NoWords::Memory
    } else {
        NoWords::System
    }
}

/// The line for standard error, without a newline.
pub fn text(cause: NoWords) -> &'static str
    ensures { result.now ≡ no_words_text cause }
{
    match cause {
        NoWords::Memory => "no memory for the words",
        NoWords::System => "no words given",
    }
}

/// The number that the program ends with.
pub fn exit_code(cause: NoWords) -> u8
    ensures { result ≡ no_words_code cause }
{
    match cause {
        NoWords::Memory => 7,
        NoWords::System => 9,
    }
}
