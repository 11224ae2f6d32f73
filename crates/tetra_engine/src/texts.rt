// Short texts, put together piece by piece.
ghost use Rattle.std.specs.Prelude.{◌≡◌, ◌≤◌, ◌+◌, ◌++◌, length, decimal};

use arrayvec::ArrayString;
use itoa::Buffer;

/// Puts a piece behind a text that has room for it.
pub fn add<const N: usize>(text: &mut ArrayString<N>, piece: &str)
    requires { length text.old.bytes + length piece.now ≤ N }
    ensures { text.new.bytes ≡ text.old.bytes ++ piece.now }
{
    text.try_push_str(piece).unwrap();
}

/// Puts a decimal number behind a text that has room for twenty digits.
pub fn add_number<const N: usize>(text: &mut ArrayString<N>, number: u64)
    requires { length text.old.bytes + 20 ≤ N }
    ensures text { text.new.bytes ≡ text.old.bytes ++ decimal number }
    ensures short { length text.new.bytes ≤ length text.old.bytes + 20 }
{
    let mut digits = Buffer::new();
    add(text, digits.format(number));
}
