// What is drawn of a slot, in its order: its letter, its access field, its mask and its body.
ghost use Rattle.std.specs.Prelude.{◌≡◌, ◌<◌, ◌+◌, ℕ, length};
ghost use Rattle.tetra_settings.specs.Blocks.{field_bits};
ghost use Rattle.tetra_gen.specs.Words.{generator, word};
ghost use Rattle.tetra_gen.specs.Made.{letter_drawn, access_words, access_made, mask_words, sends_made, field_begin, body_drawn};

use crate::words::{draw, draw_field};
use rand_pcg::Pcg32;
use tetra_settings::{Body, Dir, Letter, Mode, field_bits};

/// A letter of those that a slot may carry, of which there is one at least.
pub fn draw_letter(words: &mut Pcg32, allowed: &[Letter]) -> Letter
    requires { 0 < length allowed.now }
    ensures letter { (seed stream i : ℕ) → words.old ≡ generator seed stream i
        → result ≡ letter_drawn allowed.now (word seed stream i) }
    ensures words { (seed stream i : ℕ) → words.old ≡ generator seed stream i
        → words.new ≡ generator seed stream (i + 1) }
{
    allowed[draw(words) as usize % allowed.len()]
}

/// The access field, on the downlink.
pub fn draw_access(words: &mut Pcg32, dir: Dir) -> Option<u16>
    ensures access { (seed stream i : ℕ) → words.old ≡ generator seed stream i
        → result ≡ access_made dir (word seed stream) i }
    ensures words { (seed stream i : ℕ) → words.old ≡ generator seed stream i
        → words.new ≡ generator seed stream (i + access_words dir) }
{
    match dir {
        Dir::Dl => Some((draw(words) >> 18) as u16),
        Dir::Ul => None,
    }
}

/// The subslots that a letter sends.
pub fn draw_mask(words: &mut Pcg32, letter: Letter) -> (bool, bool)
    ensures first { (seed stream i : ℕ) → words.old ≡ generator seed stream i
        → result.0 ≡ sends_made letter (word seed stream) i 1 }
    ensures second { (seed stream i : ℕ) → words.old ≡ generator seed stream i
        → result.1 ≡ sends_made letter (word seed stream) i 2 }
    ensures words { (seed stream i : ℕ) → words.old ≡ generator seed stream i
        → words.new ≡ generator seed stream (i + mask_words letter) }
{
    match letter {
        Letter::C => {
            let mask = draw(words) % 4;
            (mask / 2 == 1, mask % 2 == 1)
        }
        Letter::F | Letter::H | Letter::S | Letter::T | Letter::P | Letter::Q => (false, false),
    }
}

/// The body of a letter.
pub fn draw_body(words: &mut Pcg32, letter: Letter, mode: Mode, sent: (bool, bool)) -> Body
    ensures body { (seed stream i : ℕ) → words.old ≡ generator seed stream i
        → result ≡ body_drawn (word seed stream) letter sent.0 sent.1 (field_bits letter mode sent.0 sent.1) i }
    ensures words { (seed stream i : ℕ) → words.old ≡ generator seed stream i
        → words.new ≡ generator seed stream (field_begin i (field_bits letter mode sent.0 sent.1) 3) }
{
    let [first, second, third] = field_bits(letter, mode, sent);
    let first = draw_field(words, first);
    let second = draw_field(words, second);
    let third = draw_field(words, third);
    Body::from_fields(letter, sent, first, second, third)
}
