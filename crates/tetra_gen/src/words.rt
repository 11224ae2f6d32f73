// What is drawn from the words of a generator.
ghost use Rattle.std.specs.Prelude.{◌≡◌, ◌≤◌, ◌<◌, ◌+◌, ◌^◌, ℕ, length};
ghost use Rattle.tetra_bits.specs.Digits.{digit};
ghost use Rattle.tetra_gen.specs.Words.{generator, word, words_for, field};

use rand_core::utils::NextWord;
use rand_pcg::Pcg32;
use tetra_bits::Bits;

/// The next word.
pub fn draw(words: &mut Pcg32) -> u32
    ensures word { (seed stream i : ℕ) → words.old ≡ generator seed stream i → result ≡ word seed stream i }
    ensures words { (seed stream i : ℕ) → words.old ≡ generator seed stream i
        → words.new ≡ generator seed stream (i + 1) }
{
    words.next_word()
}

/// Bit `k` of a word, counted from 0, the most significant first.
fn bit_of(word: u32, k: usize) -> bool
    requires { k < 32 }
    ensures { result ≡ digit 32 word (1 + k) }
{
    (word >> (31 - k)) % 2 == 1
}

/// The next field of so many bits, at most 432: of each word the most significant bit first, and what the last word has
/// over is dropped.
pub fn draw_field(words: &mut Pcg32, bits: usize) -> Bits
    requires { bits ≤ 432 }
    ensures field { (seed stream i : ℕ) → words.old ≡ generator seed stream i
        → result ≡ field (word seed stream) i bits }
    ensures words { (seed stream i : ℕ) → words.old ≡ generator seed stream i
        → words.new ≡ generator seed stream (i + words_for bits) }
    ensures size { length result ≡ bits }
{
    let mut drawn = Bits::new();
    let mut current = 0;
    for k in 0..bits {
        if k % 32 == 0 {
            current = draw(words);
        }
        drawn.push(bit_of(current, k % 32));
    }
    drawn
}
