// The halves of a word of 432 bits.
ghost use Rattle.std.specs.Prelude.{◌≡◌, length, take, drop};

use tetra_bits::Bits;

/// The first 216 bits: those of block 1.
pub fn first_half(word: &Bits) -> Bits
    requires { length word.now ≡ 432 }
    ensures bits { result ≡ take 216 word.now }
    ensures size { length result ≡ 216 }
{
    let mut half = Bits::new();
    for i in 0..216usize {
        half.push(word.get(i));
    }
    half
}

/// The last 216 bits: those of block 2.
pub fn second_half(word: &Bits) -> Bits
    requires { length word.now ≡ 432 }
    ensures bits { result ≡ drop 216 word.now }
    ensures size { length result ≡ 216 }
{
    let mut half = Bits::new();
    for i in 0..216usize {
        half.push(word.get(216 + i));
    }
    half
}
