// A register of shifts.
ghost use Rattle.std.specs.Prelude.{◌≡◌, ◌≤◌, ◌<◌, ◌^◌, length, take};
ghost use Rattle.tetra_parity.specs.Parity.{block_rest};
ghost use Rattle.tetra_parity.specs.Register.{IsGenerator, shifted_by};

use tetra_bits::Bits;

/// `X^DEGREE M(X)` modulo a generator, where `M(X)` is the sum of `b(k) X^(size - k)` over the first `size` bits: what
/// a register holds behind them. Bit i of `GENERATOR` is the coefficient of `X^i`; its degree is `DEGREE`, at most 16.
pub fn register_of<const DEGREE: usize, const GENERATOR: u32>(bits: &Bits, size: usize) -> u32
    requires generator { IsGenerator DEGREE GENERATOR }
    requires there { size ≤ length bits.now }
    ensures value { result ≡ block_rest DEGREE GENERATOR (take size bits.now) }
    ensures small { result < 2 ^ DEGREE }
{
    let mut register = 0;
    for i in 0..size {
        register = shifted::<DEGREE, GENERATOR>(register, bits.get(i));
    }
    register
}

/// The register one step on: times `X`, and `X^DEGREE` added where `bit` is 1, modulo the generator.
fn shifted<const DEGREE: usize, const GENERATOR: u32>(register: u32, bit: bool) -> u32
    requires generator { IsGenerator DEGREE GENERATOR }
    requires small { register < 2 ^ DEGREE }
    ensures value { result ≡ shifted_by DEGREE GENERATOR register bit }
    ensures small { result < 2 ^ DEGREE }
{
    let wide = register << 1 ^ u32::from(bit) << DEGREE;
    wide ^ (wide >> DEGREE) * GENERATOR
}
