// What no clause says: the type-3 bits of a block of zeros, written out, whose parity
// is 0111 1101 0111 0100. And each call once, on blocks that go out and come back.
ghost use Rattle.std.specs.Prelude.{◌≡◌, ◌≤◌, length};

use crate::{Bsch, Full, Raw72};
use tetra_bits::{Bits, Mark, Soft};
use tetra_scramble::zero_key;

/// A block of `count` zeros.
fn zeros(count: usize) -> Bits
    requires { count ≤ 432 }
    ensures { length result ≡ count }
{
    let mut block = Bits::new();
    for _k in 0..count {
        block.push(false);
    }
    block
}

/// Values with the signs of the bits.
fn heard(bits: &Bits) -> Soft
    ensures { length result ≡ length bits.now }
{
    let mut soft = Soft::new();
    for k in 0..bits.len() {
        soft.push(if bits.get(k) { -1 } else { 1 });
    }
    soft
}

#[test]
fn full_of_zeros(rt: HostRuntime) {
    let word = Full::type3(&zeros(268));
    for k in 0..408usize {
        assert_eq!(rt; word.get(k), k == 404 || k == 406, "bit {k}");
    }
}

#[test]
fn sent_and_read(rt: HostRuntime) {
    let key = zero_key();
    let sent = Bsch::encode(&zeros(60), &key);
    let reading = Bsch::decode3(&Bsch::front(&heard(&sent), &key));
    assert!(rt; reading.mark == Mark::Good);
    assert!(rt; reading.metric == 0);
    assert!(rt; reading.bits.len() == 76);
    let wrong = Bsch::decode3(&heard(&zeros(120)));
    assert!(rt; wrong.mark == Mark::Bad);
    assert!(rt; wrong.metric == 0);
}

#[test]
fn uncoded(rt: HostRuntime) {
    let sent = Raw72::encode(&zeros(432), &zero_key());
    assert!(rt; sent.get(0) && !sent.get(1));
    let reading = Raw72::decode1(&heard(&sent));
    assert!(rt; reading.mark == Mark::Unchecked);
    assert!(rt; reading.bits == sent);
}
