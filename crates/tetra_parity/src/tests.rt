// What no clause says: that the generators, the place of the block's bits and the order of the parity
// are the right ones.
use crate::{Parity, holds16, mark, with_parity};
use std::process::Abort;
use tetra_bits::{Bits, Mark};

// A block of `size` bits that ends with the low eight bits of `last`.
fn block_of(rt: &impl Abort, size: usize, last: u32) -> Bits {
    assert!(rt; 8 <= size && size <= 416);
    let mut block = Bits::new();
    for i in 0..size {
        assert!(rt; block.len() < 416);
        block.push(size - 8 <= i && last >> (size - 1 - i) & 1 == 1);
    }
    block
}

// The bits that stand behind a block with its parity, as a number.
fn parity_behind(rt: &impl Abort, parity: Parity, block: &Bits) -> u32 {
    assert!(rt; block.len() <= 416);
    let message = with_parity(parity, block);
    assert!(rt; message.len() == block.len() + parity.width());
    assert!(rt; mark(parity, &message) == Mark::Good);
    let mut number = 0;
    for i in block.len()..message.len() {
        number = number << 1 | u32::from(message.get(i));
    }
    number
}

#[test]
fn sixteen_bits_of_a_text(rt: HostRuntime) {
    let mut block = Bits::new();
    for byte in b"123456789" {
        for i in 0..8u32 {
            assert!(rt; block.len() < 72);
            block.push(byte >> (7 - i) & 1 == 1);
        }
    }
    assert_eq!(rt; parity_behind(&rt, Parity::Sixteen, &block), 0xD64E);
}

#[test]
fn parity_of_few_ones(rt: HostRuntime) {
    for (parity, size, last, behind) in [
        (Parity::Sixteen, 60, 0, 0x12F0),
        (Parity::Sixteen, 268, 0, 0x7D74),
        (Parity::Eight, 60, 0, 0),
        (Parity::Eight, 60, 1, 0b0001_0011),
        (Parity::Four, 30, 1, 0b0011),
    ] {
        let block = block_of(&rt, size, last);
        assert_eq!(rt;
            parity_behind(&rt, parity, &block),
            behind,
            "behind {size} bits"
        );
    }
}

#[test]
fn zeros_have_no_sixteen_bits(rt: HostRuntime) {
    let message = block_of(&rt, 284, 0);
    assert!(rt; message.len() == 284);
    assert!(rt; !holds16(&message));
}
