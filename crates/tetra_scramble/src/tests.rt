// Both ways to add the key, once each, over the zero key, which begins 1011.
use crate::{flip_bits, flip_soft, zero_key};
use tetra_bits::{Bits, Soft};

#[test]
fn flips_from_the_second_bit(rt: HostRuntime) {
    let zero = zero_key();
    let mut bits = Bits::new();
    let mut soft = Soft::new();
    for _ in 0..3usize {
        assert!(rt; bits.len() < 3 && soft.len() < 3);
        bits.push(false);
        soft.push(127);
    }
    assert!(rt; bits.len() == 3 && soft.len() == 3);
    let flipped = flip_bits(&bits, &zero, 2);
    let turned = flip_soft(&soft, &zero, 2);
    assert!(rt; flipped.len() == 3 && turned.len() == 3);
    assert!(rt; !flipped.get(0) && flipped.get(1) && flipped.get(2));
    assert!(rt; turned.get(0) == 127 && turned.get(1) == -127 && turned.get(2) == -127);
}
