// What no clause says: what is made of the words of the generator, beside an independent rendering of it.
ghost use Rattle.std.specs.Prelude.{IfOk};
ghost use Rattle.tetra_settings.specs.Validity.{IsValid};

use crate::{Damage, Maker};
use std::alloc::{AllocError, Global};
use std::process::Abort;
use std::test::Fail;
use tetra_bits::{Bits, pack};
use tetra_settings::{Body, Settings, read_words};

fn settings(rt: &impl Abort, alloc: Global, line: &str) -> Result<Settings, AllocError>
    ensures { IfOk result (λ settings. IsValid settings) }
{
    let mut all = Vec::new(alloc);
    for word in line.split(' ') {
        all.push(String::from_str(alloc, word)?)?;
    }
    match read_words(&all) {
        Ok((_, settings)) => Ok(settings),
        Err(_) => panic!(rt; "{line}"),
    }
}

fn assert_packed(rt: &impl Abort, bits: &Bits, len: usize, bytes: &[u8]) {
    assert_eq!(rt; bits.len(), len);
    assert_eq!(rt; pack(bits).as_slice(), bytes);
}

#[test]
fn full_block_on_the_uplink(rt: HostRuntime) -> Result<(), Fail> {
    let mut maker = Maker::new(&settings(&rt, rt.alloc(), "gen dir=ul")?);
    let blocks = maker.slot();
    assert!(rt; blocks.aach.is_none());
    let Body::Full { block } = blocks.body else {
        panic!(rt; "not F");
    };
    assert_packed(
        &rt,
        &block,
        268,
        &[
            0x18, 0x42, 0x96, 0xdd, 0x35, 0x76, 0x43, 0xf4, 0xf8, 0xe8, 0x4c, 0x31, 0xaa, 0xc1,
            0xca, 0x89, 0x45, 0x55, 0xf0, 0x03, 0x24, 0xd8, 0x21, 0x7a, 0x3e, 0x18, 0xcb, 0x9c,
            0x53, 0x7b, 0x33, 0x9d, 0xe9, 0x80,
        ],
    );
    Ok(())
}

#[test]
fn synchronisation_on_the_downlink(rt: HostRuntime) -> Result<(), Fail> {
    let mut maker = Maker::new(&settings(&rt, rt.alloc(), "gen")?);
    let blocks = maker.slot();
    assert_eq!(rt; blocks.aach, Some(1_552));
    let Body::Sync { sync, half } = blocks.body else {
        panic!(rt; "not S");
    };
    assert_packed(
        &rt,
        &sync,
        60,
        &[0x35, 0x76, 0x43, 0xf4, 0xf8, 0xe8, 0x4c, 0x30],
    );
    assert_packed(
        &rt,
        &half,
        124,
        &[
            0xaa, 0xc1, 0xca, 0x89, 0x45, 0x55, 0xf0, 0x03, 0x24, 0xd8, 0x21, 0x7a, 0x3e, 0x18,
            0xcb, 0x90,
        ],
    );
    assert_eq!(rt; maker.slot().aach, Some(14_944));
    assert_eq!(rt; maker.slot().aach, Some(12_859));
    Ok(())
}

#[test]
fn control_bursts(rt: HostRuntime) -> Result<(), Fail> {
    let mut maker = Maker::new(&settings(&rt, rt.alloc(), "gen dir=ul ts1=cb ts2=cb")?);
    let Body::Control {
        first: None,
        second: Some(block),
    } = maker.slot().body
    else {
        panic!(rt; "not the second subslot alone");
    };
    assert_packed(
        &rt,
        &block,
        92,
        &[
            0x35, 0x76, 0x43, 0xf4, 0xf8, 0xe8, 0x4c, 0x31, 0xaa, 0xc1, 0xca, 0x80,
        ],
    );
    let Body::Control {
        first: Some(block),
        second: None,
    } = maker.slot().body
    else {
        panic!(rt; "not the first subslot alone");
    };
    assert_packed(
        &rt,
        &block,
        92,
        &[
            0x3e, 0x18, 0xcb, 0x9c, 0x53, 0x7b, 0x33, 0x9d, 0xe9, 0x81, 0x42, 0x50,
        ],
    );
    Ok(())
}

/// Slots whose values are all 1, turned.
#[test]
fn turned_positions(rt: HostRuntime) -> Result<(), Fail> {
    let mut damage = Damage::new(&settings(&rt, rt.alloc(), "trial damage=3")?);
    for positions in [[133usize, 437, 427], [421, 320, 382], [408, 70, 402]] {
        let mut turned = [1; 510];
        for position in positions {
            turned[position - 1] = -1;
        }
        assert_eq!(rt; damage.slot(&[1; 510]), turned);
    }
    // Both draws of the first slot are position 13.
    let mut damage = Damage::new(&settings(&rt, rt.alloc(), "trial damage=2 draw=206")?);
    assert_eq!(rt; damage.slot(&[1; 510]), [1; 510]);
    let mut turned = [1; 510];
    turned[472] = -1;
    turned[464] = -1;
    assert_eq!(rt; damage.slot(&[1; 510]), turned);
    Ok(())
}
