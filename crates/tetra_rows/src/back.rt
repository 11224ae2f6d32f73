// Blocks that were worked out by hand, sent and read back: that the letters of both directions, their layouts and their
// lengths are the ones that are written down.
use crate::bytes::bytes;
use crate::runs::{Outcome, SURE, ended, ran_to, run_over, wrote};
use std::alloc::{AllocError, Global};
use std::process::Abort;
use std::test::Fail;

/// Words behind the command, the block records, and the reading records of the slots that are sent for them.
#[derive(Clone, Copy)]
struct Back<'a> {
    words: &'a str,
    blocks: &'a str,
    readings: &'a str,
    slots: usize,
}

const BACK: [Back<'static>; 13] = [
    Back {
        words: "",
        blocks: "46 00 04 34*00",
        readings: "46 55 00 00 00 04 47 00 00 33*00 parity",
        slots: 1,
    },
    Back {
        words: "",
        blocks: "53 00 00 8*00 16*00",
        readings: "53 55 00 00 00 00 47 00 00 7*00 01 2F 00 47 00 00 15*00 05 34 B0",
        slots: 1,
    },
    Back {
        words: "mcc=901 mnc=16383 cc=1",
        blocks: "48 FF FC 32*00 53 00 00 24*00",
        readings: "48 55 00 00 FF FC 47 00 00 15*00 05 34 B0 47 00 00 15*00 05 34 B0 \
            53 55 00 00 00 00 47 00 00 7*00 01 2F 00 47 00 00 15*00 05 34 B0",
        slots: 2,
    },
    Back {
        words: "ts1=d72",
        blocks: "54 80 00 54*00",
        readings: "54 55 00 00 80 00 55 00 00 54*00",
        slots: 1,
    },
    Back {
        words: "at=68 ts1=d72",
        blocks: "46 00 00 34*00",
        readings: "46 55 00 00 00 00 47 00 00 33*00 parity",
        slots: 1,
    },
    Back {
        words: "dir=ul ts1=cb",
        blocks: "43 40 12*00",
        readings: "43 42 00 00 14*00 47 00 00 11*00 06 EA 20",
        slots: 1,
    },
    Back {
        words: "dir=ul ts1=cb",
        blocks: "43 00",
        readings: "43 42 00 00 14*00 42 00 00 14*00",
        slots: 1,
    },
    Back {
        words: "dir=ul ts1=d72 at=64",
        blocks: "54 54*00 46 34*00 46 34*00 46 34*00 46 34*00 46 34*00 46 34*00 46 34*00 54 54*00",
        readings: "54 55 00 00 54*00 46 47 00 00 33*00 parity 46 47 00 00 33*00 parity \
            46 47 00 00 33*00 parity 46 47 00 00 33*00 parity 46 47 00 00 33*00 parity \
            46 47 00 00 33*00 parity 46 47 00 00 33*00 parity 54 55 00 00 54*00",
        slots: 9,
    },
    Back {
        words: "dir=ul ts1=d48n8",
        blocks: "54 C1 34*00 31 46 34*00 46 34*00 46 34*00 54 C2 34*00 32 46 34*00 46 34*00 46 34*00 \
            54 C3 34*00 33 46 34*00 46 34*00 46 34*00 54 C4 34*00 34 46 34*00 46 34*00 46 34*00 \
            54 C5 34*00 35 46 34*00 46 34*00 46 34*00 54 C6 34*00 36 46 34*00 46 34*00 46 34*00 \
            54 C7 34*00 37 46 34*00 46 34*00 46 34*00 54 C8 34*00 38 46 34*00 46 34*00 46 34*00",
        readings: "54 4E 00 00 36*00 46 47 00 00 33*00 parity 46 47 00 00 33*00 parity \
            46 47 00 00 33*00 parity 54 4E 00 00 36*00 46 47 00 00 33*00 parity \
            46 47 00 00 33*00 parity 46 47 00 00 33*00 parity 54 4E 00 00 36*00 \
            46 47 00 00 33*00 parity 46 47 00 00 33*00 parity 46 47 00 00 33*00 parity \
            54 4E 00 00 36*00 46 47 00 00 33*00 parity 46 47 00 00 33*00 parity \
            46 47 00 00 33*00 parity 54 4E 00 00 36*00 46 47 00 00 33*00 parity \
            46 47 00 00 33*00 parity 46 47 00 00 33*00 parity 54 4E 00 00 36*00 \
            46 47 00 00 33*00 parity 46 47 00 00 33*00 parity 46 47 00 00 33*00 parity \
            54 4E 00 00 36*00 46 47 00 00 33*00 parity 46 47 00 00 33*00 parity \
            46 47 00 00 33*00 parity 54 55 00 00 C1 34*00 31 46 47 00 00 33*00 parity \
            46 47 00 00 33*00 parity 46 47 00 00 33*00 parity",
        slots: 32,
    },
    Back {
        words: "dir=ul ts1=d48n4 ts2=d48n4",
        blocks: "54 A0 35*00 54 50 35*00 46 34*00 46 34*00 54 A1 35*00 54 51 35*00 46 34*00 46 34*00 54 A2 35*00 \
            54 52 35*00 46 34*00 46 34*00 54 A3 35*00 54 53 35*00 46 34*00 46 34*00",
        readings: "54 4E 00 00 36*00 54 4E 00 00 36*00 46 47 00 00 33*00 parity 46 47 00 00 33*00 parity \
            54 4E 00 00 36*00 54 4E 00 00 36*00 46 47 00 00 33*00 parity 46 47 00 00 33*00 parity \
            54 4E 00 00 36*00 54 4E 00 00 36*00 46 47 00 00 33*00 parity 46 47 00 00 33*00 parity \
            54 55 00 00 A0 35*00 54 55 00 00 50 35*00 46 47 00 00 33*00 parity 46 47 00 00 33*00 parity",
        slots: 16,
    },
    Back {
        words: "dir=ul ts1=speech",
        blocks: "54 35*00",
        readings: "54 47 00 00 36*00",
        slots: 1,
    },
    Back {
        words: "dir=ul ts1=speech",
        blocks: "50 16*00 18*00",
        readings: "50 47 00 00 15*00 05 34 B0 21*.. 47 00 00 18*00",
        slots: 1,
    },
    Back {
        words: "dir=ul ts1=d72",
        blocks: "51 86*00",
        readings: "50 47 00 00 15*00 05 34 B0 47 00 00 15*00 05 34 B0 55 00 00 54*00",
        slots: 1,
    },
];

/// How many bytes are sent and how many are read.
#[derive(Clone, Copy)]
struct Sizes {
    sent: usize,
    read: usize,
}

/// The run of a command with the words of a row; asserts that it ends done.
fn ran(
    rt: &(impl Abort + AllocGlobal),
    command: &str,
    row: &Back<'_>,
    input: &[u8],
) -> Result<Outcome, Fail> {
    let words = format!(in rt.alloc(); "{command} {}", row.words)?;
    let end = format!(in rt.alloc(); "0 {} ", row.slots)?;
    let ran = run_over(rt.alloc(), &words, input, SURE, 40_000)?;
    ended(rt, &ran, &end, &words, row.blocks);
    Ok(ran)
}

/// Asserts that what is sent are so many slots.
fn fills(rt: &impl Abort, sent: &[u8], row: &Back<'_>) {
    assert_eq!(rt;
        sent.len() / 510,
        row.slots,
        "{} of {}",
        row.words,
        row.blocks
    );
}

/// Asserts that the blocks are sent and read back as they should be.
fn holds(rt: &(impl Abort + AllocGlobal), row: &Back<'_>) -> Result<Sizes, Fail> {
    let blocks = bytes(rt.alloc(), row.blocks)?;
    let sent = ran(rt, "encode", row, &blocks)?.output;
    fills(rt, &sent, row);
    let read = ran(rt, "decode", row, &sent)?;
    wrote(rt, &read, row.readings, row.words, row.blocks)?;
    Ok(Sizes {
        sent: sent.len(),
        read: read.output.len(),
    })
}

#[test]
fn sent_and_read_back(rt: HostRuntime) -> Result<(), Fail> {
    for row in &BACK {
        holds(&rt, row)?;
    }
    Ok(())
}

/// The block record of a slot of a downlink carrier with signalling, TCH/4.8 over four slots, speech and TCH/7.2, and its
/// reading record.
fn records(slot: usize) -> (&'static str, &'static str) {
    match slot {
        0 => (
            "53 00 00 24*00 ",
            "53 55 00 00 00 00 47 00 00 7*00 01 2F 00 47 00 00 15*00 05 34 B0 ",
        ),
        18 => (
            "50 00 00 34*00 ",
            "50 55 00 00 00 00 47 00 00 15*00 05 34 B0 21*.. 47 00 00 18*00 ",
        ),
        1 | 5 | 9 => ("54 00 00 36*00 ", "54 55 00 00 00 00 4E 00 00 36*00 "),
        _ if slot % 4 == 0 || slot >= 68 => (
            "46 00 00 34*00 ",
            "46 55 00 00 00 00 47 00 00 33*00 parity ",
        ),
        _ if slot % 4 == 1 => ("54 00 00 36*00 ", "54 55 00 00 00 00 55 00 00 36*00 "),
        _ if slot % 4 == 2 => ("54 00 00 35*00 ", "54 55 00 00 00 00 47 00 00 36*00 "),
        _ => ("54 00 00 54*00 ", "54 55 00 00 00 00 55 00 00 54*00 "),
    }
}

/// The block records and the reading records of a multiframe.
fn multiframe(alloc: Global) -> Result<(String, String), AllocError> {
    let (mut blocks, mut readings) = (String::new(alloc), String::new(alloc));
    for slot in 0..72usize {
        let (block, reading) = records(slot);
        blocks.push_str(block)?;
        readings.push_str(reading)?;
    }
    Ok((blocks, readings))
}

#[test]
fn a_multiframe_of_a_carrier(rt: HostRuntime) -> Result<(), Fail> {
    let (blocks, readings) = multiframe(rt.alloc())?;
    assert_eq!(rt; bytes(rt.alloc(), &blocks)?.len(), 3_044);
    let row = Back {
        words: "mcc=901 mnc=16383 cc=1 ts2=d48n4 ts3=speech ts4=d72",
        blocks: &blocks,
        readings: &readings,
        slots: 72,
    };
    let sizes = holds(&rt, &row)?;
    assert!(rt; sizes.sent == 36_720 && sizes.read == 3_565);
    Ok(())
}

/// The record of `full` with its certificate, in which bytes 552 to 581 are zeros.
fn claim_off_its_path(rt: &(impl Abort + AllocGlobal)) -> Result<Vec<u8>, Fail> {
    let slot = bytes(rt.alloc(), "full")?;
    let mut claim = run_over(rt.alloc(), "decode dir=ul form=audit", &slot, SURE, 10_000)?.output;
    assert_eq!(rt; claim.len(), 9_798);
    for place in 552..582usize {
        if let Some(byte) = claim.get_mut(place) {
            *byte = 0;
        }
    }
    Ok(claim)
}

#[test]
fn certificate_off_the_path_of_its_message(rt: HostRuntime) -> Result<(), Fail> {
    let claim = claim_off_its_path(&rt)?;
    let words = "audit dir=ul";
    let judged = ran_to(&rt, words, &claim, 100, "0 1 ")?;
    wrote(&rt, &judged, "'0_ok", words, "a claim")
}
