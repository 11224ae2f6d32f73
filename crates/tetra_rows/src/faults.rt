// How often a run reads and flushes: each call of a source or a sink fails in turn, and what stands after it is known by
// counting.
use crate::bytes::bytes;
use crate::runs::{Ends, Outcome, SURE, ended, run_over};
use std::process::Abort;
use std::test::Fail;

/// A run whose source or sink moves pieces of this size. For the calls from one number to another, each of which fails
/// in a run of its own: how many bytes of the output stand after the first of them, and the end. In a sink a piece more
/// stands after each further call.
#[derive(Clone, Copy)]
struct Faults {
    words: &'static str,
    input: &'static str,
    output: &'static str,
    piece: usize,
    calls: &'static [(u64, u64, usize, &'static str)],
}

const READS: [Faults; 5] = [
    Faults {
        words: "encode dir=ul",
        input: "46 34*00",
        output: "full",
        piece: 1,
        calls: &[
            (1, 35, 0, "4 0 read failed after 0 slots"),
            (36, 36, 510, "4 1 read failed after 1 slots"),
            (37, 37, 510, "0 1 "),
        ],
    },
    Faults {
        words: "encode dir=ul max=1",
        input: "46 34*00 46 34*00",
        output: "full",
        piece: 1,
        calls: &[
            (35, 35, 0, "4 0 read failed after 0 slots"),
            (36, 36, 510, "4 1 read failed after 1 slots"),
            (37, 37, 510, "6 1 too long: 1 slots"),
        ],
    },
    Faults {
        words: "encode dir=ul max=1",
        input: "46 34*00",
        output: "full",
        piece: 1,
        calls: &[
            (36, 36, 510, "4 1 read failed after 1 slots"),
            (37, 37, 510, "0 1 "),
        ],
    },
    Faults {
        words: "decode dir=ul",
        input: "full full",
        output: "46 47 00 00 33*00 parity 46 47 00 00 33*00 parity",
        piece: 510,
        calls: &[
            (1, 1, 0, "4 0 read failed after 0 slots"),
            (2, 2, 40, "4 1 read failed after 1 slots"),
            (3, 3, 80, "4 2 read failed after 2 slots"),
            (4, 4, 80, "0 2 "),
        ],
    },
    Faults {
        words: "audit dir=ul",
        input: "510*00 46 42 00 00 36*00 9248*00",
        output: "'0_ok",
        piece: 1_000,
        calls: &[
            (1, 11, 0, "4 0 read failed after 0 slots"),
            (12, 12, 5, "4 1 read failed after 1 slots"),
            (13, 13, 5, "0 1 "),
        ],
    },
];

const WRITES: [Faults; 6] = [
    Faults {
        words: "encode dir=ul",
        input: "46 34*00",
        output: "full",
        piece: 100,
        calls: &[
            (1, 6, 0, "5 0 write failed after 0 slots"),
            (7, 7, 510, "5 1 write failed after 1 slots"),
            (8, 8, 510, "0 1 "),
        ],
    },
    Faults {
        words: "encode dir=ul",
        input: "46 34*00 46 34*00 46 34*00 46 34*00",
        output: "full full full full",
        piece: 510,
        calls: &[
            (3, 3, 1_020, "5 2 write failed after 2 slots"),
            (5, 5, 2_040, "5 4 write failed after 4 slots"),
            (6, 6, 2_040, "0 4 "),
        ],
    },
    Faults {
        words: "decode dir=ul",
        input: "full",
        output: "46 47 00 00 33*00 parity",
        piece: 7,
        calls: &[
            (1, 6, 0, "5 0 write failed after 0 slots"),
            (7, 7, 40, "5 1 write failed after 1 slots"),
            (8, 8, 40, "0 1 "),
        ],
    },
    Faults {
        words: "decode dir=ul form=audit",
        input: "510*00",
        output: "510*00 46 42 00 00 36*00 9248*00",
        piece: 1_000,
        calls: &[
            (1, 10, 0, "5 0 write failed after 0 slots"),
            (11, 11, 9_798, "5 1 write failed after 1 slots"),
            (12, 12, 9_798, "0 1 "),
        ],
    },
    Faults {
        words: "audit dir=ul",
        input: "510*00 46 42 00 00 36*00 9248*00",
        output: "'0_ok",
        piece: 2,
        calls: &[
            (1, 3, 0, "5 0 write failed after 0 slots"),
            (4, 4, 5, "5 1 write failed after 1 slots"),
            (5, 5, 5, "0 1 "),
        ],
    },
    Faults {
        words: "trial dir=ul slots=4",
        input: "",
        output: "'slots_4 'kinds_4 'good_4 'bad_0 'unchecked_0 'notyet_0 'equal_4 'differ_0 'other_0 'metric_0",
        piece: 1,
        calls: &[
            (1, 84, 0, "5 0 write failed after 0 slots"),
            (85, 85, 84, "5 4 write failed after 4 slots"),
            (86, 86, 84, "0 4 "),
        ],
    },
];

/// Asserts that a run wrote so many bytes of the output, and how it ended.
fn stands(
    rt: &(impl Abort + AllocGlobal),
    faults: &Faults,
    ends: Ends,
    taken: usize,
    end: &str,
) -> Result<(), Fail> {
    let input = bytes(rt.alloc(), faults.input)?;
    let output = bytes(rt.alloc(), faults.output)?;
    let ran = run_over(rt.alloc(), faults.words, &input, ends, 20_000)?;
    ended(rt, &ran, end, faults.words, faults.input);
    begins(rt, &output, taken, &ran.output, faults.words);
    Ok(())
}

/// Asserts that these are the first bytes of an output, so many of them.
fn begins(rt: &impl Abort, output: &[u8], taken: usize, found: &[u8], words: &str) {
    let is_front = Some(found) == output.get(..taken);
    assert!(rt; is_front, "{taken} bytes of {words}");
}

/// Asserts what stands where a read fails.
fn read_fails(
    rt: &(impl Abort + AllocGlobal),
    faults: &Faults,
    call: u64,
    taken: usize,
    end: &str,
) -> Result<(), Fail> {
    let ends = Ends {
        read_piece: faults.piece,
        read_fails: call,
        ..SURE
    };
    stands(rt, faults, ends, taken, end)
}

/// Asserts what stands where a write or a flush fails.
fn write_fails(
    rt: &(impl Abort + AllocGlobal),
    faults: &Faults,
    call: u64,
    taken: usize,
    end: &str,
) -> Result<(), Fail> {
    let ends = Ends {
        write_piece: faults.piece,
        write_fails: call,
        ..SURE
    };
    stands(rt, faults, ends, taken, end)
}

fn reads_fail(rt: &(impl Abort + AllocGlobal), faults: &Faults) -> Result<(), Fail> {
    for (first, last, taken, end) in faults.calls {
        for call in *first..=*last {
            read_fails(rt, faults, call, *taken, end)?;
        }
    }
    Ok(())
}

fn writes_fail(rt: &(impl Abort + AllocGlobal), faults: &Faults) -> Result<(), Fail> {
    for (first, last, taken, end) in faults.calls {
        let mut taken = *taken;
        for call in *first..=*last {
            write_fails(rt, faults, call, taken, end)?;
            taken = taken.saturating_add(faults.piece);
        }
    }
    Ok(())
}

#[test]
fn each_read_fails(rt: HostRuntime) -> Result<(), Fail> {
    for faults in &READS {
        reads_fail(&rt, faults)?;
    }
    Ok(())
}

#[test]
fn each_write_fails(rt: HostRuntime) -> Result<(), Fail> {
    for faults in &WRITES {
        writes_fail(&rt, faults)?;
    }
    Ok(())
}

/// Words, input, the numbers of the read and of the write that fail, how many bytes of `full` stand, and the end.
const FLUSHES: [(&str, &str, u64, u64, usize, &str); 5] = [
    (
        "encode dir=ul",
        "46 34*00",
        36,
        2,
        510,
        "5 1 write failed after 1 slots",
    ),
    (
        "encode dir=ul max=1",
        "46 34*00 46",
        0,
        2,
        510,
        "5 1 write failed after 1 slots",
    ),
    (
        "encode dir=ul",
        "46 34*00 54",
        0,
        2,
        510,
        "5 1 write failed after 1 slots",
    ),
    (
        "encode dir=ul ts1=d72",
        "51 15*00 01 70*00",
        0,
        1,
        0,
        "5 0 write failed after 0 slots",
    ),
    (
        "decode dir=ul",
        "509*00",
        0,
        1,
        0,
        "5 0 write failed after 0 slots",
    ),
];

#[test]
fn flush_fails_behind_another_end(rt: HostRuntime) -> Result<(), Fail> {
    for (words, input, read_fails, write_fails, taken, end) in &FLUSHES {
        let ends = Ends {
            read_piece: 1,
            read_fails: *read_fails,
            write_fails: *write_fails,
            ..SURE
        };
        let faults = Faults {
            words,
            input,
            output: "full",
            piece: 1,
            calls: &[],
        };
        stands(&rt, &faults, ends, *taken, end)?;
    }
    Ok(())
}

#[test]
fn room_of_a_slot_and_a_part(rt: HostRuntime) -> Result<(), Fail> {
    let (words, blocks) = ("encode dir=ul", "46 34*00 46 34*00");
    let input = bytes(rt.alloc(), blocks)?;
    let output = bytes(rt.alloc(), "full full")?;
    let ran = run_over(rt.alloc(), words, &input, SURE, 700)?;
    ended(&rt, &ran, "5 1 write failed after 1 slots", words, blocks);
    begins(&rt, &output, 700, &ran.output, words);
    Ok(())
}

/// Asserts that each part of an input is found to be cut off.
fn are_cut_off(rt: &(impl Abort + AllocGlobal), words: &str, whole: &str) -> Result<(), Fail> {
    let input = bytes(rt.alloc(), whole)?;
    for size in 1..input.len() {
        let ran = run_over(rt.alloc(), words, &input[..size], SURE, 510)?;
        is_cut_off(rt, &ran, words, size);
    }
    Ok(())
}

fn is_cut_off(rt: &impl Abort, ran: &Outcome, words: &str, size: usize) {
    assert!(rt;
        ran.output.is_empty() && ran.end.as_str() == "3 0 input: slot 0: truncated",
        "{words} of {size} bytes"
    );
}

#[test]
fn parts_of_an_input(rt: HostRuntime) -> Result<(), Fail> {
    are_cut_off(&rt, "decode dir=ul", "full")?;
    are_cut_off(&rt, "encode dir=ul", "46 34*00")
}
