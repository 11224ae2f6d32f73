// Runs that were worked out by hand: that letters, lengths, layouts and texts are the ones that are written down.
use crate::bytes::bytes;
use crate::runs::{Row, SURE, holds, run_over};
use std::process::Abort;
use std::test::Fail;

const ENCODED: [Row; 18] = [
    Row {
        words: "encode dir=ul ts1=d72",
        input: "54 54*00",
        output: "34*00 81 81 7F 7F key1 n key2 81 81 7F 7F 14*00",
        end: "0 1 ",
    },
    Row {
        words: "encode dir=ul ts1=d72",
        input: "54 54*00 54 54*00",
        output: "data",
        end: "3 1 input: slot 1: wrong kind",
    },
    Row {
        words: "encode dir=ul ts1=d72",
        input: "54 53*00",
        output: "",
        end: "3 0 input: slot 0: truncated",
    },
    Row {
        words: "encode dir=ul ts1=d72 max=1",
        input: "54 54*00 54 54*00",
        output: "data",
        end: "6 1 too long: 1 slots",
    },
    Row {
        words: "encode dir=ul ts1=d72",
        input: "46",
        output: "",
        end: "3 0 input: slot 0: wrong kind",
    },
    Row {
        words: "encode dir=ul ts1=d72",
        input: "5A",
        output: "",
        end: "3 0 input: slot 0: unknown kind",
    },
    Row {
        words: "encode dir=ul ts1=d72",
        input: "51 15*00 01 70*00",
        output: "",
        end: "3 0 input: slot 0: pad bit",
    },
    Row {
        words: "encode dir=ul ts1=d72",
        input: "51 86*00",
        output: "34*00 81 81 7F 7F half p half 81 81 7F 7F 14*00",
        end: "0 1 ",
    },
    Row {
        words: "encode dir=ul ts1=d72 at=68",
        input: "46 34*00",
        output: "full",
        end: "0 1 ",
    },
    Row {
        words: "encode dir=ul ts1=d72 at=68",
        input: "54 54*00",
        output: "",
        end: "3 0 input: slot 0: wrong kind",
    },
    Row {
        words: "encode dir=ul max=2",
        input: "46 34*00 46 34*00 46 34*00",
        output: "full full",
        end: "6 2 too long: 2 slots",
    },
    Row {
        words: "encode dir=ul",
        input: "46 34*00 46 33*00 01",
        output: "full",
        end: "3 1 input: slot 1: pad bit",
    },
    Row {
        words: "encode dir=ul ts1=d72 at=64",
        input: "54 54*00 46 34*00 46 34*00 46 34*00 46 34*00 46 34*00 46 34*00 46 34*00 54 54*00",
        output: "data full full full full full full full data",
        end: "0 9 ",
    },
    Row {
        words: "encode dir=ul ts1=cb",
        input: "43 00",
        output: "510*00",
        end: "0 1 ",
    },
    Row {
        words: "encode at=68 ts1=d72",
        input: "54 00 00 54*00",
        output: "",
        end: "3 0 input: slot 0: wrong kind",
    },
    Row {
        words: "encode at=68 ts1=d72",
        input: "5A",
        output: "",
        end: "3 0 input: slot 0: unknown kind",
    },
    Row {
        words: "encode dir=ul",
        input: "",
        output: "",
        end: "0 0 ",
    },
    Row {
        words: "encode",
        input: "",
        output: "",
        end: "0 0 ",
    },
];

const DECODED: [Row; 19] = [
    Row {
        words: "decode dir=ul",
        input: "full",
        output: "46 47 00 00 33*00 parity",
        end: "0 1 ",
    },
    Row {
        words: "decode dir=ul",
        input: "full ~39",
        output: "46 47 00 7F 33*00 parity",
        end: "0 1 ",
    },
    Row {
        words: "decode dir=ul ts1=d72",
        input: "data",
        output: "54 55 00 00 54*00",
        end: "0 1 ",
    },
    Row {
        words: "decode dir=ul ts1=d72",
        input: "510*00",
        output: "54 55 00 00 54*00",
        end: "0 1 ",
    },
    Row {
        words: "decode dir=ul ts1=d72",
        input: "34*00 81 81 7F 7F key1 p key2 81 81 7F 7F 14*00",
        output: "50 42 00 00 18*00 21*.. 55 00 00 54*00",
        end: "0 1 ",
    },
    Row {
        words: "decode dir=ul ts1=d48n4",
        input: "254*00 p 234*00",
        output: "50 42 00 00 18*00 42 00 00 18*00 4E 00 00 36*00",
        end: "0 1 ",
    },
    Row {
        words: "decode dir=ul ts1=speech form=audit",
        input: "254*00 p 234*00",
        output: "254*00 p 234*00 50 42 00 00 18*00 4640*00 42 00 00 18*00 4640*00 47 00 00 18*00 3040*00",
        end: "0 1 ",
    },
    Row {
        words: "decode dir=ul ts1=d72",
        input: "509*00",
        output: "",
        end: "3 0 input: slot 0: truncated",
    },
    Row {
        words: "decode dir=ul ts1=d72",
        input: "data data",
        output: "54 55 00 00 54*00 46 42 00 00 36*00",
        end: "0 2 ",
    },
    Row {
        words: "decode dir=ul form=audit",
        input: "510*00",
        output: "510*00 46 42 00 00 36*00 9248*00",
        end: "0 1 ",
    },
    Row {
        words: "decode dir=ul form=audit ts1=d72",
        input: "data",
        output: "data 54 55 00 00 54*00",
        end: "0 1 ",
    },
    Row {
        words: "decode dir=ul form=audit ts1=d72",
        input: "80 509*00",
        output: "80 509*00 54 55 00 00 54*00",
        end: "0 1 ",
    },
    Row {
        words: "decode dir=ul max=1",
        input: "full full",
        output: "46 47 00 00 33*00 parity",
        end: "6 1 too long: 1 slots",
    },
    Row {
        words: "decode",
        input: "509*00",
        output: "",
        end: "3 0 input: slot 0: truncated",
    },
    Row {
        words: "decode",
        input: "510*00",
        output: "46 55 00 00 00 00 42 00 00 36*00",
        end: "0 1 ",
    },
    Row {
        words: "decode form=audit",
        input: "510*00",
        output: "510*00 46 55 00 00 00 00 42 00 00 36*00 9248*00",
        end: "0 1 ",
    },
    Row {
        words: "decode dir=ul ts1=cb",
        input: "510*00",
        output: "43 42 00 00 14*00 42 00 00 14*00",
        end: "0 1 ",
    },
    Row {
        words: "decode dir=ul",
        input: "",
        output: "",
        end: "0 0 ",
    },
    Row {
        words: "decode",
        input: "",
        output: "",
        end: "0 0 ",
    },
];

const AUDITED: [Row; 36] = [
    Row {
        words: "audit dir=ul",
        input: "510*00 46 42 00 00 36*00 9248*00",
        output: "'0_ok",
        end: "0 1 ",
    },
    Row {
        words: "audit dir=ul",
        input: "510*00 46 42 00 00 36*00 167*00 01 9080*00",
        output: "'0_refused_field_0_step_5_state_3_edge_0",
        end: "1 1 refused: first slot 0, count 1",
    },
    Row {
        words: "audit dir=ul",
        input: "510*00 46 42 00 00 80 35*00 9248*00",
        output: "'0_refused_field_0_step_0_state_0_tie",
        end: "1 1 refused: first slot 0, count 1",
    },
    Row {
        words: "audit dir=ul",
        input: "510*00 46 47 00 00 36*00 9248*00",
        output: "'0_refused_field_0_mark",
        end: "1 1 refused: first slot 0, count 1",
    },
    Row {
        words: "audit dir=ul",
        input: "510*00 54 42 00 00 36*00 9248*00",
        output: "'0_refused_kind",
        end: "1 1 refused: first slot 0, count 1",
    },
    Row {
        words: "audit dir=ul",
        input: "510*00 46 42 00 00 36*00 9247*00",
        output: "",
        end: "3 0 input: slot 0: truncated",
    },
    Row {
        words: "audit dir=ul",
        input: "510*00 46 42 00 00 36*00 33*00 01 9214*00",
        output: "'0_refused_field_0_step_0_state_0_path",
        end: "1 1 refused: first slot 0, count 1",
    },
    Row {
        words: "audit dir=ul",
        input: "510*00 46 42 00 00 36*00 9248*FF",
        output: "'0_refused_field_0_step_288_state_0_end",
        end: "1 1 refused: first slot 0, count 1",
    },
    Row {
        words: "audit dir=ul ts1=d72",
        input: "data 54 55 00 00 54*00",
        output: "'0_ok",
        end: "0 1 ",
    },
    Row {
        words: "audit dir=ul ts1=d72",
        input: "data 54 47 00 01 53*00 01",
        output: "'0_refused_field_0_bits",
        end: "1 1 refused: first slot 0, count 1",
    },
    Row {
        words: "audit dir=ul ts1=d72",
        input: "data 54 47 00 01 54*00",
        output: "'0_refused_field_0_metric",
        end: "1 1 refused: first slot 0, count 1",
    },
    Row {
        words: "audit dir=ul ts1=d72",
        input: "data 54 47 00 00 54*00",
        output: "'0_refused_field_0_mark",
        end: "1 1 refused: first slot 0, count 1",
    },
    Row {
        words: "audit dir=ul ts1=d72",
        input: "data 54 55 00 00 54*00 510*00 48 42 00 00 36*00 9248*00",
        output: "'0_ok '1_refused_kind",
        end: "1 2 refused: first slot 1, count 1",
    },
    Row {
        words: "audit dir=ul ts1=d72 max=1",
        input: "data 54 55 00 00 54*00 00",
        output: "'0_ok",
        end: "6 1 too long: 1 slots",
    },
    Row {
        words: "audit",
        input: "510*00 46 55 00 00 00 00 42 00 00 36*00 9248*00",
        output: "'0_ok",
        end: "0 1 ",
    },
    Row {
        words: "audit",
        input: "510*00 46 55 00 00 00 00 42 00 00 36*00 167*00 01 9080*00",
        output: "'0_refused_field_1_step_5_state_3_edge_0",
        end: "1 1 refused: first slot 0, count 1",
    },
    Row {
        words: "audit",
        input: "510*00 46 55 00 00 00 00 42 00 00 80 35*00 9248*00",
        output: "'0_refused_field_1_step_0_state_0_tie",
        end: "1 1 refused: first slot 0, count 1",
    },
    Row {
        words: "audit",
        input: "510*00 46 55 00 00 00 00 47 00 00 36*00 9248*00",
        output: "'0_refused_field_1_mark",
        end: "1 1 refused: first slot 0, count 1",
    },
    Row {
        words: "audit",
        input: "510*00 46 55 00 00 00 00 42 00 01 36*00 9248*00",
        output: "'0_refused_field_1_metric",
        end: "1 1 refused: first slot 0, count 1",
    },
    Row {
        words: "audit",
        input: "510*00 46 55 00 00 00 00 42 00 00 35*00 01 9248*00",
        output: "'0_refused_field_1_pad",
        end: "1 1 refused: first slot 0, count 1",
    },
    Row {
        words: "audit",
        input: "510*00 48 55 00 00 00 00 42 00 00 36*00 9248*00",
        output: "'0_refused_kind",
        end: "1 1 refused: first slot 0, count 1",
    },
    Row {
        words: "audit",
        input: "510*00 46 55 01 00 00 00 42 00 00 36*00 9248*00",
        output: "'0_refused_field_0_metric",
        end: "1 1 refused: first slot 0, count 1",
    },
    Row {
        words: "audit",
        input: "510*00 46 55 00 00 00 04 42 00 00 36*00 9248*00",
        output: "'0_refused_field_0_bits",
        end: "1 1 refused: first slot 0, count 1",
    },
    Row {
        words: "audit",
        input: "510*00 46 55 00 00 00 00 42 00 00 36*00 9248*FF",
        output: "'0_refused_field_1_step_288_state_0_end",
        end: "1 1 refused: first slot 0, count 1",
    },
    Row {
        words: "audit",
        input: "510*00 48 55 00 00 00 00 42 00 00 36*00 9248*00 \
            510*00 46 55 00 00 00 00 42 00 00 36*00 9248*00",
        output: "'0_refused_kind '1_ok",
        end: "1 2 refused: first slot 0, count 1",
    },
    Row {
        words: "audit",
        input: "510*00 48 55 00 00 00 00 42 00 00 36*00 9247*00",
        output: "",
        end: "3 0 input: slot 0: truncated",
    },
    Row {
        words: "audit",
        input: "7F 509*00 46 55 00 00 00 00 42 00 00 36*00 9248*00",
        output: "'0_ok",
        end: "0 1 ",
    },
    Row {
        words: "audit dir=ul ts1=d72",
        input: "34*00 81 81 7F 7F key1 p key2 81 81 7F 7F 14*00 54 55 00 00 54*00",
        output: "",
        end: "3 0 input: slot 0: truncated",
    },
    Row {
        words: "audit dir=ul ts1=d72",
        input: "34*00 81 81 7F 7F key1 p key2 81 81 7F 7F 14*00 54 9379*00",
        output: "'0_refused_kind",
        end: "1 1 refused: first slot 0, count 1",
    },
    Row {
        words: "audit dir=ul ts1=d72",
        input: "254*00 p 234*00 50 42 00 00 18*00 4640*00 42 00 00 18*00 4640*00 55 00 00 54*00",
        output: "'0_ok",
        end: "0 1 ",
    },
    Row {
        words: "audit dir=ul ts1=d72",
        input: "254*00 p 234*00 50 42 00 00 18*00 4640*00 47 00 00 18*00 4640*00 55 00 00 54*00",
        output: "'0_refused_field_1_mark",
        end: "1 1 refused: first slot 0, count 1",
    },
    Row {
        words: "audit dir=ul ts1=speech",
        input: "254*00 p 234*00 50 42 00 00 18*00 4640*00 42 00 00 18*00 4640*00 47 00 00 18*00 3040*00",
        output: "'0_ok",
        end: "0 1 ",
    },
    Row {
        words: "audit dir=ul ts1=speech",
        input: "254*00 p 234*00 50 42 00 00 18*00 4640*00 42 00 00 18*00 4640*00 47 00 00 00 00 00 00 20 13*00 3040*00",
        output: "'0_refused_field_2_bits",
        end: "1 1 refused: first slot 0, count 1",
    },
    Row {
        words: "audit dir=ul ts1=d72 ts2=d72 ts3=d72",
        input: "data 54 55 00 00 54*00 data 54 47 00 00 54*00 data 46 55 00 00 54*00",
        output: "'0_ok '1_refused_field_0_mark '2_refused_kind",
        end: "1 3 refused: first slot 1, count 2",
    },
    Row {
        words: "audit dir=ul",
        input: "",
        output: "",
        end: "0 0 ",
    },
    Row {
        words: "audit",
        input: "",
        output: "",
        end: "0 0 ",
    },
];

#[test]
fn encoding(rt: HostRuntime) -> Result<(), Fail> {
    for row in &ENCODED {
        holds(&rt, row, usize::MAX)?;
    }
    Ok(())
}

#[test]
fn decoding(rt: HostRuntime) -> Result<(), Fail> {
    for row in &DECODED {
        holds(&rt, row, 1)?;
        holds(&rt, row, 7)?;
        holds(&rt, row, 509)?;
        holds(&rt, row, 510)?;
        holds(&rt, row, 511)?;
    }
    Ok(())
}

#[test]
fn auditing(rt: HostRuntime) -> Result<(), Fail> {
    for row in &AUDITED {
        holds(&rt, row, 509)?;
        holds(&rt, row, 511)?;
    }
    Ok(())
}

/// Asserts the first bits that are sent for zeros.
fn begins(rt: &(impl Abort + AllocGlobal), words: &str, front: &str) -> Result<(), Fail> {
    let input = bytes(rt.alloc(), "54 54*00")?;
    let front = bytes(rt.alloc(), front)?;
    let ran = run_over(rt.alloc(), words, &input, SURE, 510)?;
    let sent = ran.output.get(38..).unwrap_or(&[]);
    assert!(rt; sent.starts_with(&front), "{words}");
    Ok(())
}

#[test]
fn first_bits_under_three_keys(rt: HostRuntime) -> Result<(), Fail> {
    begins(&rt, "encode dir=ul ts1=d72", "81 7F 81")?;
    begins(&rt, "encode dir=ul ts1=d72 mcc=512", "7F")?;
    begins(&rt, "encode dir=ul ts1=d72 cc=1", "81 7F 7F")
}
