// Words that end a run before it begins: that the keys, the values, the texts and the exit codes are the ones that are
// written down. Each first call of the source and of the sink would fail.
use crate::runs::{Ends, SURE, ended, run_over};
use std::process::Abort;
use std::test::Fail;

const ENDS: [(&str, &str); 33] = [
    ("", "2 0 word 0: no command"),
    ("code", "2 0 word 0: unknown command"),
    ("Encode", "2 0 word 0: unknown command"),
    ("=", "2 0 word 0: unknown command"),
    ("encode x", "2 0 word 1: not a pair"),
    ("encode x=1", "2 0 word 1: unknown key"),
    ("encode =1", "2 0 word 1: unknown key"),
    ("encode form=audit", "2 0 word 1: not for this command"),
    ("audit form=audit", "2 0 word 1: not for this command"),
    ("gen max=1", "2 0 word 1: not for this command"),
    ("encode cc=1 cc=1", "2 0 word 2: repeated"),
    ("encode cc=1 cc=x", "2 0 word 2: repeated"),
    ("encode cc=01", "2 0 word 1: not a number"),
    ("encode cc=", "2 0 word 1: not a number"),
    ("encode cc=+1", "2 0 word 1: not a number"),
    ("encode cc=-1", "2 0 word 1: not a number"),
    ("encode cc=1=1", "2 0 word 1: not a number"),
    ("encode mcc=1024", "2 0 word 1: out of range"),
    ("encode mnc=16384", "2 0 word 1: out of range"),
    ("encode cc=64", "2 0 word 1: out of range"),
    ("encode at=4320", "2 0 word 1: out of range"),
    ("encode max=0", "2 0 word 1: out of range"),
    ("encode max=16777217", "2 0 word 1: out of range"),
    (
        "encode cc=1234567890123456789012345678901234567890",
        "2 0 word 1: out of range",
    ),
    ("gen draw=18446744073709551616", "2 0 word 1: out of range"),
    ("gen slots=1000001", "2 0 word 1: out of range"),
    ("trial damage=511", "2 0 word 1: out of range"),
    ("decode form=full", "2 0 word 1: unknown value"),
    ("encode dir=ul=", "2 0 word 1: unknown value"),
    ("encode ts1=cb", "2 0 word 1: uplink only"),
    ("encode ts1=cb dir=dl", "2 0 word 1: uplink only"),
    ("encode ts2=sig ts1=cb ts3=cb", "2 0 word 2: uplink only"),
    ("encode ts1=cb cc=64", "2 0 word 2: out of range"),
];

/// Asserts that these words end a run so, and that nothing is written.
fn ends(rt: &(impl Abort + AllocGlobal), words: &str, end: &str) -> Result<(), Fail> {
    let ends = Ends {
        read_fails: 1,
        write_fails: 1,
        ..SURE
    };
    let ran = run_over(rt.alloc(), words, &[0x46], ends, 1)?;
    ended(rt, &ran, end, words, "46");
    assert!(rt; ran.output.is_empty(), "{words}");
    Ok(())
}

#[test]
fn words_that_end_a_run(rt: HostRuntime) -> Result<(), Fail> {
    for (words, end) in &ENDS {
        ends(&rt, words, end)?;
    }
    Ok(())
}
