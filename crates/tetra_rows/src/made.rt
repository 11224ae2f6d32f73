// Runs that read nothing: lengths of what `gen` writes, and summaries of `trial` that were worked out by hand.
use crate::runs::{Ends, SURE, ended, ran_to, run_over, wrote};
use std::process::Abort;
use std::test::Fail;

#[test]
fn records_of_a_number(rt: HostRuntime) -> Result<(), Fail> {
    let words = "gen dir=ul slots=3";
    let made = ran_to(&rt, words, &[], 200, "0 3 ")?;
    wrote(&rt, &made, "46 34*.. 46 34*.. 46 34*..", words, "nothing")?;
    let sent = ran_to(&rt, "encode dir=ul", &made.output, 2_000, "0 3 ")?;
    assert_eq!(rt; sent.output.len(), 1_530);
    Ok(())
}

/// Asserts that `gen` for three slots, where this write fails, wrote so many of the bytes, and how it ended.
fn stands(
    rt: &(impl Abort + AllocGlobal),
    made: &[u8],
    write_fails: u64,
    taken: usize,
    end: &str,
) -> Result<(), Fail> {
    let ends = Ends {
        write_fails,
        ..SURE
    };
    let words = "gen slots=3";
    let ran = run_over(rt.alloc(), words, &[], ends, 200)?;
    ended(rt, &ran, end, words, "nothing");
    let is_front = Some(ran.output.as_slice()) == made.get(..taken);
    assert!(rt; is_front, "call {write_fails}");
    Ok(())
}

/// Asserts the same for each write, where the first record has so many bytes.
fn each_stands(rt: &(impl Abort + AllocGlobal), made: &[u8], first: usize) -> Result<(), Fail> {
    stands(rt, made, 1, 0, "5 0 write failed after 0 slots")?;
    stands(rt, made, 2, first, "5 1 write failed after 1 slots")?;
    stands(rt, made, 4, made.len(), "5 3 write failed after 3 slots")?;
    stands(rt, made, 5, made.len(), "0 3 ")
}

#[test]
fn records_before_a_failed_write(rt: HostRuntime) -> Result<(), Fail> {
    let made = run_over(rt.alloc(), "gen slots=3", &[], SURE, 200)?.output;
    let first = run_over(rt.alloc(), "gen slots=1", &[], SURE, 200)?.output;
    assert!(rt; made.starts_with(&first) && !first.is_empty());
    each_stands(&rt, &made, first.len())
}

/// Asserts the summary of a trial, and how it ended.
fn is_summed_up(
    rt: &(impl Abort + AllocGlobal),
    words: &str,
    summary: &str,
    end: &str,
) -> Result<(), Fail> {
    let ran = ran_to(rt, words, &[], 400, end)?;
    wrote(rt, &ran, summary, words, "nothing")
}

#[test]
fn summaries_of_what_came_undamaged(rt: HostRuntime) -> Result<(), Fail> {
    is_summed_up(
        &rt,
        "trial dir=ul slots=4",
        "'slots_4 'kinds_4 'good_4 'bad_0 'unchecked_0 'notyet_0 'equal_4 'differ_0 'other_0 'metric_0",
        "0 4 ",
    )?;
    is_summed_up(
        &rt,
        "trial dir=ul slots=10000",
        "'slots_10000 'kinds_10000 'good_10000 'bad_0 'unchecked_0 'notyet_0 'equal_10000 'differ_0 'other_0 \
            'metric_0",
        "0 10000 ",
    )
}

/// The number behind a word in a summary; the greatest where there is none.
fn number_of(summary: &str, word: &str) -> u64 {
    for line in summary.lines() {
        if let Some((name, number)) = line.split_once(' ') {
            if name == word {
                return number.parse::<u64>().unwrap_or(u64::MAX);
            }
        }
    }
    u64::MAX
}

/// The summary of a trial of 1,000 slots, which ends well.
fn summary_of(rt: &(impl Abort + AllocGlobal), words: &str) -> Result<Vec<u8>, Fail> {
    Ok(ran_to(rt, words, &[], 400, "0 1000 ")?.output)
}

/// Asserts the number behind a word in a summary.
fn counts(rt: &impl Abort, summary: &str, word: &str, number: u64) {
    assert_eq!(rt; number_of(summary, word), number, "{word}");
}

/// Asserts that the numbers behind two words in a summary have the sum 1,000.
fn share(rt: &impl Abort, summary: &str, one: &str, other: &str) {
    let sum = number_of(summary, one).saturating_add(number_of(summary, other));
    assert!(rt; sum == 1_000, "{one} and {other}");
}

#[test]
fn summary_of_one_turned_sign_in_each_slot(rt: HostRuntime) -> Result<(), Fail> {
    let words = "trial dir=ul slots=1000 damage=1";
    let first = summary_of(&rt, words)?;
    assert!(rt; first.as_slice() == summary_of(&rt, words)?.as_slice());
    is_of_turned_signs(&rt, str::from_utf8(&first)?);
    Ok(())
}

/// Asserts what is known of the summary.
fn is_of_turned_signs(rt: &impl Abort, text: &str) {
    counts(rt, text, "slots", 1_000);
    counts(rt, text, "kinds", 1_000);
    counts(rt, text, "unchecked", 0);
    counts(rt, text, "notyet", 0);
    counts(rt, text, "other", 0);
    share(rt, text, "good", "bad");
    share(rt, text, "equal", "differ");
    let metric = number_of(text, "metric");
    assert!(rt; metric % 127 == 0 && metric <= 127_000 && metric > 0);
}
