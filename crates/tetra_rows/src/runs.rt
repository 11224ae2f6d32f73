// Runs over sources and sinks in memory.
use crate::bytes::{bytes, is_written};
use std::alloc::{AllocError, Global};
use std::process::Abort;
use std::test::Fail;
use tetra_engine::{End, exit_code, line, run};
use tetra_io::{MemSink, MemSource};

/// A run: its words, its input and its output in the notation of `bytes`, and the exit code, the slots and the line of
/// its end.
#[derive(Clone, Copy)]
pub struct Row {
    pub words: &'static str,
    pub input: &'static str,
    pub output: &'static str,
    pub end: &'static str,
}

/// How source and sink behave: the greatest piece of each, and the number of a call that fails, or 0.
#[derive(Clone, Copy)]
pub struct Ends {
    pub read_piece: usize,
    pub read_fails: u64,
    pub write_piece: usize,
    pub write_fails: u64,
}

/// Ends that move whole pieces and never fail.
pub const SURE: Ends = Ends {
    read_piece: usize::MAX,
    read_fails: 0,
    write_piece: usize::MAX,
    write_fails: 0,
};

/// What a run wrote, and its end as `3 0 input: slot 0: truncated`.
#[derive(Drop)]
pub struct Outcome {
    pub output: Vec<u8>,
    pub end: String,
}

/// A run over ends in memory, the sink with room for so many bytes.
pub fn run_over(
    alloc: Global,
    words: &str,
    input: &[u8],
    ends: Ends,
    room: usize,
) -> Result<Outcome, Fail> {
    let all = words_of(alloc, words)?;
    let mut room = vec![in alloc; 0; room]?;
    let (read_pieces, write_pieces) = ([ends.read_piece], [ends.write_piece]);
    let (read_fails, write_fails) = ([ends.read_fails], [ends.write_fails]);
    let mut src = MemSource::new(input, &read_pieces, &read_fails);
    let mut sink = MemSink::new(&mut room, &write_pieces, &write_fails);
    let end = run(&all, &mut src, &mut sink);
    Ok(Outcome {
        output: sink.taken().to_vec(alloc)?,
        end: text_of(alloc, &end)?,
    })
}

fn words_of(alloc: Global, words: &str) -> Result<Vec<String>, AllocError> {
    let mut all = Vec::new(alloc);
    for word in words.split_whitespace() {
        all.push(String::from_str(alloc, word)?)?;
    }
    Ok(all)
}

fn text_of(alloc: Global, end: &End) -> Result<String, AllocError> {
    let line = line(end);
    format!(in alloc; "{} {} {}", exit_code(end), end.slots, line.as_str())
}

/// Asserts how a run ended. Its words and its input name it.
pub fn ended(rt: &impl Abort, ran: &Outcome, end: &str, words: &str, input: &str) {
    assert_eq!(rt; ran.end.as_str(), end, "{words} of {input}");
}

/// A run that moves whole pieces; asserts how it ended. Its words name it.
pub fn ran_to(
    rt: &(impl Abort + AllocGlobal),
    words: &str,
    input: &[u8],
    room: usize,
    end: &str,
) -> Result<Outcome, Fail> {
    let ran = run_over(rt.alloc(), words, input, SURE, room)?;
    ended(rt, &ran, end, words, "made bytes");
    Ok(ran)
}

/// Asserts what a run wrote, in the notation of `bytes`. Its words and its input name it.
pub fn wrote(
    rt: &(impl Abort + AllocGlobal),
    ran: &Outcome,
    output: &str,
    words: &str,
    input: &str,
) -> Result<(), Fail> {
    let is_written = is_written(rt.alloc(), output, &ran.output)?;
    assert!(rt; is_written, "output of {words} of {input}");
    Ok(())
}

/// Asserts that a row holds where the source gives pieces of this size.
pub fn holds(rt: &(impl Abort + AllocGlobal), row: &Row, read_piece: usize) -> Result<(), Fail> {
    let input = bytes(rt.alloc(), row.input)?;
    let ends = Ends { read_piece, ..SURE };
    let ran = run_over(rt.alloc(), row.words, &input, ends, 20_000)?;
    ended(rt, &ran, row.end, row.words, row.input);
    wrote(rt, &ran, row.output, row.words, row.input)
}
