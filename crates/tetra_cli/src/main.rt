//! The program: hands its words, standard input and standard output to a run.
//!
//! It says on standard error why the run ended, and ends with the number that belongs to that end, with 7 where there
//! is no memory for the words, and with 9 where the system does not give them for another cause.
#![tactic(auto)]

mod ending;
mod no_words;

use ending::{Ending, conclude};
use no_words::NoWords;
use std::env;
use std::env::Env;
use std::process::ExitCode;
use tetra_engine::run;
use tetra_io::{ReadAhead, StdSink, StdSource};

/// The words behind the program's name.
fn collect<R: AllocGlobal + Env>(rt: &R) -> Result<Vec<String>, NoWords> {
    let given = env::args(rt).map_err(|error| no_words::cause(error.kind()))?;
    given
        .skip(1)
        .collect(rt.alloc())
        .map_err(|_| NoWords::Memory)
}

fn main(rt: HostRuntime) -> ExitCode {
    let ending = match collect(&rt) {
        Ok(words) => {
            let mut src = ReadAhead::new(StdSource::new(rt.stdin()));
            let mut sink = StdSink::new(rt.stdout());
            Ending::Ran(run(&words, &mut src, &mut sink))
        }
        Err(cause) => Ending::NoWords(cause),
    };
    let mut errors = StdSink::new(rt.stderr());
    ExitCode::from(conclude(&mut errors, &ending))
}
