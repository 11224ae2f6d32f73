// A run over bytes in memory, which meets no fault.
ghost use Rattle.std.specs.Prelude.{◌≡◌, ◌≢◌, Some, None};
ghost use Rattle.tetra_settings.specs.Words.{texts, meaning};
ghost use Rattle.tetra_engine.specs.Running.{RunsOver};

use crate::engine::run;
use crate::status::{End, Status};
use tetra_io::{SureSink, SureSource};

/// The end of a run over bytes in memory, whose output is dropped: it is never `Read` or `Write`.
pub fn rehearse(words: &[String], bytes: &[u8]) -> End
    ensures no_read { result.status ≢ Status.Read }
    ensures no_write { result.status ≢ Status.Write }
    ensures ends { RunsOver (meaning (texts words.now)) bytes.now result }
{
    let mut src = SureSource::new(bytes);
    let mut sink = SureSink::new();
    run(words, &mut src, &mut sink)
}
