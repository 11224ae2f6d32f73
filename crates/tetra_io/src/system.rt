// The edge to std's readers and writers, which is trusted.
ghost use Rattle.std.specs.Prelude.{◌≡◌, length, false};
ghost use Rattle.std.specs.Io.{ReadsAtMost, WritesAtMost};
ghost use Rattle.tetra_io.specs.Streams.{HasCause, Reads, Writes, KeepsOrHides, ends_by_read, settled_by_write, settled_by_flush, count_behind};
ghost use Rattle.tetra_io.specs.System.{told_until};

use crate::calls::next;
use crate::streams::{Sink, SinkFault, Source, SourceFault};
use std::io::{Read, Write};
use std::marker::Model;

/// A source over a reader of std. It tells what the reader tells, and nothing once a read has failed.
///
/// Part of the trusted edge: that std's own call failed where a fault is counted is shown by a test.
#[derive(Drop)]
pub struct StdSource<R> {
    reader: R,
    faults: u64,
    ends: u64,
}

impl<R> Model for StdSource<R> {
    ghost use Rattle.tetra_io.specs.System.{StdSourceState};

    ghost Value = { StdSourceState R };

    ghost view = { λ s. record { reader = s.reader; faults = s.faults; ends = s.ends } };
}

impl<R: Read> StdSource<R> {
    /// A source over this reader, before its first call.
    pub fn new(reader: R) -> StdSource<R>
        ensures { result ≡ record { reader = reader; faults = 0; ends = 0 } }
    {
        StdSource {
            reader,
            faults: 0,
            ends: 0,
        }
    }
}

impl<R: Read> Source for StdSource<R> {
    ghost rest = { λ s. told_until s.faults (R.remaining s.reader) };

    ghost faults = { λ s. s.faults };

    ghost ends = { λ s. s.ends };

    /// One read of the reader, where an `Err` is counted, and an `Ok(0)` for a buffer that is not empty.
    fn read(&mut self, buf: &mut [u8]) -> Result<usize, SourceFault>
        ensures bound { ReadsAtMost result buf.new }
        ensures bytes { Reads (told_until self.old.faults (R.remaining self.old.reader))
            (told_until self.new.faults (R.remaining self.new.reader)) result buf.new }
        ensures cause { HasCause self.old.faults self.new.faults result }
        ensures ended { self.new.ends ≡ ends_by_read result (length buf.new) self.old.ends }
        // The count rises at each `Err`, and at nothing else.
        ensures counted { self.new.faults ≡ count_behind result self.old.faults }
    {
        match self.reader.read(buf) {
            Ok(count) => {
                if count == 0 && !buf.is_empty() {
                    self.ends = next(self.ends);
                }
                Ok(count)
            }
            Err(_) => {
                self.faults = next(self.faults);
                Err(SourceFault)
            }
        }
    }
}

/// A sink over a writer of std. It tells what the writer tells, and nothing once a call has failed.
///
/// A write that takes nothing of a piece that is not empty is a fault. Part of the trusted edge: that
/// std's own call failed, or took nothing, where a fault is counted is shown by a test.
#[derive(Drop)]
pub struct StdSink<W> {
    writer: W,
    faults: u64,
    settled: bool,
}

impl<W> Model for StdSink<W> {
    ghost use Rattle.tetra_io.specs.System.{StdSinkState};

    ghost Value = { StdSinkState W };

    ghost view = { λ s. record { writer = s.writer; faults = s.faults; settled = s.settled } };
}

impl<W: Write> StdSink<W> {
    /// A sink over this writer, before its first call. It is not settled.
    pub fn new(writer: W) -> StdSink<W>
        ensures { result ≡ record { writer = writer; faults = 0; settled = false } }
    {
        StdSink {
            writer,
            faults: 0,
            settled: false,
        }
    }
}

impl<W: Write> Sink for StdSink<W> {
    ghost taken = { λ s. told_until s.faults (W.contents s.writer) };

    ghost faults = { λ s. s.faults };

    ghost settled = { λ s. s.settled };

    /// One write of the writer, where an `Err` is counted, and an `Ok(0)` of a piece that is not empty.
    fn write(&mut self, bytes: &[u8]) -> Result<usize, SinkFault>
        ensures bound { WritesAtMost result bytes.now }
        ensures taken { Writes (told_until self.old.faults (W.contents self.old.writer))
            (told_until self.new.faults (W.contents self.new.writer)) result bytes.now }
        ensures cause { HasCause self.old.faults self.new.faults result }
        ensures settled { self.new.settled ≡ settled_by_write result self.old.settled }
        // The count rises at each `Err`, and at nothing else.
        ensures counted { self.new.faults ≡ count_behind result self.old.faults }
    {
        match self.writer.write(bytes) {
            Ok(count) if count > 0 || bytes.is_empty() => {
                if count > 0 {
                    self.settled = false;
                }
                Ok(count)
            }
            _ => {
                self.faults = next(self.faults);
                Err(SinkFault)
            }
        }
    }

    /// One flush of the writer, where an `Err` is counted.
    fn flush(&mut self) -> Result<(), SinkFault>
        ensures taken { KeepsOrHides (told_until self.old.faults (W.contents self.old.writer))
            (told_until self.new.faults (W.contents self.new.writer)) }
        ensures cause { HasCause self.old.faults self.new.faults result }
        ensures settled { self.new.settled ≡ settled_by_flush result self.old.settled }
        // The count rises at each `Err`, and at nothing else.
        ensures counted { self.new.faults ≡ count_behind result self.old.faults }
    {
        match self.writer.flush() {
            Ok(()) => {
                self.settled = true;
                Ok(())
            }
            Err(_) => {
                self.faults = next(self.faults);
                Err(SinkFault)
            }
        }
    }
}

#[cfg(test)]
mod tests;
