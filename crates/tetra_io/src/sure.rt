// A source and a sink that never fail.
ghost use Rattle.std.specs.Prelude.{◌≡◌, length, min, Some, None, IsOk, IfOk, false, true};
ghost use Rattle.std.specs.Io.{ReadsAtMost, WritesAtMost};
ghost use Rattle.tetra_io.specs.Streams.{HasCause, Reads, Writes, KeepsOrHides, ends_by_read, settled_by_write, settled_by_flush};
ghost use Rattle.tetra_io.specs.Sure.{count_with};

use crate::calls::next;
use crate::streams::{Sink, SinkFault, Source, SourceFault};
use std::marker::Model;

/// A source over bytes in memory that never fails. It always tells its rest, and its count of faults
/// is always 0.
#[derive(Drop)]
pub struct SureSource<'a> {
    rest: &'a [u8],
    ends: u64,
}

impl<'a> Model for SureSource<'a> {
    ghost use Rattle.tetra_io.specs.Sure.{SureSourceState};

    ghost Value = { SureSourceState };

    ghost view = { λ s. record { rest = s.rest.now; ends = s.ends } };
}

impl<'a> SureSource<'a> {
    /// A source of these bytes, before its first call.
    pub fn new(bytes: &'a [u8]) -> SureSource<'a>
        ensures { result ≡ record { rest = bytes.now; ends = 0 } }
    {
        SureSource {
            rest: bytes,
            ends: 0,
        }
    }
}

impl Source for SureSource<'_> {
    ghost rest = { λ s. Some s.rest };

    ghost faults = { λ _. 0 };

    ghost ends = { λ s. s.ends };

    /// Gives as many bytes as there are, up to the buffer's length.
    fn read(&mut self, buf: &mut [u8]) -> Result<usize, SourceFault>
        ensures bound { ReadsAtMost result buf.new }
        ensures bytes { Reads (Some self.old.rest) (Some self.new.rest) result buf.new }
        ensures cause { HasCause 0 0 result }
        ensures ended { self.new.ends ≡ ends_by_read result (length buf.new) self.old.ends }
        ensures sure { IsOk result }
        ensures amount { IfOk result (λ n. n ≡ min (length buf.new) (length self.old.rest)) }
    {
        let n = buf.len().min(self.rest.len());
        let (front, back) = self.rest.split_at(n);
        buf[..n].copy_from_slice(front);
        self.rest = back;
        if n == 0 && !buf.is_empty() {
            self.ends = next(self.ends);
        }
        Ok(n)
    }
}

/// A sink that never fails and keeps the number of the bytes alone. It tells no bytes, and its count of
/// faults is always 0.
#[derive(Drop)]
pub struct SureSink {
    count: u64,
    settled: bool,
}

impl Model for SureSink {
    ghost use Rattle.tetra_io.specs.Sure.{SureSinkState};

    ghost Value = { SureSinkState };

    ghost view = { λ s. record { count = s.count; settled = s.settled } };
}

impl SureSink {
    /// A sink that took nothing yet. It is not settled.
    pub fn new() -> SureSink
        ensures { result ≡ record { count = 0; settled = false } }
    {
        SureSink {
            count: 0,
            settled: false,
        }
    }

    /// How many bytes were taken so far, which stays at 2^64 - 1 once it is there.
    pub fn count(&self) -> u64
        ensures { result ≡ self.now.count }
    {
        self.count
    }
}

impl Sink for SureSink {
    ghost taken = { λ _. None };

    ghost faults = { λ _. 0 };

    ghost settled = { λ s. s.settled };

    /// Takes the whole piece.
    fn write(&mut self, bytes: &[u8]) -> Result<usize, SinkFault>
        ensures bound { WritesAtMost result bytes.now }
        ensures taken { Writes None None result bytes.now }
        ensures cause { HasCause 0 0 result }
        ensures settled { self.new.settled ≡ settled_by_write result self.old.settled }
        ensures sure { IsOk result }
        ensures count { self.new.count ≡ count_with self.old.count (length bytes.now) }
        ensures amount { IfOk result (λ n. n ≡ length bytes.now) }
    {
        self.count = self.count.saturating_add(bytes.len() as u64);
        if !bytes.is_empty() {
            self.settled = false;
        }
        Ok(bytes.len())
    }

    /// Settles the sink.
    fn flush(&mut self) -> Result<(), SinkFault>
        ensures taken { KeepsOrHides None None }
        ensures cause { HasCause 0 0 result }
        ensures settled { self.new.settled ≡ settled_by_flush result self.old.settled }
        ensures sure { IsOk result }
        ensures count { self.new.count ≡ self.old.count }
    {
        self.settled = true;
        Ok(())
    }
}
