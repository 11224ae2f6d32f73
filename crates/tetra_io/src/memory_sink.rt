// A sink over room in memory, which fails at the calls that a list names, and where the room is full.
ghost use Rattle.std.specs.Prelude.{◌≡◌, ◌↔◌, length, Some, IsErr, IfOk, Contains, [], false};
ghost use Rattle.std.specs.Io.{WritesAtMost};
ghost use Rattle.tetra_io.specs.Streams.{HasCause, Writes, KeepsOrHides, settled_by_write, settled_by_flush, next_count};
ghost use Rattle.tetra_io.specs.MemorySink.{write_len, after_write, after_flush, WriteFails};

use crate::calls::{bound, next};
use crate::streams::{Sink, SinkFault};
use std::marker::Model;

/// A sink over room in memory, which takes pieces of chosen sizes and fails at chosen calls.
///
/// Writes and flushes are counted together from 1, and the count stays at 2^64 - 1 once it is there. The
/// bound of a write is that of `MemSource`. A call fails exactly where `fail_at` has its number, or where
/// a piece that is not empty meets a full room. This sink always tells what it took.
#[derive(Drop)]
pub struct MemSink<'a> {
    room: &'a mut [u8],
    used: usize,
    pieces: &'a [usize],
    fail_at: &'a [u64],
    calls: u64,
    faults: u64,
    settled: bool,
}

impl<'a> Model for MemSink<'a> {
    ghost use Rattle.std.specs.Prelude.{take, length, ◌-◌, ◌≤◌};
    ghost use Rattle.tetra_io.specs.MemorySink.{MemSinkState};

    ghost Value = { MemSinkState };

    ghost view = { λ s. record {
      taken = take s.used s.room.now;
      room = length s.room.now - s.used;
      pieces = s.pieces.now;
      fail_at = s.fail_at.now;
      calls = s.calls;
      faults = s.faults;
      settled = s.settled;
    } };

    ghost invariant = { λ s. s.used ≤ length s.room.now };
}

impl<'a> MemSink<'a> {
    /// A sink with this room, before its first call. It is not settled.
    pub fn new(room: &'a mut [u8], pieces: &'a [usize], fail_at: &'a [u64]) -> MemSink<'a>
        ensures { result ≡ record {
          taken = [];
          room = length room.old;
          pieces = pieces.now;
          fail_at = fail_at.now;
          calls = 0;
          faults = 0;
          settled = false;
        } }
    {
        MemSink {
            room,
            used: 0,
            pieces,
            fail_at,
            calls: 0,
            faults: 0,
            settled: false,
        }
    }

    /// The bytes taken so far, in order.
    pub fn taken(&self) -> &[u8]
        ensures { result.now ≡ self.now.taken }
    {
        &self.room[..self.used]
    }
}

impl Sink for MemSink<'_> {
    ghost taken = { λ s. Some s.taken };

    ghost faults = { λ s. s.faults };

    ghost settled = { λ s. s.settled };

    /// Takes exactly the least of the call's bound, the piece's length and the room left.
    fn write(&mut self, bytes: &[u8]) -> Result<usize, SinkFault>
        ensures bound { WritesAtMost result bytes.now }
        ensures taken { Writes (Some self.old.taken) (Some self.new.taken) result bytes.now }
        ensures cause { HasCause self.old.faults self.new.faults result }
        ensures settled { self.new.settled ≡ settled_by_write result self.old.settled }
        // A write fails exactly where the list names its number, or a piece that is not empty meets a full room.
        ensures fails { IsErr result ↔ WriteFails self.old (length bytes.now) }
        ensures amount { IfOk result (λ n. n ≡ write_len self.old (length bytes.now)) }
        ensures state { self.new ≡ after_write self.old result bytes.now }
    {
        self.calls = next(self.calls);
        let room = self.room.len() - self.used;
        if self.fail_at.contains(&self.calls) || (room == 0 && !bytes.is_empty()) {
            self.faults = next(self.faults);
            return Err(SinkFault);
        }
        let n = bound(self.pieces, self.calls, bytes.len().min(room));
        self.room[self.used..self.used + n].copy_from_slice(&bytes[..n]);
        self.used += n;
        if n > 0 {
            self.settled = false;
        }
        Ok(n)
    }

    /// Keeps what was taken.
    fn flush(&mut self) -> Result<(), SinkFault>
        ensures taken { KeepsOrHides (Some self.old.taken) (Some self.new.taken) }
        ensures cause { HasCause self.old.faults self.new.faults result }
        ensures settled { self.new.settled ≡ settled_by_flush result self.old.settled }
        // A flush fails exactly where the list names its number.
        ensures fails { IsErr result ↔ Contains self.old.fail_at (next_count self.old.calls) }
        ensures state { self.new ≡ after_flush self.old result }
    {
        self.calls = next(self.calls);
        if self.fail_at.contains(&self.calls) {
            self.faults = next(self.faults);
            return Err(SinkFault);
        }
        self.settled = true;
        Ok(())
    }
}
