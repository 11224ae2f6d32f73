// A source over bytes in memory, which fails at the calls that a list names.
ghost use Rattle.std.specs.Prelude.{◌≡◌, ◌↔◌, length, Some, IsErr, IfOk, Contains};
ghost use Rattle.std.specs.Io.{ReadsAtMost};
ghost use Rattle.tetra_io.specs.Streams.{HasCause, Reads, next_count, ends_by_read};
ghost use Rattle.tetra_io.specs.MemorySource.{read_len, after_read};

use crate::calls::{bound, next};
use crate::streams::{Source, SourceFault};
use std::marker::Model;

/// A source over bytes in memory, which gives them in pieces of chosen sizes and fails at chosen calls.
///
/// Calls of `read` are counted from 1, and the count stays at 2^64 - 1 once it is there. Call i gives at
/// most `pieces[(i - 1) % pieces.len()]` bytes, where a piece of 0 counts as 1 and an empty list sets no
/// bound. A call fails exactly where `fail_at` has its number. This source always tells its rest.
#[derive(Drop)]
pub struct MemSource<'a> {
    rest: &'a [u8],
    pieces: &'a [usize],
    fail_at: &'a [u64],
    calls: u64,
    faults: u64,
    ends: u64,
}

impl<'a> Model for MemSource<'a> {
    ghost use Rattle.tetra_io.specs.MemorySource.{MemSourceState};

    ghost Value = { MemSourceState };

    ghost view = { λ s. record {
      rest = s.rest.now;
      pieces = s.pieces.now;
      fail_at = s.fail_at.now;
      calls = s.calls;
      faults = s.faults;
      ends = s.ends;
    } };
}

impl<'a> MemSource<'a> {
    /// A source of these bytes, before its first call.
    pub fn new(bytes: &'a [u8], pieces: &'a [usize], fail_at: &'a [u64]) -> MemSource<'a>
        ensures { result ≡ record {
          rest = bytes.now;
          pieces = pieces.now;
          fail_at = fail_at.now;
          calls = 0;
          faults = 0;
          ends = 0;
        } }
    {
        MemSource {
            rest: bytes,
            pieces,
            fail_at,
            calls: 0,
            faults: 0,
            ends: 0,
        }
    }
}

impl Source for MemSource<'_> {
    ghost rest = { λ s. Some s.rest };

    ghost faults = { λ s. s.faults };

    ghost ends = { λ s. s.ends };

    /// Gives exactly the least of the call's bound, the buffer's length and the number of bytes left.
    fn read(&mut self, buf: &mut [u8]) -> Result<usize, SourceFault>
        ensures bound { ReadsAtMost result buf.new }
        ensures bytes { Reads (Some self.old.rest) (Some self.new.rest) result buf.new }
        ensures cause { HasCause self.old.faults self.new.faults result }
        ensures ended { self.new.ends ≡ ends_by_read result (length buf.new) self.old.ends }
        // A call fails exactly where the list names its number.
        ensures fails { IsErr result ↔ Contains self.old.fail_at (next_count self.old.calls) }
        ensures amount { IfOk result (λ n. n ≡ read_len self.old (length buf.new)) }
        ensures state { self.new ≡ after_read self.old result (length buf.new) }
    {
        self.calls = next(self.calls);
        if self.fail_at.contains(&self.calls) {
            self.faults = next(self.faults);
            return Err(SourceFault);
        }
        let n = bound(self.pieces, self.calls, buf.len().min(self.rest.len()));
        let (front, back) = self.rest.split_at(n);
        buf[..n].copy_from_slice(front);
        self.rest = back;
        if n == 0 && !buf.is_empty() {
            self.ends = next(self.ends);
        }
        Ok(n)
    }
}
