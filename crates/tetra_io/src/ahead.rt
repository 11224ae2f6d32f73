// A source that reads ahead.
ghost use Rattle.std.specs.Prelude.{◌≡◌, ◌≤◌, ◌<◌, [], length, min, drop, take, OnOk, OnErr};
ghost use Rattle.std.specs.Io.{ReadsAtMost};
ghost use Rattle.std.specs.Io.KnownBytes.{Consumes, IsAtEnd, prepend_known};
ghost use Rattle.tetra_io.specs.Streams.{HasCause, KeepsOrHides, Reads, ends_behind, ends_by_read};

use crate::streams::{Source, SourceFault};
use std::marker::Model;

/// How many bytes a source that reads ahead asks for at once.
const AHEAD: usize = 16_384;

/// A source over another, from which it reads up to 16,384 bytes at once. It gives what it holds before it reads again,
/// and hands on at once what a read gave, however little, so that a slow pipe is not held up.
#[derive(Drop)]
pub struct ReadAhead<S> {
    source: S,
    bytes: [u8; AHEAD],
    at: usize,
    end: usize,
}

impl<S> Model for ReadAhead<S> {
    ghost use Rattle.std.specs.Prelude.{take, drop, ◌-◌, ◌≤◌};
    ghost use Rattle.tetra_io.specs.Ahead.{ReadAheadState};

    ghost Value = { ReadAheadState S };

    ghost view = { λ s. record { source = s.source; held = take (s.end - s.at) (drop s.at s.bytes) } };

    ghost invariant = { λ s. (s.at ≤ s.end) × (s.end ≤ 16384) };
}

impl<S: Source> ReadAhead<S> {
    /// A source over this one, of which nothing is held.
    pub fn new(source: S) -> ReadAhead<S>
        ensures { result ≡ record { source = source; held = [] } }
    {
        ReadAhead {
            source,
            bytes: [0; AHEAD],
            at: 0,
            end: 0,
        }
    }

    /// Reads once where nothing is held.
    fn refill(&mut self) -> Result<(), SourceFault>
        requires { self.old.held ≡ [] }
        ensures ok { OnOk result (Consumes (S.rest self.old.source) (S.rest self.new.source) self.new.held) }
        ensures end { OnOk result (self.new.held ≡ [] → IsAtEnd (S.rest self.new.source)) }
        ensures err { OnErr result (KeepsOrHides (S.rest self.old.source) (S.rest self.new.source)) }
        ensures none { OnErr result (self.new.held ≡ []) }
        ensures cause { HasCause (S.faults self.old.source) (S.faults self.new.source) result }
        ensures ended { OnOk result (S.ends self.new.source ≡ ends_behind (length self.new.held) 1 (S.ends self.old.source)) }
        ensures kept { OnErr result (S.ends self.new.source ≡ S.ends self.old.source) }
    {
        self.at = 0;
        self.end = 0;
        self.end = self.source.read(&mut self.bytes)?;
        Ok(())
    }

    /// Gives the first bytes of those that are held, as many as the buffer has room for.
    fn hand_on(&mut self, buf: &mut [u8]) -> usize
        ensures count { result ≡ min (length buf.old) (length self.old.held) }
        ensures given { take result buf.new ≡ take result self.old.held }
        ensures left { self.new.held ≡ drop result self.old.held }
        ensures source { self.new.source ≡ self.old.source }
        ensures size { length buf.new ≡ length buf.old }
    {
        let n = give(&self.bytes[self.at..self.end], buf);
        self.at += n;
        n
    }
}

/// Copies the first of these bytes into the front of the buffer, as many as there is room for.
fn give(held: &[u8], buf: &mut [u8]) -> usize
    ensures count { result ≡ min (length buf.old) (length held.now) }
    ensures given { take result buf.new ≡ take result held.now }
    ensures size { length buf.new ≡ length buf.old }
{
    let n = buf.len().min(held.len());
    let (front, _) = held.split_at(n);
    buf[..n].copy_from_slice(front);
    n
}

impl<S: Source> Source for ReadAhead<S> {
    ghost rest = { λ s. prepend_known s.held (S.rest s.source) };

    ghost faults = { λ s. S.faults s.source };

    ghost ends = { λ s. S.ends s.source };

    /// What is held, up to the buffer's length. Where nothing is held it reads once before, and where bytes are held not
    /// at all.
    fn read(&mut self, buf: &mut [u8]) -> Result<usize, SourceFault>
        ensures bound { ReadsAtMost result buf.new }
        ensures bytes { Reads (prepend_known self.old.held (S.rest self.old.source))
            (prepend_known self.new.held (S.rest self.new.source)) result buf.new }
        ensures cause { HasCause (S.faults self.old.source) (S.faults self.new.source) result }
        ensures ended { S.ends self.new.source ≡ ends_by_read result (length buf.new) (S.ends self.old.source) }
        // What is held is given before anything is read.
        ensures held { 0 < length self.old.held → self.new.source ≡ self.old.source }
    {
        if self.at == self.end && !buf.is_empty() {
            self.refill()?;
        }
        Ok(self.hand_on(buf))
    }
}
