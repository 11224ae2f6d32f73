// What the layers above read from and write to.
ghost use Rattle.std.specs.Prelude.{◌≡◌, ℕ, List, length, Bool};
ghost use Rattle.std.specs.declared.option.Option.{Option};
ghost use Rattle.std.specs.Io.{ReadsAtMost, WritesAtMost};
ghost use Rattle.tetra_io.specs.Streams.{HasCause, KeepsOrHides, Reads, Writes, ends_by_read, settled_by_write, settled_by_flush};

use thiserror::Error;

/// A read failed.
#[derive(Debug, Drop, Error)]
#[error("SourceFault")]
pub struct SourceFault;

/// A write or a flush failed.
#[derive(Debug, Drop, Error)]
#[error("SinkFault")]
pub struct SinkFault;

/// Where bytes come from, in pieces of any size.
pub trait Source {
    /// The bytes still to come, where the source tells them.
    ghost rest: { Self → Option (List ℕ) };

    /// How often a read has failed. The count never falls, and it stays at 2^64 - 1 once it is there.
    ghost faults: { Self → ℕ };

    /// How often a read into a buffer that is not empty has answered 0, as it does at the end. The count
    /// stays at 2^64 - 1 once it is there.
    ghost ends: { Self → ℕ };

    /// Reads the next bytes into the front of the buffer, and answers how many they are: at most the
    /// buffer's length, and 0 for a buffer that is not empty only at the end, which was counted. A read
    /// that fails took nothing, and was counted.
    fn read(&mut self, buf: &mut [u8]) -> Result<usize, SourceFault>
        ensures bound { ReadsAtMost result buf.new }
        ensures bytes { Reads (rest self.old) (rest self.new) result buf.new }
        ensures cause { HasCause (faults self.old) (faults self.new) result }
        ensures ended { ends self.new ≡ ends_by_read result (length buf.new) (ends self.old) };
}

/// Where bytes go to, in pieces of any size.
pub trait Sink {
    /// The bytes taken so far, where the sink tells them.
    ghost taken: { Self → Option (List ℕ) };

    /// How often a write or a flush has failed. The count never falls, and it stays at 2^64 - 1 once it
    /// is there.
    ghost faults: { Self → ℕ };

    /// Whether a flush has succeeded and nothing was taken since.
    ghost settled: { Self → Bool };

    /// Takes bytes from the front of a piece, and answers how many it took: at most the piece's length,
    /// and at least one of a piece that is not empty. A write that fails took nothing, and was counted.
    fn write(&mut self, bytes: &[u8]) -> Result<usize, SinkFault>
        ensures bound { WritesAtMost result bytes.now }
        ensures taken { Writes (taken self.old) (taken self.new) result bytes.now }
        ensures cause { HasCause (faults self.old) (faults self.new) result }
        ensures settled { settled self.new ≡ settled_by_write result (settled self.old) };

    /// Hands on what was taken. A flush that succeeds settles the sink. One that fails was counted.
    fn flush(&mut self) -> Result<(), SinkFault>
        ensures taken { KeepsOrHides (taken self.old) (taken self.new) }
        ensures cause { HasCause (faults self.old) (faults self.new) result }
        ensures settled { settled self.new ≡ settled_by_flush result (settled self.old) };
}
