// Whole buffers, in and out.
ghost use Rattle.std.specs.Prelude.{◌≡◌, ◌≤◌, length, OnOk, OnErr};
ghost use Rattle.std.specs.Io.KnownBytes.{Appends};
ghost use Rattle.tetra_io.specs.Streams.{HasCause, settled_behind};
ghost use Rattle.tetra_io.specs.Filling.{Fills, FaultRose, AddsFront, ends_filled};

use crate::streams::{Sink, SinkFault, Source};

/// How the filling of a buffer went.
#[derive(Clone, Copy, Debug, PartialEq, Eq)]
pub enum Filled {
    /// The buffer is full.
    Whole,
    /// The source ended behind so many bytes, fewer than the buffer holds.
    Ended(usize),
    /// A read failed. Some bytes may be gone, fewer than the buffer holds.
    Fault,
}

/// Fills the buffer with the next bytes of a source. It meets the end at most once, and reads nothing behind it.
pub fn fill<S: Source>(src: &mut S, buf: &mut [u8]) -> Filled
    ensures bytes { Fills (S.rest src.old) (S.rest src.new) result buf.new }
    ensures later { S.faults src.old ≤ S.faults src.new }
    ensures fault { FaultRose result (S.faults src.old) (S.faults src.new) }
    ensures ended { S.ends src.new ≡ ends_filled result (S.ends src.old) }
{
    let mut at = 0;
    while at < buf.len() {
        match src.read(&mut buf[at..]) {
            Ok(0) => return Filled::Ended(at),
            Ok(n) => at += n,
            Err(_) => return Filled::Fault,
        }
    }
    Filled::Whole
}

/// Hands all the bytes to a sink, in order. Where a write fails, a front of them was taken, and not all.
pub fn put_all<K: Sink>(sink: &mut K, bytes: &[u8]) -> Result<(), SinkFault>
    ensures ok { OnOk result (Appends (K.taken sink.old) (K.taken sink.new) bytes.now) }
    ensures err { OnErr result (AddsFront (K.taken sink.old) (K.taken sink.new) bytes.now) }
    ensures cause { HasCause (K.faults sink.old) (K.faults sink.new) result }
    ensures settled { OnOk result (K.settled sink.new ≡ settled_behind (length bytes.now) (K.settled sink.old)) }
{
    let mut at = 0;
    while at < bytes.len() {
        at += sink.write(&bytes[at..])?;
    }
    Ok(())
}
