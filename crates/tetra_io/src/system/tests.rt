// No clause says that std's own call failed where the adapters count a fault.
ghost use Rattle.std.specs.Prelude.{◌≤◌, IfOk};

use super::*;
use std::io;
use std::io::ErrorKind;

/// A reader and writer whose next call moves so many bytes, or fails at `None`.
#[derive(Drop)]
struct Scripted {
    answer: Option<usize>,
}

impl Scripted {
    fn moved(&self, len: usize) -> io::Result<usize>
        ensures { IfOk result (λ n. n ≤ len) }
    {
        match self.answer {
            Some(count) => Ok(count.min(len)),
            None => Err(ErrorKind::Other.into()),
        }
    }
}

impl Read for Scripted {
    fn read(&mut self, buf: &mut [u8]) -> io::Result<usize> {
        self.moved(buf.len())
    }
}

impl Write for Scripted {
    fn write(&mut self, buf: &[u8]) -> io::Result<usize> {
        self.moved(buf.len())
    }

    fn flush(&mut self) -> io::Result<()> {
        self.moved(1)?;
        Ok(())
    }
}

#[test]
fn source_counts_each_err(rt: HostRuntime) {
    let mut source = StdSource::new(Scripted { answer: None });
    let table = [
        (Some(3), 0),
        (None, 1),
        (Some(0), 1),
        (None, 2),
        (Some(5), 2),
    ];
    for (answer, faults) in table {
        source.reader.answer = answer;
        let result = source.read(&mut [0; 4]);
        assert_eq!(rt; result.ok(), answer.map(|count| count.min(4)));
        assert_eq!(rt; source.faults, faults);
    }
}

#[test]
fn sink_counts_each_err_and_each_stop(rt: HostRuntime) {
    let mut sink = StdSink::new(Scripted { answer: None });
    let table = [
        (Some(3), &b"abcd"[..], Some(3), 0),
        (None, &b"abcd"[..], None, 1),
        (Some(0), &b"abcd"[..], None, 2),
        (Some(0), &b""[..], Some(0), 2),
        (None, &b""[..], None, 3),
        (Some(5), &b"abcd"[..], Some(4), 3),
    ];
    for (answer, bytes, taken, faults) in table {
        sink.writer.answer = answer;
        assert_eq!(rt; sink.write(bytes).ok(), taken);
        assert_eq!(rt; sink.faults, faults);
    }
    for (answer, settled, faults) in [(None, false, 4), (Some(0), true, 4), (None, true, 5)] {
        sink.writer.answer = answer;
        assert_eq!(rt; sink.flush().is_ok(), settled && answer.is_some());
        assert_eq!(rt; sink.settled, settled);
        assert_eq!(rt; sink.faults, faults);
    }
}
