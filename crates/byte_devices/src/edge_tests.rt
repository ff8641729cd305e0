//! The source over a reader, and the sink over a writer.
use crate::{Failed, InputSource, OutputSink, Sink, Source};
use std::io;
use std::io::{ErrorKind, Read, Write};
use std::test::Fail;

// A reader and a writer that move two bytes, then fail, then move none.
#[derive(Drop)]
struct Unsteady {
    calls: u64,
}

impl Unsteady {
    ghost use Rattle.std.specs.Prelude.{◌≤◌, IfOk};

    fn turn(&mut self, most: usize) -> io::Result<usize>
        ensures { IfOk result (λ n. n ≤ most) }
    {
        let call = self.calls;
        self.calls = call.saturating_add(1);
        match call {
            0 => Ok(most.min(2)),
            1 => Err(io::Error::from(ErrorKind::BrokenPipe)),
            _ => Ok(0),
        }
    }
}

impl Read for Unsteady {
    fn read(&mut self, into: &mut [u8]) -> io::Result<usize> {
        self.turn(into.len())
    }
}

impl Write for Unsteady {
    fn write(&mut self, piece: &[u8]) -> io::Result<usize> {
        self.turn(piece.len())
    }

    fn flush(&mut self) -> io::Result<()> {
        Ok(())
    }
}

#[test]
fn an_error_of_a_reader_or_a_writer_is_a_failure(rt: HostRuntime) -> Result<(), Fail> {
    let mut source = InputSource::new(Unsteady { calls: 0 });
    let mut sink = OutputSink::new(Unsteady { calls: 0 });
    let mut piece = [7; 3];
    for (reads, writes) in [
        (Ok(2), Ok(2)),
        (Err(Failed), Err(Failed)),
        // The reader is at its end. A writer that takes nothing has failed.
        (Ok(0), Err(Failed)),
    ] {
        assert_eq!(rt; source.read(&mut piece), reads);
        sink.reserve(piece.len())?;
        assert_eq!(rt; sink.write(&piece), writes);
    }
    Ok(())
}
