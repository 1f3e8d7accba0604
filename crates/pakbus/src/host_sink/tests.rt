//! Tests of a sink over a writer of their own.
use super::*;
use crate::waiting::Waiting;
use std::test::Fail;

/// A writer that has one outcome after the other.
#[derive(Drop)]
struct Scripted {
    calls: usize,
}

impl Write for Scripted {
    fn write(&mut self, buf: &[u8]) -> io::Result<usize> {
        self.calls = self.calls.saturating_add(1);
        match self.calls {
            1 => Err(io::Error::from(ErrorKind::Interrupted)),
            2 => Ok(buf.len().min(2)),
            3 => Ok(0),
            4 => Err(io::Error::from(ErrorKind::WouldBlock)),
            5 => Ok(buf.len()),
            _ => Err(io::Error::from(ErrorKind::BrokenPipe)),
        }
    }

    fn flush(&mut self) -> io::Result<()> {
        Ok(())
    }
}

#[test]
fn writes_as_the_writer_does(rt: HostRuntime) -> Result<(), Fail> {
    let mut sink = HostSink::new(Scripted { calls: 0 });
    for (taken, faults) in [
        (Ok(2), 0),
        (Err(Failed), 1),
        (Err(Failed), 2),
        (Ok(6), 2),
        (Err(Failed), 3),
    ] {
        assert_eq!(rt; sink.write(b"PakBus"), taken);
        assert_eq!(rt; sink.faults, faults);
    }
    Ok(())
}

#[test]
fn waits_where_the_writer_would_block(rt: HostRuntime) -> Result<(), Fail> {
    let mut sink = HostSink::new(Waiting::new(&rt, Scripted { calls: 3 }));
    assert_eq!(rt; sink.write(b"PakBus"), Ok(6));
    assert_eq!(rt; sink.faults, 0);
    Ok(())
}
