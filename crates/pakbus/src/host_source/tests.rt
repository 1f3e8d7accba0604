//! Tests of a source over a reader of their own.
ghost use Rattle.std.specs.Prelude.{◌≤◌, length, IfOk};

use super::*;
use crate::waiting::Waiting;
use std::test::Fail;

/// A reader that gives one outcome after the other, and then is at its end.
#[derive(Drop)]
struct Scripted {
    calls: usize,
}

impl Read for Scripted {
    fn read(&mut self, buf: &mut [u8]) -> io::Result<usize> {
        self.calls = self.calls.saturating_add(1);
        match self.calls {
            1 => Err(io::Error::from(ErrorKind::Interrupted)),
            2 => give(buf, b"Pak"),
            3 => Err(io::Error::from(ErrorKind::WouldBlock)),
            4 => give(buf, b"Bus"),
            5 => Err(io::Error::from(ErrorKind::BrokenPipe)),
            _ => Ok(0),
        }
    }
}

fn give(buf: &mut [u8], bytes: &[u8]) -> io::Result<usize>
    ensures { IfOk result (λ n. n ≤ length buf.old) }
{
    let n = bytes.len().min(buf.len());
    buf[..n].copy_from_slice(&bytes[..n]);
    Ok(n)
}

#[test]
fn reads_as_the_reader_does(rt: HostRuntime) -> Result<(), Fail> {
    let mut source = HostSource::new(Scripted { calls: 0 });
    let mut room = [0; 8];
    for (came, bytes, ends, faults) in [
        (Ok(3), b"Pak".as_slice(), 0, 0),
        (Err(Failed), b"", 0, 1),
        (Ok(3), b"Bus", 0, 1),
        (Err(Failed), b"", 0, 2),
        (Ok(0), b"", 1, 2),
    ] {
        assert_eq!(rt; source.read(&mut room), came);
        assert_eq!(rt; &room[..bytes.len()], bytes);
        assert_eq!(rt; (source.ends, source.faults), (ends, faults));
    }
    Ok(())
}

#[test]
fn waits_where_the_reader_would_block(rt: HostRuntime) -> Result<(), Fail> {
    let mut source = HostSource::new(Waiting::new(&rt, Scripted { calls: 2 }));
    let mut room = [0; 8];
    assert_eq!(rt; source.read(&mut room), Ok(3));
    assert_eq!(rt; &room[..3], b"Bus".as_slice());
    assert_eq!(rt; source.read(&mut room), Err(Failed));
    Ok(())
}
