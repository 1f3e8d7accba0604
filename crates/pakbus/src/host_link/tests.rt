//! Tests of the stream to a peer, over a stream of their own.
use super::*;
use std::test::Fail;

/// A stream that takes two bytes with each write up to the fourth, and gives one outcome after the other.
#[derive(Drop)]
struct Scripted {
    reads: usize,
    writes: usize,
    bytes: [u8; 8],
}

impl Read for Scripted {
    fn read(&mut self, buf: &mut [u8]) -> io::Result<usize> {
        self.reads = self.reads.saturating_add(1);
        match self.reads {
            1 => Err(io::Error::from(ErrorKind::Interrupted)),
            2 => Ok(buf.len().min(1)),
            3 => Err(io::Error::from(ErrorKind::WouldBlock)),
            4 => Err(io::Error::from(ErrorKind::TimedOut)),
            5 => Err(io::Error::from(ErrorKind::ConnectionReset)),
            _ => Ok(0),
        }
    }
}

impl Write for Scripted {
    fn write(&mut self, buf: &[u8]) -> io::Result<usize> {
        self.writes = self.writes.saturating_add(1);
        if self.writes > 4 {
            return Err(io::Error::from(ErrorKind::BrokenPipe));
        }
        let at = 2 * self.writes - 2;
        let n = buf.len().min(2);
        self.bytes[at..at + n].copy_from_slice(&buf[..n]);
        Ok(n)
    }

    fn flush(&mut self) -> io::Result<()> {
        Ok(())
    }
}

fn script() -> Stream<Scripted> {
    Stream::Open(Scripted {
        reads: 0,
        writes: 0,
        bytes: [0; 8],
    })
}

#[test]
fn a_tick_is_a_read_that_would_block(rt: HostRuntime) -> Result<(), Fail> {
    let mut stream = script();
    for came in [Some(1), Some(0), None, None, None] {
        assert_eq!(rt; stream.recv(&mut [0; 4]).ok(), came);
    }
    Ok(())
}

#[test]
fn a_frame_is_written_whole(rt: HostRuntime) -> Result<(), Fail> {
    let mut stream = script();
    assert!(rt; stream.send(b"frame").is_ok());
    let written = match &stream {
        Stream::Open(stream) => stream.bytes,
        _ => [0; 8],
    };
    assert_eq!(rt; written, *b"frame\0\0\0");
    assert!(rt; stream.send(b"next").is_err());
    Ok(())
}

#[test]
fn addresses_share_the_time_that_is_left(rt: HostRuntime) {
    for (passed, untried, share) in [(0, 1, 10_000), (0, 4, 2_500), (4, 2, 3_000), (12, 1, 0)] {
        let share_is = share_of(Duration::from_secs(passed), untried);
        assert_eq!(rt; share_is, Duration::from_millis(share));
    }
}
