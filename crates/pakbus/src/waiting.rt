//! Standard input and output that wait, also where they are set not to.
use crate::fault_count::failed_as;
use std::io::{self, ErrorKind, Read, Write};
use std::time::{Clock, Duration};

/// How long to wait until the next try, in milliseconds.
const PAUSE_MILLIS: u64 = 10;

/// A reader or a writer that waits where it would block. Another process may have set the terminal or the pipe that it
/// shares with this one not to wait; that stays so.
#[derive(Drop)]
pub struct Waiting<'a, C, T> {
    clock: &'a C,
    inner: T,
}

impl<'a, C: Clock, T> Waiting<'a, C, T> {
    pub fn new(clock: &'a C, inner: T) -> Self {
        Waiting { clock, inner }
    }
}

fn pause<C: Clock>(clock: &C) {
    clock.sleep(Duration::from_millis(PAUSE_MILLIS));
}

impl<'a, C: Clock, R: Read> Read for Waiting<'a, C, R> {
    ghost remaining = { λ w. R.remaining w.inner };

    fn read(&mut self, buf: &mut [u8]) -> io::Result<usize> {
        for _ in 0..u64::MAX {
            let outcome = self.inner.read(buf);
            if !failed_as(&outcome, ErrorKind::WouldBlock) {
                return outcome;
            }
            pause(self.clock);
        }
        Err(io::Error::from(ErrorKind::WouldBlock))
    }
}

impl<'a, C: Clock, W: Write> Write for Waiting<'a, C, W> {
    ghost contents = { λ w. W.contents w.inner };

    fn write(&mut self, buf: &[u8]) -> io::Result<usize> {
        for _ in 0..u64::MAX {
            let outcome = self.inner.write(buf);
            if !failed_as(&outcome, ErrorKind::WouldBlock) {
                return outcome;
            }
            pause(self.clock);
        }
        Err(io::Error::from(ErrorKind::WouldBlock))
    }

    fn flush(&mut self) -> io::Result<()> {
        self.inner.flush()
    }
}
