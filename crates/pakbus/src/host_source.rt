//! A source of bytes over a reader of the host.
ghost use Rattle.std.specs.Prelude.{◌≤◌, length, IfOk};
ghost use Rattle.std.specs.Io.KnownBytes.{ReadConsumes};

use crate::fault_count::{counted, failed_as};
use pb_io::{Failed, Source};
use std::io::{self, ErrorKind, Read};

/// Standard input, or another reader. What the reader knows of the bytes that are left is known of the source.
#[derive(Drop)]
pub struct HostSource<R> {
    reader: R,
    ends: u64,
    faults: u64,
}

impl<R: Read> HostSource<R> {
    pub fn new(reader: R) -> Self {
        HostSource {
            reader,
            ends: 0,
            faults: 0,
        }
    }
}

impl<R: Read> Source for HostSource<R> {
    ghost left = { λ s. R.remaining s.reader };

    ghost ends = { λ s. s.ends };

    ghost read_faults = { λ s. s.faults };

    fn read(&mut self, to: &mut [u8]) -> Result<usize, Failed> {
        let n = counted(&mut self.faults, read_on(&mut self.reader, to))?;
        if n == 0 && !to.is_empty() {
            self.ends = self.ends.saturating_add(1);
        }
        Ok(n)
    }
}

/// A read that a signal interrupts is made again.
pub fn read_on<R: Read>(reader: &mut R, to: &mut [u8]) -> io::Result<usize>
    ensures bound { IfOk result (λ n. n ≤ length to.old) }
    ensures bytes { ReadConsumes (R.remaining reader.old) (R.remaining reader.new) result to.new }
{
    for _ in 0..u64::MAX {
        let outcome = reader.read(to);
        if !failed_as(&outcome, ErrorKind::Interrupted) {
            return outcome;
        }
    }
    Err(io::Error::from(ErrorKind::Interrupted))
}

#[cfg(test)]
mod tests;
