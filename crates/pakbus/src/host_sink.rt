//! A sink of bytes over a writer of the host.
ghost use Rattle.std.specs.Prelude.{◌≡◌, ◌≤◌, ◌<◌, length, Ok, IfOk, OnErr};
ghost use Rattle.std.specs.Io.KnownBytes.{WriteAppends};

use crate::fault_count::{counted, failed_as};
use pb_io::{Failed, Sink};
use std::io::{self, ErrorKind, Write};

/// Standard output, or another writer. What the writer knows of the bytes that it holds is known of the sink.
#[derive(Drop)]
pub struct HostSink<W> {
    writer: W,
    faults: u64,
}

impl<W: Write> HostSink<W> {
    pub fn new(writer: W) -> Self {
        HostSink { writer, faults: 0 }
    }
}

impl<W: Write> Sink for HostSink<W> {
    ghost written = { λ s. W.contents s.writer };

    ghost write_faults = { λ s. s.faults };

    fn write(&mut self, from: &[u8]) -> Result<usize, Failed> {
        counted(&mut self.faults, write_on(&mut self.writer, from))
    }
}

// A write that a signal interrupts is made again; one that takes nothing of a piece fails.
fn write_on<W: Write>(writer: &mut W, from: &[u8]) -> io::Result<usize>
    ensures bound { IfOk result (λ n. n ≤ length from.now) }
    ensures some { IfOk result (λ n. 0 < length from.now → 0 < n) }
    ensures bytes { WriteAppends (W.contents writer.old) (W.contents writer.new) result from.now }
{
    for _ in 0..u64::MAX {
        let outcome = writer.write(from);
        if !failed_as(&outcome, ErrorKind::Interrupted) {
            return if_some(outcome, from);
        }
    }
    Err(io::Error::from(ErrorKind::Interrupted))
}

// A write that took nothing of a piece is one that failed.
fn if_some(outcome: io::Result<usize>, from: &[u8]) -> io::Result<usize>
    ensures taken { IfOk result (λ n. outcome ≡ Ok n) }
    ensures some { IfOk result (λ n. 0 < length from.now → 0 < n) }
    ensures none { OnErr result (IfOk outcome (λ n. n ≡ 0)) }
{
    match outcome {
        Ok(0) if !from.is_empty() => Err(io::Error::from(ErrorKind::WriteZero)),
        outcome => outcome,
    }
}

#[cfg(test)]
mod tests;
