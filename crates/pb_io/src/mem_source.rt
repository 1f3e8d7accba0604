//! A source in memory, with faults at calls of choice.
ghost use Rattle.std.specs.Prelude.{◌≡◌, ◌==◌, ◌&&◌, ◌<◌, ◌≤◌, min, length, IfOk, Some, is_err, nat_lt, if◌then◌else◌};
ghost use Rattle.pb_io.specs.Calls.{is_listed, after_call, no_calls};
ghost use Rattle.pb_io.specs.Faults.{HasCause, counted};
ghost use Rattle.pb_io.specs.Source.{CountsEnds, Reads};

use crate::fault_plan::FaultPlan;
use crate::{Failed, Source};
use pb_base::Memory;
use std::alloc::Global;
use std::marker::Model;

/// Bytes in memory, given in chunks of a bounded length, with faults at calls of choice.
#[derive(Drop)]
pub struct MemSource {
    bytes: Vec<u8>,
    at: usize,
    chunk: usize,
    ends: u64,
    plan: FaultPlan,
}

impl Model for MemSource {
    ghost use Rattle.std.specs.Prelude.{◌≤◌, length, drop};
    ghost use Rattle.pb_io.specs.InMemory.{Supply};

    ghost Value = { Supply };

    ghost view = { λ s. record { left = drop s.at s.bytes.items; chunk = s.chunk; ends = s.ends; calls = s.plan } };

    ghost invariant = { λ s. (s.at ≤ length s.bytes.items) × (1 ≤ s.chunk) };
}

impl MemSource {
    /// A source that gives `bytes`, at most `chunk` of them with each read. The reads whose numbers, from 0, stand
    /// in `fails` fail; they count too.
    pub fn new(
        alloc: Global,
        bytes: &[u8],
        chunk: usize,
        fails: &[u64],
    ) -> Result<MemSource, Memory>
        requires { 1 ≤ chunk }
        ensures { IfOk result (λ s. s ≡ record
            { left = bytes.now; chunk = chunk; ends = 0; calls = no_calls fails.now }) }
    {
        Ok(MemSource {
            bytes: Vec::from_slice(alloc, bytes).map_err(|_| Memory)?,
            at: 0,
            chunk,
            ends: 0,
            plan: FaultPlan::new(alloc, fails).map_err(|_| Memory)?,
        })
    }
}

impl Source for MemSource {
    ghost left = { λ s. Some s.left };

    ghost ends = { λ s. s.ends };

    ghost read_faults = { λ s. s.calls.faults };

    fn read(&mut self, to: &mut [u8]) -> Result<usize, Failed>
        ensures bound { IfOk result (λ n. n ≤ length to.old) }
        ensures bytes { Reads (Some self.old.left) (Some self.new.left) to.new result }
        ensures ends { CountsEnds self.old.ends self.new.ends to.old result }
        ensures cause { HasCause self.old.calls.faults self.new.calls.faults result }
        ensures listed { is_err result ≡ is_listed self.old.calls }
        ensures taken { IfOk result (λ n. n ≡ min self.old.chunk
            (min (length to.old) (length self.old.left))) }
        ensures chunk { self.new.chunk ≡ self.old.chunk }
        ensures calls { self.new.calls ≡ after_call self.old.calls (is_err result) }
    {
        self.plan.call()?;
        let rest = &self.bytes[self.at..];
        let n = self.chunk.min(to.len()).min(rest.len());
        to[..n].copy_from_slice(&rest[..n]);
        self.at += n;
        self.ends = ends_after(self.ends, n, to.len());
        Ok(n)
    }
}

// The count of ends after a read that gave so many bytes into so much room.
fn ends_after(ends: u64, given: usize, room: usize) -> u64
    ensures { result ≡ (if given == 0 && nat_lt 0 room then counted ends else ends) }
{
    if given == 0 && room > 0 {
        ends.saturating_add(1)
    } else {
        ends
    }
}
