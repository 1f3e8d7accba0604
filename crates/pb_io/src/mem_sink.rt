//! A sink in memory, with faults at calls of choice.
ghost use Rattle.std.specs.Prelude.{◌≡◌, ◌<◌, ◌≤◌, [], length, IfOk, IsTrue, Some, IsErr, is_err};
ghost use Rattle.pb_io.specs.Calls.{is_listed, after_call, no_calls};
ghost use Rattle.pb_io.specs.Faults.{HasCause};
ghost use Rattle.pb_io.specs.Sink.{Writes};

use crate::fault_plan::FaultPlan;
use crate::{Failed, Sink};
use pb_base::Memory;
use std::alloc::Global;
use std::marker::Model;

/// A sink in memory that takes each write whole, with faults at calls of choice.
#[derive(Drop)]
pub struct MemSink {
    bytes: Vec<u8>,
    plan: FaultPlan,
}

impl Model for MemSink {
    ghost use Rattle.pb_io.specs.InMemory.{Store};

    ghost Value = { Store };

    ghost view = { λ s. record { bytes = s.bytes.items; calls = s.plan } };
}

impl MemSink {
    /// An empty sink. The writes whose numbers, from 0, stand in `fails` fail; they count too.
    pub fn new(alloc: Global, fails: &[u64]) -> Result<MemSink, Memory>
        ensures { IfOk result (λ s. s ≡ record { bytes = []; calls = no_calls fails.now }) }
    {
        Ok(MemSink {
            bytes: Vec::new(alloc),
            plan: FaultPlan::new(alloc, fails).map_err(|_| Memory)?,
        })
    }

    /// All bytes that were written.
    pub fn bytes(&self) -> &[u8]
        ensures { result.now ≡ self.now.bytes }
    {
        &self.bytes
    }
}

impl Sink for MemSink {
    ghost written = { λ s. Some s.bytes };

    ghost write_faults = { λ s. s.calls.faults };

    /// Takes memory; a write that finds none is a counted fault.
    fn write(&mut self, from: &[u8]) -> Result<usize, Failed>
        ensures bound { IfOk result (λ n. n ≤ length from.now) }
        ensures some { IfOk result (λ n. 0 < length from.now → 0 < n) }
        ensures bytes { Writes (Some self.old.bytes) (Some self.new.bytes) from.now result }
        ensures cause { HasCause self.old.calls.faults self.new.calls.faults result }
        ensures listed { IsTrue (is_listed self.old.calls) → IsErr result }
        ensures whole { IfOk result (λ n. n ≡ length from.now) }
        ensures calls { self.new.calls ≡ after_call self.old.calls (is_err result) }
    {
        self.plan.call()?;
        if self.bytes.extend_from_slice(from).is_err() {
            return Err(self.plan.fault());
        }
        Ok(from.len())
    }
}
