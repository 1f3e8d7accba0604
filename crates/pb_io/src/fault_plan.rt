//! Which calls of a form in memory fail.
ghost use Rattle.std.specs.Prelude.{◌≡◌, ◌≤◌, IfOk, is_err};
ghost use Rattle.pb_io.specs.Calls.{is_listed, after_call, no_calls};
ghost use Rattle.pb_io.specs.Faults.{counted};

use crate::Failed;
use std::alloc::{AllocError, Global};
use std::marker::Model;

#[derive(Drop)]
pub struct FaultPlan {
    fails: Vec<u64>,
    made: u64,
    faults: u64,
}

impl Model for FaultPlan {
    ghost use Rattle.pb_io.specs.Calls.{Calls};

    ghost Value = { Calls };

    ghost view = { λ p. record { fails = p.fails.items; made = p.made; faults = p.faults } };
}

impl FaultPlan {
    pub fn new(alloc: Global, fails: &[u64]) -> Result<FaultPlan, AllocError>
        ensures { IfOk result (λ p. p ≡ no_calls fails.now) }
    {
        Ok(FaultPlan {
            fails: Vec::from_slice(alloc, fails)?,
            made: 0,
            faults: 0,
        })
    }

    /// Counts a call, and answers whether it may go on: its number isn't listed.
    pub fn call(&mut self) -> Result<(), Failed>
        ensures listed { is_err result ≡ is_listed self.old }
        ensures counted { self.new ≡ after_call self.old (is_err result) }
        ensures later { self.old.faults ≤ self.new.faults }
    {
        let listed = self.fails.contains(&self.made);
        self.made = self.made.saturating_add(1);
        if listed {
            return Err(self.fault());
        }
        Ok(())
    }

    /// Counts a fault.
    pub fn fault(&mut self) -> Failed
        ensures counted { self.new ≡ record self.old { faults = counted self.old.faults } }
        ensures later { self.old.faults ≤ self.new.faults }
    {
        self.faults = self.faults.saturating_add(1);
        Failed
    }
}
