//! One request, from its first sending on.
ghost use Rattle.std.specs.Prelude.{◌≡◌, ℕ, ◌+◌, ◌<◌, ◌≤◌, ◌⊎◌, List, [], ◌∷◌, ◌++◌, length, min};
ghost use Rattle.pb_trans.specs.Asking.{Means};
ghost use Rattle.pb_trans.specs.Waiting.{Input, Packet, Tick, Bytes, StandsFor, Hears, Ticks, Counts, after_sending};

use crate::asked::{Asked, FLOOD, Limits, Step, WAIT_MAX};
use crate::judging::{meaning, seconds_to_wait};
use pb_packet::Header;
use std::marker::Model;

/// One request that was sent. It is seen as what it knows, and stands for all inputs since its begin.
#[derive(Drop)]
pub struct Exchange {
    asked: Asked,
    limits: Limits,
    sent: u8,
    due: u32,
    heard: usize,
}

impl Model for Exchange {
    ghost use Rattle.pb_trans.specs.Waiting.{Waiting};
    ghost use Rattle.std.specs.Prelude.{◌≤◌, ◌+◌};

    ghost Value = { Waiting };

    ghost view = { λ e. record { asked = e.asked; limits = e.limits; sent = e.sent; due = e.due; heard = e.heard } };

    ghost invariant = { λ e. (e.sent ≤ e.limits.sends) × (e.due ≤ e.limits.quiets + 60) };
}

impl Exchange {
    /// A request that was sent once.
    pub fn begin(asked: Asked, limits: Limits) -> Exchange
        requires sends { 1 ≤ limits.sends }
        requires quiets { 1 ≤ limits.quiets }
        ensures value { result ≡ after_sending asked limits 1 }
        ensures stands { StandsFor result [] }
    {
        Exchange {
            asked,
            limits,
            sent: 1,
            due: u32::from(limits.quiets),
            heard: 0,
        }
    }

    /// Judges a packet: whether it is a reply to the request, or a delivery failure for it. A please-wait of the station
    /// for the request sets the quiet ticks that are still to be heard to the limit and its seconds, at most 60. After
    /// `Answer` the exchange still waits, so that a reply that doesn't serve can be passed over.
    pub fn hear(&mut self, header: &Header, message: &[u8]) -> Step
        ensures means { Means self.old.asked header.now message.now result }
        ensures hears { Hears self.old header.now message.now self.new }
        ensures stands { (inputs : List Input) → StandsFor self.old inputs
            → StandsFor self.new (inputs ++ Packet header.now message.now ∷ []) }
        ensures few { self.new.due ≤ self.new.limits.quiets + 60 }
    {
        let step = meaning(&self.asked, header, message);
        self.heed(header, message);
        step
    }

    // Heeds a please-wait.
    fn heed(&mut self, header: &Header, message: &[u8])
        ensures hears { Hears self.old header.now message.now self.new }
        ensures few { self.new.due ≤ self.new.limits.quiets + 60 }
    {
        let Some(seconds) = seconds_to_wait(&self.asked, header, message) else {
            return;
        };
        self.due = u32::from(self.limits.quiets) + u32::from(seconds.min(WAIT_MAX));
    }

    /// Counts a quiet tick. `Resend` counts as a sending.
    pub fn quiet(&mut self) -> Step
        ensures ticks { Ticks self.old result self.new }
        ensures stands { (inputs : List Input) → StandsFor self.old inputs
            → StandsFor self.new (inputs ++ Tick ∷ []) }
    {
        self.tick()
    }

    // Takes a tick from those that are still to be heard, or begins anew, or has none left.
    fn tick(&mut self) -> Step
        ensures { Ticks self.old result self.new }
    {
        if self.due > 1 {
            self.due -= 1;
            return Step::Wait;
        }
        if self.sent < self.limits.sends {
            self.sent += 1;
            self.due = u32::from(self.limits.quiets);
            self.heard = 0;
            return Step::Resend;
        }
        self.due = 0;
        Step::NoAnswer
    }

    /// Counts bytes that were heard.
    pub fn bytes(&mut self, n: usize) -> Step
        ensures counts { Counts self.new.heard result }
        ensures counted { self.new ≡ record self.old { heard = min (self.old.heard + n) usize.MAX } }
        ensures stands { (inputs : List Input) → StandsFor self.old inputs
            → StandsFor self.new (inputs ++ Bytes n ∷ []) }
    {
        self.count(n);
        if self.heard >= FLOOD {
            Step::Flooded
        } else {
            Step::Wait
        }
    }

    fn count(&mut self, n: usize)
        ensures { self.new ≡ record self.old { heard = min (self.old.heard + n) usize.MAX } }
    {
        self.heard = self.heard.saturating_add(n);
    }
}
