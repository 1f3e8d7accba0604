//! A station on a link.
ghost use Rattle.std.specs.Prelude.{◌≡◌, ◌+◌, ◌<◌, ◌≤◌, ◌∷◌, [], List, Some, length, take, drop, MatchOption};
ghost use Rattle.pb_base.specs.World.{World};
ghost use Rattle.pb_frame.specs.Hearing.{Follows};
ghost use Rattle.pb_io.specs.Site.{GrowsBy};
ghost use Rattle.pb_station.specs.State.{State, StandsFor};
ghost use Rattle.pb_serve.specs.Inside.{Counts, GoesFurther, GoesOn, IsAlive, IsGoing, Leads, LeadsByte, Stands, IsHandled, passed};
ghost use Rattle.pb_serve.specs.Serving.{Ends};
ghost use Rattle.pb_serve.specs.Talks.{Talks};

use crate::goal::Goal;
use crate::reply::send_reply;
use pb_frame::{Heard, Unframer};
use pb_io::Site;
use pb_station::Station;
use std::marker::Model;

/// How many bytes are asked of the link at once.
pub const CHUNK: usize = 4096;

/// So many bytes without a good frame are a flood.
pub const FLOOD: u32 = 1_048_576;

/// So many quiet ticks in a row end it.
pub const IDLE: u32 = 600;

/// How it ended.
#[derive(Clone, Copy, Debug, PartialEq, Eq)]
pub enum End {
    /// So many good frames came as were waited for, and all were answered.
    Done,
    /// So many ticks in a row were quiet.
    Idle,
    /// So many bytes came without a good frame.
    Flooded,
    /// A call of the link failed.
    LinkFault,
}

/// How many bytes were judged, and whether that ended it.
#[derive(Clone, Copy)]
struct Step {
    taken: usize,
    end: Option<End>,
}

/// A station, and what was heard of its link.
#[derive(Drop)]
pub struct Server {
    ear: Unframer,
    station: Station,
    goal: u32,
    good: u32,
    since: u32,
    quiets: u32,
}

impl Model for Server {
    ghost use Rattle.pb_serve.specs.Inside.{Kept, IsKept, server_view};

    ghost Value = { Kept };

    ghost view = { server_view };

    ghost invariant = { λ s. IsKept (server_view s) };
}

impl Server {
    /// A station on a link of which nothing was heard, which is to hear so many good frames.
    pub fn new(station: Station, goal: Goal) -> Server
        ensures starts { (state : State) → StandsFor station state → Stands state result [] [] }
        ensures going { IsGoing result }
        ensures goal { result.goal ≡ goal }
        ensures station { result.station ≡ station }
    {
        Server {
            ear: Unframer::new(),
            station,
            goal: goal.get(),
            good: 0,
            since: 0,
            quiets: 0,
        }
    }

    /// Hears and answers until one of the ends comes. Each call of the link takes 4,096 bytes at most, and what a good frame
    /// is owed is sent before the next byte is judged. It takes no memory.
    pub fn run<S: Site>(&mut self, site: &mut S) -> End
        requires going { IsGoing self.old }
        requires alive { IsAlive self.old }
        ensures ends { (first : State) → Stands first self.old [] []
            → (w : World) × GrowsBy (S.view site.old).link.world (S.view site.new).link.world w
            × Ends first self.old.goal w result }
        ensures talks { Talks (S.view site.old) (S.view site.new) }
        ensures faults { Counts (Some result) (S.view site.old).link.faults (S.view site.new).link.faults }
    {
        let mut chunk = [0; CHUNK];
        loop {
            let n = match site.recv(&mut chunk) {
                Ok(n) => n,
                Err(_) => return End::LinkFault,
            };
            if let Some(end) = self.take(site, &chunk[..n]) {
                return end;
            }
        }
    }

    // Judges what came of one call; nothing is a quiet tick.
    fn take<S: Site>(&mut self, site: &mut S, bytes: &[u8]) -> Option<End>
        requires going { IsGoing self.old }
        requires alive { IsAlive self.old }
        requires few { length bytes.now ≤ CHUNK }
        ensures takes { (first : State) (w : World) → Stands first self.old w []
            → IsHandled first self.old.goal w bytes.now (S.view site.old).link (S.view site.new).link
            result self.new }
        ensures goes { GoesFurther result self.old self.new }
        ensures talks { Talks (S.view site.old) (S.view site.new) }
        ensures faults { Counts result (S.view site.old).link.faults (S.view site.new).link.faults }
    {
        if bytes.is_empty() {
            return self.tick();
        }
        self.quiets = 0;
        self.hear(site, bytes)
    }

    // A quiet tick.
    fn tick(&mut self) -> Option<End>
        requires { IsGoing self.old }
        ensures quiets { self.new ≡ record self.old { quiets = self.old.quiets + 1 } }
        ensures ends { MatchOption result (IsGoing self.new)
            (λ end. (end ≡ End.Idle) × (self.new.quiets ≡ IDLE)) }
    {
        self.quiets += 1;
        if self.quiets == IDLE {
            return Some(End::Idle);
        }
        None
    }

    // Judges bytes.
    fn hear<S: Site>(&mut self, site: &mut S, bytes: &[u8]) -> Option<End>
        requires going { IsGoing self.old }
        requires alive { IsAlive self.old }
        ensures leads { (first : State) (w : World) → Stands first self.old w bytes.now
            → Leads first self.old.goal w (S.view site.old).link (S.view site.new).link result
            self.new [] }
        ensures goes { GoesOn result (length bytes.now) self.old self.new }
        ensures talks { Talks (S.view site.old) (S.view site.new) }
        ensures faults { Counts result (S.view site.old).link.faults (S.view site.new).link.faults }
    {
        let mut rest = bytes;
        while rest.len() != 0 {
            let step = self.step(site, rest);
            if let Some(end) = step.end {
                return Some(end);
            }
            rest = &rest[step.taken..];
        }
        None
    }

    // Takes a run of bytes that end no frame, or judges one byte.
    fn step<S: Site>(&mut self, site: &mut S, bytes: &[u8]) -> Step
        requires going { IsGoing self.old }
        requires alive { IsAlive self.old }
        requires some { 0 < length bytes.now }
        ensures taken { (0 < result.taken) × (result.taken ≤ length bytes.now) }
        ensures leads { (first : State) (w : World) → Stands first self.old w bytes.now
            → Leads first self.old.goal w (S.view site.old).link (S.view site.new).link result.end
            self.new (drop result.taken bytes.now) }
        ensures goes { GoesOn result.end result.taken self.old self.new }
        ensures talks { Talks (S.view site.old) (S.view site.new) }
        ensures faults { Counts result.end (S.view site.old).link.faults (S.view site.new).link.faults }
    {
        let taken = self.pass(bytes);
        if taken != 0 {
            return Step {
                taken,
                end: self.flooded(),
            };
        }
        Step {
            taken: 1,
            end: self.judge(site, bytes[0]),
        }
    }

    // Whether so many bytes came without a good frame.
    fn flooded(&self) -> Option<End>
        ensures { MatchOption result (self.now.since < FLOOD)
            (λ end. (end ≡ End.Flooded) × (self.now.since ≡ FLOOD)) }
    {
        if self.since >= FLOOD {
            return Some(End::Flooded);
        }
        None
    }

    // Takes bytes that end no frame, at most up to a flood, and answers how many these are.
    fn pass(&mut self, bytes: &[u8]) -> usize
        requires { IsGoing self.old }
        ensures front { result ≤ length bytes.now }
        ensures room { self.old.since + result ≤ FLOOD }
        ensures passed { self.new ≡ passed self.new.ear result self.old }
        ensures follows { Follows self.old.ear (take result bytes.now) [] self.new.ear }
    {
        let room = (FLOOD - self.since) as usize;
        let n = self.ear.take_plain(&bytes[..bytes.len().min(room)]);
        self.since += n as u32;
        n
    }

    // Judges one byte.
    fn judge<S: Site>(&mut self, site: &mut S, byte: u8) -> Option<End>
        requires going { IsGoing self.old }
        requires alive { IsAlive self.old }
        ensures leads { LeadsByte byte self.old (S.view site.old).link (S.view site.new).link result
            self.new }
        ensures goes { GoesOn result 1 self.old self.new }
        ensures talks { Talks (S.view site.old) (S.view site.new) }
        ensures faults { Counts result (S.view site.old).link.faults (S.view site.new).link.faults }
    {
        match self.ear.push(byte) {
            Heard::Nothing => {
                self.since += 1;
                self.flooded()
            }
            Heard::Bad { .. } => {
                self.since += 1;
                self.flooded()
            }
            Heard::Body { .. } => {
                self.good += 1;
                self.since = 0;
                match send_reply(site, &mut self.station, self.ear.content()) {
                    Ok(()) => self.done(),
                    Err(_) => Some(End::LinkFault),
                }
            }
        }
    }

    // Whether all good frames came.
    fn done(&self) -> Option<End>
        ensures { MatchOption result (self.now.good < self.now.goal)
            (λ end. (end ≡ End.Done) × (self.now.good ≡ self.now.goal)) }
    {
        if self.good == self.goal {
            return Some(End::Done);
        }
        None
    }
}
