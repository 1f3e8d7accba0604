//! The collecting of one table as a machine: answers in, advances and requests out. It reads and writes nothing.
ghost use Rattle.std.specs.Prelude.{◌≡◌, ◌+◌, ◌-◌, ◌^◌, ◌<◌, ◌≤◌, ◌++◌, false};
ghost use Rattle.pb_base.specs.Record.{content_len};
ghost use Rattle.pb_bmp5.specs.CollectReply.{seen_of, whole};
ghost use Rattle.pb_truth.specs.Keeping.{advances};
ghost use Rattle.pb_truth.specs.Learning.{Known, taken};
ghost use Rattle.pb_collect.specs.Ends as ends;
ghost use Rattle.pb_collect.specs.Effects.{seen_advance};
ghost use Rattle.pb_collect.specs.Inside as inside;
ghost use Rattle.pb_collect.specs.Progress as specs;

use crate::answer::Said;
use crate::effect::{Advance, Effect, Effects, TIMED, WHOLE};
use crate::ending::{End, Next, REDEFINED};
use pb_ask::Conclusion;
use pb_base::{Layout, Memory, Nsec, RecNo};
use pb_bmp5::{Fragment, Mode};
use pb_record::{Added, Partial};
use std::alloc::Global;
use std::marker::Model;

/// How far a table came in a round: its front, the bytes so far of a partial record, and the requests made. The room for
/// the bytes is taken once, when the value is made.
#[derive(Drop)]
pub struct Progress {
    layout: Layout,
    front: u32,
    is_partial: bool,
    partial: Partial,
    had: u32,
    asked: u32,
}

impl Model for Progress {
    ghost use Rattle.pb_collect.specs.Inside.{progress_of, IsProgress};
    ghost use Rattle.pb_collect.specs.Progress as specs;

    ghost Value = { specs.Progress };

    ghost view = { progress_of };

    ghost invariant = { IsProgress };
}

/// The most bytes of a content: eight of its time and 16,384 field bytes.
pub const CONTENT_MAX: u32 = 16_392;

// A layout with the shortest content.
const SHORTEST: Layout = Layout {
    record_len: 0,
    event: true,
    interval: Nsec { sec: 0, nano: 0 },
};

impl Progress {
    /// Room for one content of any table; takes memory.
    pub fn new(alloc: Global) -> Result<Progress, Memory> {
        let partial = Partial::with_room(alloc, CONTENT_MAX)?;
        Ok(Progress {
            layout: SHORTEST,
            front: 0,
            is_partial: false,
            partial,
            had: 0,
            asked: 0,
        })
    }

    /// Begins a table with this front. Nothing was asked, and no record is partial.
    pub fn begin(&mut self, layout: Layout, front: RecNo)
        requires { content_len layout ≤ specs.content_max }
        ensures { self.new ≡ specs.begun self.old layout front.0 }
    {
        self.layout = layout;
        self.front = front.0;
        self.is_partial = false;
        self.had = 0;
        self.asked = 0;
    }

    /// Makes a request: for the rest of a partial record, else for the records from the front on.
    pub fn ask(&mut self) -> Mode
        requires { self.old.asked < 2 ^ 32 - 1 }
        ensures asked { self.new ≡ ends.asked_once_more self.old }
        ensures question { result ≡ specs.question self.new }
    {
        self.asked += 1;
        if self.is_partial {
            self.had = self.partial.have();
            return Mode::Part(self.front, self.had);
        }
        self.had = 0;
        Mode::From(self.front)
    }

    /// Takes in the next fragment of an answer that fits and has response code 0, and says what is to be added for it: for
    /// whole records the run as it came; for a part first the gap, where it begins above the front, and the content, where
    /// it makes the record whole. An answer without records adds nothing.
    pub fn take<'a>(&mut self, fragment: &Fragment<'a>) -> Effects<'a>
        requires { specs.CanTake self.old (seen_of fragment.now) }
        ensures effects { (k : Known) → specs.IsAt self.old k
            → specs.advances_in self.old.layout self.new.joined result
            ≡ advances self.old.layout k (seen_of fragment.now) }
        ensures known { (k : Known) → specs.IsAt self.old k
            → specs.IsAt self.new (taken self.old.layout k (seen_of fragment.now)) }
        ensures after { self.new ≡ specs.after self.old (seen_of fragment.now) }
        ensures exactly { result ≡ inside.effects_of self.old fragment.now }
    {
        match *fragment {
            Fragment::Whole {
                first,
                count,
                bytes,
            } => self.take_run(first, count, bytes),
            Fragment::Part {
                number,
                offset,
                bytes,
            } => self.take_part(number, offset, bytes),
        }
    }

    // Takes in a run of whole records.
    fn take_run<'a>(&mut self, first: RecNo, count: u16, bytes: &'a [u8]) -> Effects<'a>
        requires { specs.CanTake self.old (whole first.0 count bytes.now) }
        ensures effects { result ≡ inside.run_effects first count bytes.entry }
        ensures after { self.new ≡ specs.after self.old (whole first.0 count bytes.now) }
    {
        if count == 0 {
            return Effects {
                gap: None,
                kept: None,
            };
        }
        self.front = first.0 + u32::from(count);
        Effects {
            gap: None,
            kept: Some(Effect::Run {
                first,
                count,
                bytes,
            }),
        }
    }

    // Takes in a part that goes on with the partial record, or begins one.
    fn take_part<'a>(&mut self, number: RecNo, offset: u32, bytes: &[u8]) -> Effects<'a>
        requires { specs.IsNextPart self.old number.0 offset bytes.now }
        ensures effects { result ≡ inside.part_effects self.old number
            (specs.partial_bytes self.old ++ bytes.now) }
        ensures after { self.new ≡ specs.after_bytes self.old number.0
            (specs.partial_bytes self.old ++ bytes.now) }
    {
        let gap = self.gap_before(number);
        if !self.is_partial {
            self.partial.begin(number, self.layout.content_len() as u32);
        }
        let is_whole = self.partial.add(number, offset, bytes) == Added::Whole;
        self.is_partial = !is_whole;
        if !is_whole {
            self.front = number.0;
            return Effects { gap, kept: None };
        }
        self.front = number.0 + 1;
        Effects {
            gap,
            kept: Some(Effect::Content { number }),
        }
    }

    // The gap that a part of a record above the front leaves before it.
    fn gap_before<'a>(&self, number: RecNo) -> Option<Effect<'a>>
        ensures { result ≡ inside.gap_before self.now.front number }
    {
        if number.0 <= self.front {
            return None;
        }
        Some(Effect::Gap { to: number })
    }

    /// What comes next after a request ended; at most so many requests are made.
    pub fn next(&mut self, budget: u32, conclusion: Conclusion<Said>) -> Next
        requires { self.old.asked ≤ budget }
        ensures { ends.Comes budget self.old conclusion result self.new }
    {
        match conclusion {
            Conclusion::Answer(said) if said.resp == REDEFINED => Next::Stop,
            Conclusion::Answer(said) if said.resp != 0 => Next::Ends(End::Refused(said.resp)),
            Conclusion::Undelivered(code) => Next::Ends(End::Undelivered(code)),
            Conclusion::Flooded => Next::Ends(End::Flooded),
            Conclusion::NoAnswer => Next::Ends(End::NoAnswer),
            Conclusion::Answer(said) if !said.more && !self.is_partial => Next::Ends(End::Done),
            Conclusion::Answer(_) if self.asked == budget => Next::Ends(End::Budget),
            Conclusion::Answer(_) => Next::Ask(self.ask_on()),
        }
    }

    // Makes the next request. A partial record of which nothing came is given up: it is asked for anew.
    fn ask_on(&mut self) -> Mode
        requires { self.old.asked < 2 ^ 32 - 1 }
        ensures asked { self.new ≡ ends.asked_once_more (ends.kept_partial self.old) }
        ensures question { result ≡ specs.question self.new }
    {
        if self.is_partial && self.partial.have() <= self.had {
            self.is_partial = false;
        }
        self.ask()
    }

    /// The requests made so far.
    pub fn asked(&self) -> u32
        ensures { result ≡ self.now.asked }
    {
        self.asked
    }

    /// How the table's records are cut.
    pub fn layout(&self) -> Layout
        ensures { result ≡ self.now.layout }
    {
        self.layout
    }

    /// The content that was joined last; right after an effect `Content` it is that record's.
    pub fn joined(&self) -> &[u8]
        ensures { result.now ≡ self.now.joined }
    {
        self.partial.bytes()
    }

    /// The advance of an effect of the fragment that was taken in last.
    pub fn advance<'a>(&'a self, effect: Effect<'a>) -> Advance<'a>
        ensures { seen_advance result ≡ specs.advance_of self.now.layout self.now.joined effect.entry }
    {
        match effect {
            Effect::Gap { to } => Advance {
                form: WHOLE,
                first: to,
                count: 0,
                bytes: &[],
            },
            Effect::Run {
                first,
                count,
                bytes,
            } => Advance {
                form: if self.layout.event { WHOLE } else { TIMED },
                first,
                count,
                bytes,
            },
            Effect::Content { number } => Advance {
                form: WHOLE,
                first: number,
                count: 1,
                bytes: self.partial.bytes(),
            },
        }
    }
}
