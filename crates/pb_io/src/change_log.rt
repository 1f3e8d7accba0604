//! What was done to a disk in memory, and what happened on the link of a site over it, in one order.
ghost use Rattle.std.specs.Prelude.{◌≡◌, [], ◌∷◌, slice_get, OnOk, OnErr};
ghost use Rattle.std.specs.Option.{option_copied};
ghost use Rattle.pb_base.specs.World.{Sent, sent};
ghost use Rattle.pb_io.specs.ChangeLog.{arrival, change_of, event_count};
ghost use Rattle.pb_io.specs.DiskLog.{Cut, Linked, Synced, Wrote, world_of};
ghost use Rattle.pb_io.specs.Events.{events_of, world_in};

use crate::Event;
use std::alloc::{AllocError, Global};
use std::marker::Model;

#[derive(Drop)]
enum Entry {
    Wrote(u64, Vec<u8>),
    Cut(u64),
    Synced,
    // so many of the events, at one moment
    Linked(usize),
}

#[derive(Drop)]
pub struct ChangeLog {
    entries: Vec<Entry>,
    events: Vec<Event>,
}

impl Model for ChangeLog {
    ghost use Rattle.std.specs.Prelude.{◌≡◌, List, [], length};
    ghost use Rattle.pb_io.specs.DiskLog.{Change};

    ghost Value = { List Change };

    ghost use Rattle.pb_io.specs.ChangeLog.{changes_after, event_counts};

    ghost view = { λ l. changes_after [] l.events.items l.entries.items };

    ghost invariant = { λ l. event_counts l.entries.items ≡ length l.events.items };
}

impl ChangeLog {
    pub fn new(alloc: Global) -> ChangeLog
        ensures { result ≡ [] }
    {
        ChangeLog {
            entries: Vec::new(alloc),
            events: Vec::new(alloc),
        }
    }

    pub fn wrote(&mut self, alloc: Global, at: u64, bytes: &[u8]) -> Result<(), AllocError>
        ensures added { OnOk result (self.new ≡ Wrote at bytes.now ∷ self.old) }
        ensures same { OnErr result (self.new ≡ self.old) }
    {
        self.push(Entry::Wrote(at, Vec::from_slice(alloc, bytes)?))
    }

    pub fn cut(&mut self, len: u64) -> Result<(), AllocError>
        ensures added { OnOk result (self.new ≡ Cut len ∷ self.old) }
        ensures same { OnErr result (self.new ≡ self.old) }
    {
        self.push(Entry::Cut(len))
    }

    pub fn synced(&mut self) -> Result<(), AllocError>
        ensures added { OnOk result (self.new ≡ Synced ∷ self.old) }
        ensures same { OnErr result (self.new ≡ self.old) }
    {
        self.push(Entry::Synced)
    }

    /// Events happened, all at one moment.
    #[tactic(auto, using(crate::proofs::ChangeLogLemmas::linked, crate::proofs::ChangeLogLemmas::counts_linked))]
    pub fn linked(&mut self, mut events: Vec<Event>) -> Result<(), AllocError>
        ensures added { OnOk result (self.new ≡ Linked (world_in events.items) ∷ self.old) }
        ensures same { OnErr result (self.new ≡ self.old) }
    {
        self.entries.reserve(1)?;
        let count = events.len();
        self.events.append(&mut events)?;
        self.entries.push_reserved(Entry::Linked(count));
        Ok(())
    }

    /// A frame was sent.
    pub fn sent(&mut self, alloc: Global, frame: &[u8]) -> Result<(), AllocError>
        ensures added { OnOk result (self.new ≡ Linked (Sent frame.now ∷ []) ∷ self.old) }
        ensures same { OnErr result (self.new ≡ self.old) }
    {
        self.happened(Event::Sent(Vec::from_slice(alloc, frame)?))
    }

    /// Bytes came, or where there are none a tick was quiet.
    pub fn received(&mut self, alloc: Global, bytes: &[u8]) -> Result<(), AllocError>
        ensures added { OnOk result (self.new ≡ Linked (arrival bytes.now) ∷ self.old) }
        ensures same { OnErr result (self.new ≡ self.old) }
    {
        if bytes.is_empty() {
            return self.happened(Event::Quiet);
        }
        self.happened(Event::Heard(Vec::from_slice(alloc, bytes)?))
    }

    /// The n-th frame that was sent, from 0; `None` where there are fewer.
    #[tactic(auto, using(crate::proofs::ChangeLogLemmas::world_kept))]
    pub fn frame(&self, n: usize) -> Option<&[u8]>
        ensures { option_copied result ≡ slice_get (sent (world_of self.now)) n }
    {
        nth_sent(&self.events, n)
    }

    /// All that happened on the link.
    #[tactic(auto, using(crate::proofs::ChangeLogLemmas::world_kept))]
    pub fn into_events(self) -> Vec<Event>
        ensures { world_in result.items ≡ world_of self }
    {
        self.events
    }

    #[tactic(auto, using(crate::proofs::ChangeLogLemmas::pushed, crate::proofs::ChangeLogLemmas::counts_pushed))]
    fn push(&mut self, entry: Entry) -> Result<(), AllocError>
        requires { event_count entry ≡ 0 }
        ensures added { OnOk result (self.new ≡ change_of entry [] ∷ self.old) }
        ensures same { OnErr result (self.new ≡ self.old) }
    {
        self.entries.push(entry)?;
        Ok(())
    }

    #[tactic(auto, using(crate::proofs::ChangeLogLemmas::happened, crate::proofs::ChangeLogLemmas::counts_linked))]
    fn happened(&mut self, event: Event) -> Result<(), AllocError>
        ensures added { OnOk result (self.new ≡ Linked (events_of event) ∷ self.old) }
        ensures same { OnErr result (self.new ≡ self.old) }
    {
        self.entries.reserve(1)?;
        self.events.push(event)?;
        self.entries.push_reserved(Entry::Linked(1));
        Ok(())
    }
}

fn nth_sent(events: &[Event], n: usize) -> Option<&[u8]>
    ensures { option_copied result ≡ slice_get (sent (world_in events.now)) n }
{
    let mut before = n;
    for event in events {
        if let Event::Sent(frame) = event {
            if before == 0 {
                return Some(frame);
            }
            before -= 1;
        }
    }
    None
}
