//! A site in memory, with faults at calls of choice.
ghost use Rattle.std.specs.Prelude.{◌≡◌, ◌+◌, ◌<◌, ◌≤◌, min, [], ◌∷◌, ◌++◌, length, take, drop, slice_get, Some, IfOk, OnOk, OnErr, IsErr, IsTrue, is_err};
ghost use Rattle.std.specs.Option.{option_copied};
ghost use Rattle.pb_base.specs.World.{sent};
ghost use Rattle.pb_io.specs.Calls.{is_listed, after_call, no_calls};
ghost use Rattle.pb_io.specs.Crash.{max_file_len, overlaid, Torn, Shortened, AriseBy, Within, Changes};
ghost use Rattle.pb_io.specs.Disk.{ReadsOnly};
ghost use Rattle.pb_io.specs.DiskLaws.{disk_is_lawful};
ghost use Rattle.pb_io.specs.DiskLog.{Cut, Synced, Wrote, after_change, after_look, file_now, world_of};
ghost use Rattle.pb_io.specs.Faults.{HasCause};
ghost use Rattle.pb_io.specs.InMemory.{site_view};
ghost use Rattle.pb_io.specs.Inbox.{next_chunk, without};
ghost use Rattle.pb_io.specs.Settled.{IsSettled};
ghost use Rattle.pb_io.specs.Site.{Sends, Receives, Ticks};
ghost use Rattle.pb_io.specs.View.{Elapses};

use crate::fault_plan::FaultPlan;
use crate::inbox::Inbox;
use crate::{Disk, Failed, MemDisk, Site};
use pb_base::Memory;
use std::alloc::Global;
use std::marker::Model;

/// A site in memory over a disk in memory. It is given what it will hear. Its world has what was sent, heard and quiet,
/// in their order, after what had happened before it was made.
#[derive(Drop)]
pub struct MemSite {
    alloc: Global,
    disk: MemDisk,
    plan: FaultPlan,
    inbox: Inbox,
    quiets: u64,
}

impl Model for MemSite {
    ghost use Rattle.pb_io.specs.InMemory.{Place};

    ghost Value = { Place };

    ghost view = { λ s. record { disk = s.disk; calls = s.plan; waiting = s.inbox; quiets = s.quiets } };
}

impl MemSite {
    /// A site with this disk. The calls of `send` and `recv` together whose numbers, from
    /// 0, stand in `fails` fail; they count too. The disk counts its own.
    pub fn new(alloc: Global, disk: MemDisk, fails: &[u64]) -> Result<MemSite, Memory>
        ensures { IfOk result (λ s. s ≡ record
            { disk = disk; calls = no_calls fails.now; waiting = []; quiets = 0 }) }
    {
        Ok(MemSite {
            alloc,
            disk,
            plan: FaultPlan::new(alloc, fails).map_err(|_| Memory)?,
            inbox: Inbox::new(alloc),
            quiets: 0,
        })
    }

    /// Adds a chunk at the end of what the site is to hear. Each `recv` gives of the next chunk alone; an empty chunk
    /// is a quiet tick, and so is the end of the list.
    pub fn hears(&mut self, chunk: &[u8]) -> Result<(), Memory>
        ensures added { OnOk result (self.new
            ≡ record self.old { waiting = self.old.waiting ++ chunk.now ∷ [] }) }
        ensures same { OnErr result (self.new ≡ self.old) }
    {
        self.inbox.push(self.alloc, chunk).map_err(|_| Memory)
    }

    /// The n-th frame that was sent, from 0; `None` where there are fewer.
    pub fn sent(&self, n: usize) -> Option<&[u8]>
        ensures { option_copied result ≡ slice_get (sent (world_of self.now.disk.changes)) n }
    {
        self.disk.frame(n)
    }
}

impl Disk for MemSite {
    ghost view = { site_view };

    fn len(&mut self) -> Result<u64, Failed>
        ensures value { IfOk result (λ n. n ≡ length (file_now self.old.disk)) }
        ensures bound { IfOk result (λ n. n ≤ max_file_len) }
        ensures disk { ReadsOnly (site_view self.old) (site_view self.new) }
        ensures link { (site_view self.new).link ≡ (site_view self.old).link }
        ensures time { Elapses (site_view self.old) (site_view self.new) }
        ensures cause { HasCause self.old.disk.calls.faults self.new.disk.calls.faults result }
        ensures listed { is_err result ≡ is_listed self.old.disk.calls }
        ensures state { self.new ≡ record self.old { disk = after_look self.old.disk (is_err result) } }
    {
        self.disk.len()
    }

    fn read_at(&mut self, at: u64, to: &mut [u8]) -> Result<(), Failed>
        requires { at + length to.old ≤ length (file_now self.old.disk) }
        ensures bytes { OnOk result (to.new ≡ take (length to.old) (drop at (file_now self.old.disk))) }
        ensures disk { ReadsOnly (site_view self.old) (site_view self.new) }
        ensures link { (site_view self.new).link ≡ (site_view self.old).link }
        ensures time { Elapses (site_view self.old) (site_view self.new) }
        ensures cause { HasCause self.old.disk.calls.faults self.new.disk.calls.faults result }
        ensures listed { is_err result ≡ is_listed self.old.disk.calls }
        ensures state { self.new ≡ record self.old { disk = after_look self.old.disk (is_err result) } }
    {
        self.disk.read_at(at, to)
    }

    /// Takes memory; a call that finds none is a counted fault and changes nothing.
    fn write_at(&mut self, at: u64, from: &[u8]) -> Result<(), Failed>
        requires { at ≤ length (file_now self.old.disk) }
        ensures written { OnOk result ((site_view self.new).file
            ≡ Some (overlaid (file_now self.old.disk) at from.now)) }
        ensures bound { OnOk result (at + length from.now ≤ max_file_len) }
        ensures file { Changes (Torn at (length from.now)) (site_view self.old).file
            (site_view self.new).file }
        ensures images { AriseBy (Torn at (length from.now)) (site_view self.old).image
            (site_view self.new).image }
        ensures link { (site_view self.new).link ≡ (site_view self.old).link }
        ensures time { Elapses (site_view self.old) (site_view self.new) }
        ensures cause { HasCause self.old.disk.calls.faults self.new.disk.calls.faults result }
        ensures listed { IsTrue (is_listed self.old.disk.calls) → IsErr result }
        ensures state { self.new ≡ record self.old
            { disk = after_change self.old.disk (Wrote at from.now) (is_err result) } }
    {
        self.disk.write_at(at, from)
    }

    /// Takes memory; a call that finds none is a counted fault and changes nothing.
    fn cut(&mut self, len: u64) -> Result<(), Failed>
        requires { len ≤ length (file_now self.old.disk) }
        ensures shortened { OnOk result ((site_view self.new).file
            ≡ Some (take len (file_now self.old.disk))) }
        ensures file { Changes (Shortened len) (site_view self.old).file (site_view self.new).file }
        ensures images { AriseBy (Shortened len) (site_view self.old).image (site_view self.new).image }
        ensures link { (site_view self.new).link ≡ (site_view self.old).link }
        ensures time { Elapses (site_view self.old) (site_view self.new) }
        ensures cause { HasCause self.old.disk.calls.faults self.new.disk.calls.faults result }
        ensures listed { IsTrue (is_listed self.old.disk.calls) → IsErr result }
        ensures state { self.new ≡ record self.old
            { disk = after_change self.old.disk (Cut len) (is_err result) } }
    {
        self.disk.cut(len)
    }

    /// Takes memory; a call that finds none is a counted fault and settles nothing.
    fn sync(&mut self) -> Result<(), Failed>
        ensures settled { OnOk result (IsSettled (site_view self.new)) }
        ensures unsettled { OnErr result (Within (site_view self.new).image (site_view self.old).image) }
        ensures file { (site_view self.new).file ≡ (site_view self.old).file }
        ensures images { Within (site_view self.old).image (site_view self.new).image }
        ensures link { (site_view self.new).link ≡ (site_view self.old).link }
        ensures time { Elapses (site_view self.old) (site_view self.new) }
        ensures cause { HasCause self.old.disk.calls.faults self.new.disk.calls.faults result }
        ensures listed { IsTrue (is_listed self.old.disk.calls) → IsErr result }
        ensures state { self.new ≡ record self.old
            { disk = after_change self.old.disk Synced (is_err result) } }
    {
        self.disk.sync()
    }

    ghost lawful = { λ s. disk_is_lawful s.disk s.calls.faults s.quiets };
}

impl Site for MemSite {
    /// Takes memory; a call that finds none is a counted fault and sends nothing.
    fn send(&mut self, frame: &[u8]) -> Result<(), Failed>
        ensures world { Sends (site_view self.old).link.world (site_view self.new).link.world
            frame.now result }
        ensures quiets { self.new.quiets ≡ self.old.quiets }
        ensures disk { ReadsOnly (site_view self.old) (site_view self.new) }
        ensures disk_faults { self.new.disk.calls.faults ≡ self.old.disk.calls.faults }
        ensures time { Elapses (site_view self.old) (site_view self.new) }
        ensures cause { HasCause self.old.calls.faults self.new.calls.faults result }
        ensures listed { IsTrue (is_listed self.old.calls) → IsErr result }
        ensures calls { self.new.calls ≡ after_call self.old.calls (is_err result) }
        ensures waiting { self.new.waiting ≡ self.old.waiting }
        ensures unchanged { OnErr result (self.new.disk ≡ self.old.disk) }
    {
        self.plan.call()?;
        let Ok(()) = self.disk.sent(frame) else {
            return Err(self.plan.fault());
        };
        Ok(())
    }

    /// Takes memory; a call that finds none is a counted fault and takes nothing.
    fn recv(&mut self, to: &mut [u8]) -> Result<usize, Failed>
        ensures bound { IfOk result (λ n. n ≤ length to.old) }
        ensures world { Receives (site_view self.old).link.world (site_view self.new).link.world
            to.new result }
        ensures quiets { Ticks self.old.quiets self.new.quiets result }
        ensures disk { ReadsOnly (site_view self.old) (site_view self.new) }
        ensures disk_faults { self.new.disk.calls.faults ≡ self.old.disk.calls.faults }
        ensures time { Elapses (site_view self.old) (site_view self.new) }
        ensures cause { HasCause self.old.calls.faults self.new.calls.faults result }
        ensures listed { IsTrue (is_listed self.old.calls) → IsErr result }
        ensures taken { IfOk result (λ n. n ≡ min (length to.old) (length (next_chunk self.old.waiting))) }
        ensures given { IfOk result (λ n. take n to.new ≡ take n (next_chunk self.old.waiting)) }
        ensures left { IfOk result (λ n. self.new.waiting ≡ without n self.old.waiting) }
        ensures failed { OnErr result (self.new.waiting ≡ self.old.waiting) }
        ensures calls { self.new.calls ≡ after_call self.old.calls (is_err result) }
        ensures unchanged { OnErr result (self.new.disk ≡ self.old.disk) }
    {
        self.plan.call()?;
        let chunk = self.inbox.next();
        let n = chunk.len().min(to.len());
        let Ok(()) = self.disk.received(&chunk[..n]) else {
            return Err(self.plan.fault());
        };
        to[..n].copy_from_slice(&chunk[..n]);
        self.inbox.take(n);
        if n == 0 {
            self.quiets = self.quiets.saturating_add(1);
        }
        Ok(n)
    }
}
