//! A disk in memory, with faults at calls of choice.
ghost use Rattle.std.specs.Prelude.{◌≡◌, ℕ, ◌+◌, ◌≤◌, [], ◌∷◌, ◌++◌, length, take, drop, vec_len, vec_capacity, slice_get, Some, IsTrue, IsErr, is_err, IfOk, OnOk, OnErr};
ghost use Rattle.std.specs.Option.{option_copied};
ghost use Rattle.pb_base.specs.World.{Sent, sent};
ghost use Rattle.pb_io.specs.Calls.{is_listed, no_calls};
ghost use Rattle.pb_io.specs.ChangeLog.{arrival};
ghost use Rattle.pb_io.specs.Crash.{max_file_len, overlaid, Torn, Shortened, AriseBy, Within, Changes};
ghost use Rattle.pb_io.specs.Disk.{ReadsOnly};
ghost use Rattle.pb_io.specs.DiskLaws.{disk_is_lawful};
ghost use Rattle.pb_io.specs.DiskLog.{Cut, Linked, Synced, Wrote, after_change, after_look, disk_in, disk_view, file_now, world_of};
ghost use Rattle.pb_io.specs.Events.{world_in};
ghost use Rattle.pb_io.specs.Faults.{HasCause};
ghost use Rattle.pb_io.specs.Settled.{IsSettled};
ghost use Rattle.pb_io.specs.View.{Elapses};

use crate::change_log::ChangeLog;
use crate::fault_plan::FaultPlan;
use crate::{Disk, Event, Failed, MAX_FILE_LEN};
use pb_base::Memory;
use std::alloc::{AllocError, Global};
use std::marker::Model;

/// A disk in memory. It keeps what the file held at first and all that was done to it, so that what a crash at any
/// moment may leave is known of it.
#[derive(Drop)]
pub struct MemDisk {
    alloc: Global,
    first: Vec<u8>,
    bytes: Vec<u8>,
    log: ChangeLog,
    plan: FaultPlan,
}

impl Model for MemDisk {
    ghost use Rattle.std.specs.Prelude.{◌≡◌};
    ghost use Rattle.pb_io.specs.DiskLog.{DiskLog, file_of};

    ghost Value = { DiskLog };

    ghost view = { λ d. record { first = d.first.items; changes = d.log; calls = d.plan } };

    ghost invariant = { λ d. d.bytes.items ≡ file_of d.first.items d.log };
}

impl MemDisk {
    /// A disk whose file has these bytes, at most 2^62 of them, all settled. The calls whose numbers, from 0, stand in
    /// `fails` fail; they count too.
    pub fn new(alloc: Global, bytes: &[u8], fails: &[u64]) -> Result<MemDisk, Memory>
        ensures { IfOk result (λ d. d ≡ record
            { first = bytes.now; changes = []; calls = no_calls fails.now }) }
    {
        if bytes.len() as u64 > MAX_FILE_LEN {
            return Err(Memory);
        }
        Ok(MemDisk {
            alloc,
            first: Vec::from_slice(alloc, bytes).map_err(|_| Memory)?,
            bytes: Vec::from_slice(alloc, bytes).map_err(|_| Memory)?,
            log: ChangeLog::new(alloc),
            plan: FaultPlan::new(alloc, fails).map_err(|_| Memory)?,
        })
    }

    /// A disk whose file has these bytes, all settled, after all that `world` says has happened. The rest is as `new`.
    pub fn in_world(
        alloc: Global,
        bytes: &[u8],
        fails: &[u64],
        world: Vec<Event>,
    ) -> Result<MemDisk, Memory>
        ensures { IfOk result (λ d. d ≡ disk_in bytes.now (world_in world.items) fails.now) }
    {
        let mut disk = MemDisk::new(alloc, bytes, fails)?;
        disk.happened(world)?;
        Ok(disk)
    }

    /// Events of the stations and of the link happened, all at one moment: the world grows by them at its end, and the
    /// file and what a crash may leave of it stay. Takes memory; where it finds none, nothing happened.
    pub fn happened(&mut self, events: Vec<Event>) -> Result<(), Memory>
        ensures added { OnOk result (self.new
            ≡ record self.old { changes = Linked (world_in events.items) ∷ self.old.changes }) }
        ensures same { OnErr result (self.new ≡ self.old) }
        ensures world { OnOk result (world_of self.new.changes
            ≡ world_of self.old.changes ++ world_in events.items) }
        ensures disk { (a b m n : ℕ) → ReadsOnly (disk_view self.old a b) (disk_view self.new m n) }
        ensures time { (a b m n : ℕ) → Elapses (disk_view self.old a b) (disk_view self.new m n) }
    {
        self.log.linked(events).map_err(|_| Memory)
    }

    /// All that has happened, as a start for a further disk.
    pub fn into_world(self) -> Vec<Event>
        ensures { world_in result.items ≡ world_of self.changes }
    {
        self.log.into_events()
    }

    /// The file as it reads.
    pub fn bytes(&self) -> &[u8]
        ensures { result.now ≡ file_now self.now }
    {
        &self.bytes
    }

    /// A site over it has sent a frame.
    pub(crate) fn sent(&mut self, frame: &[u8]) -> Result<(), AllocError>
        ensures added { OnOk result (self.new
            ≡ record self.old { changes = Linked (Sent frame.now ∷ []) ∷ self.old.changes }) }
        ensures same { OnErr result (self.new ≡ self.old) }
    {
        self.log.sent(self.alloc, frame)
    }

    /// A site over it has given bytes, or where there are none a quiet tick.
    pub(crate) fn received(&mut self, bytes: &[u8]) -> Result<(), AllocError>
        ensures added { OnOk result (self.new
            ≡ record self.old { changes = Linked (arrival bytes.now) ∷ self.old.changes }) }
        ensures same { OnErr result (self.new ≡ self.old) }
    {
        self.log.received(self.alloc, bytes)
    }

    /// The n-th frame that a site over it has sent.
    pub(crate) fn frame(&self, n: usize) -> Option<&[u8]>
        ensures { option_copied result ≡ slice_get (sent (world_of self.now.changes)) n }
    {
        self.log.frame(n)
    }
}

// Writes over what is there and after it.
fn overlay(bytes: &mut Vec<u8>, at: usize, from: &[u8])
    requires within { at ≤ vec_len bytes.old }
    requires room { vec_len bytes.old + length from.now ≤ vec_capacity bytes.old }
    ensures { bytes.new.items ≡ overlaid bytes.old.items at from.now }
{
    let inside = from.len().min(bytes.len() - at);
    bytes[at..at + inside].copy_from_slice(&from[..inside]);
    bytes.extend_from_slice(&from[inside..]).unwrap();
}

impl Disk for MemDisk {
    ghost view = { λ d. disk_view d 0 0 };

    fn len(&mut self) -> Result<u64, Failed>
        ensures value { IfOk result (λ n. n ≡ length (file_now self.old)) }
        ensures bound { IfOk result (λ n. n ≤ max_file_len) }
        ensures disk { ReadsOnly (disk_view self.old 0 0) (disk_view self.new 0 0) }
        ensures link { (disk_view self.new 0 0).link ≡ (disk_view self.old 0 0).link }
        ensures time { Elapses (disk_view self.old 0 0) (disk_view self.new 0 0) }
        ensures cause { HasCause self.old.calls.faults self.new.calls.faults result }
        ensures listed { is_err result ≡ is_listed self.old.calls }
        ensures state { self.new ≡ after_look self.old (is_err result) }
    {
        self.plan.call()?;
        Ok(self.bytes.len() as u64)
    }

    fn read_at(&mut self, at: u64, to: &mut [u8]) -> Result<(), Failed>
        requires { at + length to.old ≤ length (file_now self.old) }
        ensures bytes { OnOk result (to.new ≡ take (length to.old) (drop at (file_now self.old))) }
        ensures disk { ReadsOnly (disk_view self.old 0 0) (disk_view self.new 0 0) }
        ensures link { (disk_view self.new 0 0).link ≡ (disk_view self.old 0 0).link }
        ensures time { Elapses (disk_view self.old 0 0) (disk_view self.new 0 0) }
        ensures cause { HasCause self.old.calls.faults self.new.calls.faults result }
        ensures listed { is_err result ≡ is_listed self.old.calls }
        ensures state { self.new ≡ after_look self.old (is_err result) }
    {
        self.plan.call()?;
        let at = at as usize;
        to.copy_from_slice(&self.bytes[at..at + to.len()]);
        Ok(())
    }

    /// Takes memory; a call that finds none is a counted fault and changes nothing.
    fn write_at(&mut self, at: u64, from: &[u8]) -> Result<(), Failed>
        requires { at ≤ length (file_now self.old) }
        ensures written { OnOk result ((disk_view self.new 0 0).file
            ≡ Some (overlaid (file_now self.old) at from.now)) }
        ensures bound { OnOk result (at + length from.now ≤ max_file_len) }
        ensures file { Changes (Torn at (length from.now)) (disk_view self.old 0 0).file
            (disk_view self.new 0 0).file }
        ensures images { AriseBy (Torn at (length from.now)) (disk_view self.old 0 0).image
            (disk_view self.new 0 0).image }
        ensures link { (disk_view self.new 0 0).link ≡ (disk_view self.old 0 0).link }
        ensures time { Elapses (disk_view self.old 0 0) (disk_view self.new 0 0) }
        ensures cause { HasCause self.old.calls.faults self.new.calls.faults result }
        ensures listed { IsTrue (is_listed self.old.calls) → IsErr result }
        ensures state { self.new ≡ after_change self.old (Wrote at from.now) (is_err result) }
    {
        self.plan.call()?;
        if at + from.len() as u64 > MAX_FILE_LEN {
            return Err(self.plan.fault());
        }
        let Ok(()) = self.bytes.reserve(from.len()) else {
            return Err(self.plan.fault());
        };
        let Ok(()) = self.log.wrote(self.alloc, at, from) else {
            return Err(self.plan.fault());
        };
        overlay(&mut self.bytes, at as usize, from);
        Ok(())
    }

    /// Takes memory; a call that finds none is a counted fault and changes nothing.
    fn cut(&mut self, len: u64) -> Result<(), Failed>
        requires { len ≤ length (file_now self.old) }
        ensures shortened { OnOk result ((disk_view self.new 0 0).file
            ≡ Some (take len (file_now self.old))) }
        ensures file { Changes (Shortened len) (disk_view self.old 0 0).file
            (disk_view self.new 0 0).file }
        ensures images { AriseBy (Shortened len) (disk_view self.old 0 0).image
            (disk_view self.new 0 0).image }
        ensures link { (disk_view self.new 0 0).link ≡ (disk_view self.old 0 0).link }
        ensures time { Elapses (disk_view self.old 0 0) (disk_view self.new 0 0) }
        ensures cause { HasCause self.old.calls.faults self.new.calls.faults result }
        ensures listed { IsTrue (is_listed self.old.calls) → IsErr result }
        ensures state { self.new ≡ after_change self.old (Cut len) (is_err result) }
    {
        self.plan.call()?;
        let Ok(()) = self.log.cut(len) else {
            return Err(self.plan.fault());
        };
        self.bytes.truncate(len as usize);
        Ok(())
    }

    /// Takes memory; a call that finds none is a counted fault and settles nothing.
    fn sync(&mut self) -> Result<(), Failed>
        ensures settled { OnOk result (IsSettled (disk_view self.new 0 0)) }
        ensures unsettled { OnErr result (Within (disk_view self.new 0 0).image
            (disk_view self.old 0 0).image) }
        ensures file { (disk_view self.new 0 0).file ≡ (disk_view self.old 0 0).file }
        ensures images { Within (disk_view self.old 0 0).image (disk_view self.new 0 0).image }
        ensures link { (disk_view self.new 0 0).link ≡ (disk_view self.old 0 0).link }
        ensures time { Elapses (disk_view self.old 0 0) (disk_view self.new 0 0) }
        ensures cause { HasCause self.old.calls.faults self.new.calls.faults result }
        ensures listed { IsTrue (is_listed self.old.calls) → IsErr result }
        ensures state { self.new ≡ after_change self.old Synced (is_err result) }
    {
        self.plan.call()?;
        let Ok(()) = self.log.synced() else {
            return Err(self.plan.fault());
        };
        Ok(())
    }

    ghost lawful = { λ d. disk_is_lawful d 0 0 };
}
