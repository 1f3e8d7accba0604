//! Opening a journal: the header, the walk to the end of the entries, and the recovery.
ghost use Rattle.std.specs.Prelude.{◌≡◌, ◌<◌, ◌≤◌, length, take, None, true, false, IfSome, IfOk, IfErr, OnOk};
ghost use Rattle.std.specs.Option.{ForSome};
ghost use Rattle.pb_io.specs.Settled.{IsSettled, Leaves, Runs};
ghost use Rattle.pb_io.specs.Crash.{max_file_len, Changes};
ghost use Rattle.pb_io.specs.Faults.{HasCause};
ghost use Rattle.pb_journal.specs.Changes.{Keeps, SameEntries};
ghost use Rattle.pb_journal.specs.Entries.{lead_len, empty_len, header_len, header};
ghost use Rattle.pb_journal.specs.Inside.{EndsAt, HasHeader, HeaderRefuses, Peeks};
ghost use Rattle.pb_journal.specs.Opened.{IsOpened, Rests};
ghost use Rattle.pb_journal.specs.Refusals.{DiffersAt, HasDiskCause, KeepsFile, OpenRefuses};
ghost use Rattle.pb_journal.specs.Window.{Shows};

use crate::recovery::recover;
use crate::staging::CLOSED;
use crate::walk::{Gate, LEAD, look};
use crate::window::Window;
use crate::{Journal, JournalFault};
use pb_io::{Disk, Failed};
use std::alloc::Global;

/// A journal's first bytes: 0xA5 and PBKARC1.
pub(crate) const HEADER: [u8; 8] = [0xA5, 0x50, 0x42, 0x4B, 0x41, 0x52, 0x43, 0x31];
/// The length of a journal without entries: the header and a gate.
pub(crate) const EMPTY: usize = 9;

// The place of the first byte that isn't the header's.
fn first_difference(prefix: &[u8]) -> Option<usize>
    requires { header_len ≤ length prefix.now }
    ensures differs { IfSome result (DiffersAt prefix.now) }
    ensures same { result ≡ None → take header_len prefix.now ≡ header }
{
    for (at, byte) in HEADER.iter().enumerate() {
        if prefix[at] != *byte {
            return Some(at);
        }
    }
    None
}

// The refusal of a file of this length, by its first nine bytes.
fn header_fault(prefix: &[u8], len: u64) -> Option<JournalFault>
    requires prefix { length prefix.now ≡ empty_len }
    requires long { empty_len ≤ len }
    ensures refused { IfSome result (HeaderRefuses prefix.now len) }
    ensures same { result ≡ None → take header_len prefix.now ≡ header }
{
    if len == EMPTY as u64 && prefix[0] != HEADER[0] {
        return Some(JournalFault::NotCreated);
    }
    let at = first_difference(prefix)?;
    Some(JournalFault::Format { at: at as u64 })
}

// The length of the file, where it begins as a journal.
fn created_len<D: Disk>(window: &mut Window, disk: &mut D) -> Result<u64, JournalFault>
    requires room { empty_len ≤ window.old.held }
    requires shows { ForSome (D.view disk.old).file (Shows window.old) }
    ensures header { IfOk result (λ len. ForSome (D.view disk.old).file (HasHeader len)) }
    ensures long { IfOk result (λ len. (empty_len ≤ len) × (len ≤ max_file_len)) }
    ensures refused { IfErr result (OpenRefuses (D.view disk.old).file) }
    ensures shows { ForSome (D.view disk.old).file (Shows window.new) }
    ensures held { window.new.held ≡ window.old.held }
    ensures peeks { Peeks (D.view disk.old) (D.view disk.new) }
    ensures cause { HasDiskCause (D.view disk.old).faults (D.view disk.new).faults result }
{
    let len = disk.len()?;
    if len < EMPTY as u64 {
        return Err(JournalFault::NotCreated);
    }
    window.fill(disk, 0, EMPTY, len)?;
    if let Some(fault) = header_fault(window.bytes(0, EMPTY), len) {
        return Err(fault);
    }
    Ok(len)
}

// Walks over the entries to the gate that ends them.
fn closing_gate<D: Disk>(window: &mut Window, disk: &mut D, len: u64) -> Result<u64, JournalFault>
    requires room { lead_len ≤ window.old.held }
    requires long { empty_len ≤ len }
    requires header { ForSome (D.view disk.old).file (HasHeader len) }
    requires shows { ForSome (D.view disk.old).file (Shows window.old) }
    ensures ends { IfOk result (λ gate. ForSome (D.view disk.old).file (EndsAt gate)) }
    ensures within { IfOk result (λ gate. gate < len) }
    ensures refused { IfErr result (OpenRefuses (D.view disk.old).file) }
    ensures shows { ForSome (D.view disk.old).file (Shows window.new) }
    ensures held { window.new.held ≡ window.old.held }
    ensures peeks { Peeks (D.view disk.old) (D.view disk.new) }
    ensures cause { HasDiskCause (D.view disk.old).faults (D.view disk.new).faults result }
{
    let mut place = HEADER.len() as u64;
    loop {
        match look(window, disk, place, len)? {
            Gate::Closed => return Ok(place),
            Gate::Broken => return Err(JournalFault::Format { at: place + 1 }),
            Gate::Open(size) => place += (LEAD + size) as u64,
        }
    }
}

// Whether the closed gate is a 00 and the last byte.
fn is_at_rest<D: Disk>(
    window: &mut Window,
    disk: &mut D,
    gate: u64,
    len: u64,
) -> Result<bool, Failed>
    requires room { 1 ≤ window.old.held }
    requires within { gate < len }
    requires ends { ForSome (D.view disk.old).file (EndsAt gate) }
    requires size { ForSome (D.view disk.old).file (HasHeader len) }
    requires shows { ForSome (D.view disk.old).file (Shows window.old) }
    ensures rests { IfOk result (λ rests. rests ≡ true → ForSome (D.view disk.old).file (Rests gate)) }
    ensures peeks { Peeks (D.view disk.old) (D.view disk.new) }
    ensures cause { HasCause (D.view disk.old).faults (D.view disk.new).faults result }
{
    window.fill(disk, gate, 1, len)?;
    Ok(window.bytes(gate, 1)[0] == CLOSED && gate + 1 == len)
}

/// The gate that ends the entries, and whether it is a 00 and the file's last byte.
#[derive(Clone, Copy)]
struct End {
    gate: u64,
    at_rest: bool,
}

// Finds the end of the entries.
fn find_end<D: Disk>(window: &mut Window, disk: &mut D) -> Result<End, JournalFault>
    requires room { empty_len ≤ window.old.held }
    requires shows { ForSome (D.view disk.old).file (Shows window.old) }
    ensures ends { IfOk result (λ end. ForSome (D.view disk.old).file (EndsAt end.gate)) }
    ensures rests { IfOk result (λ end. end.at_rest ≡ true
        → ForSome (D.view disk.old).file (Rests end.gate)) }
    ensures bound { IfOk result (λ end. end.gate < max_file_len) }
    ensures refused { IfErr result (OpenRefuses (D.view disk.old).file) }
    ensures peeks { Peeks (D.view disk.old) (D.view disk.new) }
    ensures cause { HasDiskCause (D.view disk.old).faults (D.view disk.new).faults result }
{
    let len = created_len(window, disk)?;
    let gate = closing_gate(window, disk, len)?;
    let at_rest = is_at_rest(window, disk, gate, len)?;
    Ok(End { gate, at_rest })
}

// Leaves the file as it is where its gate is a 00 and its last byte, and recovers it elsewhere.
fn close_end<D: Disk>(disk: &mut D, end: End) -> Result<(), Failed>
    requires low { end.gate < max_file_len }
    requires ends { ForSome (D.view disk.old).file (EndsAt end.gate) }
    requires rests { end.at_rest ≡ true → ForSome (D.view disk.old).file (Rests end.gate) }
    requires settled { IsSettled (D.view disk.old) }
    ensures same { OnOk result (Changes SameEntries (D.view disk.old).file (D.view disk.new).file) }
    ensures opened { OnOk result (IsOpened end.gate (D.view disk.new)) }
    ensures file { Changes Keeps (D.view disk.old).file (D.view disk.new).file }
    ensures run { Runs Keeps (D.view disk.old) (D.view disk.new) }
    ensures cause { HasCause (D.view disk.old).faults (D.view disk.new).faults result }
{
    if end.at_rest {
        return Ok(());
    }
    recover(disk, end.gate)?;
    Ok(())
}

impl Journal {
    /// Opens the journal in a file, and recovers its end where that isn't a gate of 00 and the last byte. Takes memory:
    /// 65,536 bytes, through which the file is read, while it runs.
    ///
    /// At any moment of it a crash leaves a file with the entries of one that it might have left before, and whatever it
    /// answers, the file has the entries that it had. Once it has answered Ok, nothing is pending.
    pub fn open<D: Disk>(alloc: Global, disk: &mut D) -> Result<Journal, JournalFault>
        ensures same { OnOk result (Changes SameEntries (D.view disk.old).file (D.view disk.new).file) }
        ensures opened { IfOk result (λ journal. IsOpened journal.gate (D.view disk.new)) }
        ensures usable { IfOk result (λ journal. journal.must_reopen ≡ false) }
        ensures file { Changes Keeps (D.view disk.old).file (D.view disk.new).file }
        ensures leaves { Leaves Keeps (D.view disk.old) (D.view disk.new) }
        ensures refused { IfErr result (OpenRefuses (D.view disk.old).file) }
        ensures unchanged { IfErr result (KeepsFile (D.view disk.old) (D.view disk.new)) }
        ensures link { (D.view disk.new).link ≡ (D.view disk.old).link }
        ensures cause { HasDiskCause (D.view disk.old).faults (D.view disk.new).faults result }
    {
        let mut window = Window::new(alloc)?;
        disk.sync()?;
        let end = find_end(&mut window, disk)?;
        close_end(disk, end)?;
        Ok(Journal::ending_at(end.gate))
    }
}
