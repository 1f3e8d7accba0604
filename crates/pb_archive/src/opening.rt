//! Opening an archive: its entries are read one after the other, each by the rules and by those before it.
ghost use Rattle.std.specs.Prelude.{◌≡◌, ◌<◌, ◌≤◌, true, false, IfOk, IfErr, OnOk};
ghost use Rattle.std.specs.Option.{ForSome};
ghost use Rattle.pb_io.specs.Crash.{Changes};
ghost use Rattle.pb_io.specs.Settled.{Leaves};
ghost use Rattle.pb_journal.specs.Changes.{Keeps, SameEntries};
ghost use Rattle.pb_journal.specs.Inside.{Peeks};
ghost use Rattle.pb_journal.specs.Opened.{IsOpened};
ghost use Rattle.pb_archive.specs.Inside.{Begins, HasRead, IsRefusalOf, ReadsNext};
ghost use Rattle.pb_archive.specs.Opened.{IsOpen, Stands};
ghost use Rattle.pb_archive.specs.Refusals.{HasDiskCause, OpenRefuses};

use crate::archive::Archive;
use crate::entry::{EntryFault, read_change};
use crate::fault::ArchiveFault;
use crate::held::Register;
use crate::plan_entry::read_plan;
use pb_io::Disk;
use pb_journal::{Entries, Journal};
use std::alloc::Global;

// The refusal of an entry whose gate is here.
fn refusal(fault: EntryFault, at: u64) -> ArchiveFault
    ensures { IsRefusalOf fault at result }
{
    match fault {
        EntryFault::Wrong => ArchiveFault::Format { at },
        EntryFault::Memory => ArchiveFault::Memory,
    }
}

// Reads the plan.
fn read_first<D: Disk>(
    alloc: Global,
    entries: &mut Entries,
    journal: &Journal,
    disk: &mut D,
) -> Result<Register, ArchiveFault>
    requires { ForSome (D.view disk.old).file (Begins entries.old journal.now.gate) }
    ensures read { IfOk result (λ r. ForSome (D.view disk.old).file
        (HasRead r entries.new journal.now.gate)) }
    ensures refused { IfErr result (OpenRefuses (D.view disk.old).file) }
    ensures peeks { Peeks (D.view disk.old) (D.view disk.new) }
    ensures cause { HasDiskCause (D.view disk.old).faults (D.view disk.new).faults result }
{
    let at = entries.place();
    if !entries.next(journal, disk)? {
        return Err(ArchiveFault::NotCreated);
    }
    match read_plan(alloc, entries.body()) {
        Err(fault) => Err(refusal(fault, at)),
        Ok(plan) => match Register::new(alloc, plan) {
            Ok(register) => Ok(register),
            Err(_) => Err(ArchiveFault::Memory),
        },
    }
}

// Reads the next entry after the plan; false where there is none.
fn read_next<D: Disk>(
    alloc: Global,
    entries: &mut Entries,
    register: &mut Register,
    journal: &Journal,
    disk: &mut D,
) -> Result<bool, ArchiveFault>
    requires { ForSome (D.view disk.old).file (HasRead register.old entries.old journal.now.gate) }
    ensures read { IfOk result (λ more. ForSome (D.view disk.old).file
        (ReadsNext register.new entries.new journal.now.gate more)) }
    ensures moves { IfOk result (λ more. more ≡ true
        → (entries.old.place < entries.new.place) × (entries.new.place ≤ journal.now.gate)) }
    ensures refused { IfErr result (OpenRefuses (D.view disk.old).file) }
    ensures peeks { Peeks (D.view disk.old) (D.view disk.new) }
    ensures cause { HasDiskCause (D.view disk.old).faults (D.view disk.new).faults result }
{
    let at = entries.place();
    if !entries.next(journal, disk)? {
        return Ok(false);
    }
    match read_change(alloc, entries.body()) {
        Err(fault) => Err(refusal(fault, at)),
        Ok(change) => {
            if !register.take(change) {
                return Err(ArchiveFault::Format { at });
            }
            Ok(true)
        }
    }
}

// Reads all entries after the plan.
fn read_changes<D: Disk>(
    alloc: Global,
    entries: &mut Entries,
    register: &mut Register,
    journal: &Journal,
    disk: &mut D,
) -> Result<(), ArchiveFault>
    requires { ForSome (D.view disk.old).file (HasRead register.old entries.old journal.now.gate) }
    ensures read { OnOk result (ForSome (D.view disk.old).file (Stands register.new journal.now.gate)) }
    ensures refused { IfErr result (OpenRefuses (D.view disk.old).file) }
    ensures peeks { Peeks (D.view disk.old) (D.view disk.new) }
    ensures cause { HasDiskCause (D.view disk.old).faults (D.view disk.new).faults result }
{
    loop {
        match read_next(alloc, entries, register, journal, disk) {
            Ok(true) => {}
            Ok(false) => return Ok(()),
            Err(fault) => return Err(fault),
        }
    }
}

// Reads all entries of a journal that was opened.
fn read_all<D: Disk>(
    alloc: Global,
    journal: &Journal,
    disk: &mut D,
) -> Result<Register, ArchiveFault>
    requires { IsOpened journal.now.gate (D.view disk.old) }
    ensures read { IfOk result (λ r. ForSome (D.view disk.old).file (Stands r journal.now.gate)) }
    ensures refused { IfErr result (OpenRefuses (D.view disk.old).file) }
    ensures peeks { Peeks (D.view disk.old) (D.view disk.new) }
    ensures cause { HasDiskCause (D.view disk.old).faults (D.view disk.new).faults result }
{
    let mut entries = Entries::start(alloc)?;
    let mut register = read_first(alloc, &mut entries, journal, disk)?;
    read_changes(alloc, &mut entries, &mut register, journal, disk)?;
    Ok(register)
}

impl Archive {
    /// Opens the archive in a file: the journal is opened and recovered, and all its entries are read. Takes memory: room
    /// for 1,024 tables, their definitions, and, while it runs, 65,536 bytes through which the file is read.
    ///
    /// `NotCreated` comes where the file holds no journal or one without entries. `Format` comes at the first byte that no
    /// journal has, or at the gate of the first entry that breaks a rule. At any moment a crash leaves a file with the
    /// entries of one that it might have left before, and whatever it answers, a disk fault too, the file has the entries
    /// that it had. Once it has answered Ok, nothing is pending.
    pub fn open<D: Disk>(alloc: Global, disk: &mut D) -> Result<Archive, ArchiveFault>
        ensures same { OnOk result (Changes SameEntries (D.view disk.old).file (D.view disk.new).file) }
        ensures opened { IfOk result (λ a. IsOpen a (D.view disk.new)) }
        ensures usable { IfOk result (λ a. a.journal.must_reopen ≡ false) }
        ensures file { Changes Keeps (D.view disk.old).file (D.view disk.new).file }
        ensures leaves { Leaves Keeps (D.view disk.old) (D.view disk.new) }
        ensures refused { IfErr result (OpenRefuses (D.view disk.old).file) }
        ensures link { (D.view disk.new).link ≡ (D.view disk.old).link }
        ensures cause { HasDiskCause (D.view disk.old).faults (D.view disk.new).faults result }
    {
        let journal = Journal::open(alloc, disk)?;
        match read_all(alloc, &journal, disk) {
            Ok(register) => Ok(Archive {
                register,
                journal,
                must_reopen: false,
            }),
            Err(fault) => Err(fault),
        }
    }
}
