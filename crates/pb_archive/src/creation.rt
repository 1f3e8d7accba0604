//! Making an archive: a journal whose first entry is the plan.
ghost use Rattle.std.specs.Prelude.{◌≡◌, ◌≤◌, false, length, IfOk, IfErr, OnOk};
ghost use Rattle.std.specs.Option.{ForSome};
ghost use Rattle.pb_io.specs.Crash.{Changes};
ghost use Rattle.pb_io.specs.Settled.{IsSettled, Leaves};
ghost use Rattle.pb_journal.specs.Changes.{KeepsOrBegins};
ghost use Rattle.pb_journal.specs.Inside.{Peeks};
ghost use Rattle.pb_journal.specs.Opened.{IsOpened};
ghost use Rattle.pb_archive.specs.Creation.{HasEntries, Inits, IsReady, KeepsOrEmpties, KeepsOrInits};
ghost use Rattle.pb_archive.specs.Inside.{IsCreatedNow, ReadRefuses};
ghost use Rattle.pb_archive.specs.Refusals.{HasDiskCause, InitRefuses};

use crate::fault::ArchiveFault;
use crate::plan::Plan;
use crate::plan_entry::plan_body;
use pb_io::Disk;
use pb_journal::{Entries, Journal, JournalFault, create};
use std::alloc::Global;

// Makes a journal where there is none.
fn make_journal<D: Disk>(disk: &mut D) -> Result<(), ArchiveFault>
    ensures made { OnOk result (Changes IsCreatedNow (D.view disk.old).file (D.view disk.new).file) }
    ensures file { Changes KeepsOrBegins (D.view disk.old).file (D.view disk.new).file }
    ensures leaves { Leaves KeepsOrBegins (D.view disk.old) (D.view disk.new) }
    ensures refused { IfErr result (λ fault. fault ≡ ArchiveFault.DiskFault) }
    ensures link { (D.view disk.new).link ≡ (D.view disk.old).link }
    ensures cause { HasDiskCause (D.view disk.old).faults (D.view disk.new).faults result }
{
    match create(disk) {
        Ok(()) => Ok(()),
        Err(JournalFault::Exists) => Ok(()),
        Err(fault) => Err(ArchiveFault::from(fault)),
    }
}

// Opens the journal, and makes it first where there is none.
fn open_journal<D: Disk>(alloc: Global, disk: &mut D) -> Result<Journal, ArchiveFault>
    ensures ready { OnOk result (Changes IsReady (D.view disk.old).file (D.view disk.new).file) }
    ensures opened { IfOk result (λ journal. IsOpened journal.gate (D.view disk.new)) }
    ensures usable { IfOk result (λ journal. journal.must_reopen ≡ false) }
    ensures file { Changes KeepsOrEmpties (D.view disk.old).file (D.view disk.new).file }
    ensures leaves { Leaves KeepsOrEmpties (D.view disk.old) (D.view disk.new) }
    ensures refused { IfErr result (InitRefuses (D.view disk.old).file) }
    ensures link { (D.view disk.new).link ≡ (D.view disk.old).link }
    ensures cause { HasDiskCause (D.view disk.old).faults (D.view disk.new).faults result }
{
    match make_journal(disk) {
        Ok(()) => {}
        Err(fault) => return Err(fault),
    }
    match Journal::open(alloc, disk) {
        Ok(journal) => Ok(journal),
        Err(fault) => Err(ArchiveFault::from(fault)),
    }
}

// Whether a journal that was opened has an entry.
fn has_entry<D: Disk>(alloc: Global, journal: &Journal, disk: &mut D) -> Result<bool, ArchiveFault>
    requires { IsOpened journal.now.gate (D.view disk.old) }
    ensures has { IfOk result (λ has. ForSome (D.view disk.old).file (HasEntries has)) }
    ensures refused { IfErr result (ReadRefuses (D.view disk.old).file) }
    ensures peeks { Peeks (D.view disk.old) (D.view disk.new) }
    ensures cause { HasDiskCause (D.view disk.old).faults (D.view disk.new).faults result }
{
    let mut entries = Entries::start(alloc)?;
    match entries.next(journal, disk) {
        Ok(more) => Ok(more),
        Err(fault) => Err(ArchiveFault::from(fault)),
    }
}

/// Makes an archive with this plan and no table. Takes memory: the plan's entry, and 65,536 bytes through which the file is
/// read, while it runs.
///
/// `Exists` comes where the file has an entry, and `Format` where it is no journal. A creation that was cut off is
/// finished. At any moment a crash leaves the entries of a file that it might have left before; or, where that had none, no
/// archive or the new one. So does a call that is refused, for whatever cause: an archive that was there is as it was. Once
/// it has answered Ok, nothing is pending.
pub fn init<D: Disk>(alloc: Global, disk: &mut D, plan: &Plan) -> Result<(), ArchiveFault>
    ensures made { OnOk result (Changes (Inits plan.now) (D.view disk.old).file (D.view disk.new).file) }
    ensures settled { OnOk result (IsSettled (D.view disk.new)) }
    ensures file { Changes (KeepsOrInits plan.now) (D.view disk.old).file (D.view disk.new).file }
    ensures leaves { Leaves (KeepsOrInits plan.now) (D.view disk.old) (D.view disk.new) }
    ensures refused { IfErr result (InitRefuses (D.view disk.old).file) }
    ensures link { (D.view disk.new).link ≡ (D.view disk.old).link }
    ensures cause { HasDiskCause (D.view disk.old).faults (D.view disk.new).faults result }
{
    let mut journal = match open_journal(alloc, disk) {
        Ok(journal) => journal,
        Err(fault) => return Err(fault),
    };
    match has_entry(alloc, &journal, disk) {
        Ok(false) => {}
        Ok(true) => return Err(ArchiveFault::Exists),
        Err(fault) => return Err(fault),
    }
    let body = match plan_body(alloc, plan) {
        Ok(body) => body,
        Err(_) => return Err(ArchiveFault::Memory),
    };
    match journal.append(disk, &body, &[]) {
        Ok(()) => Ok(()),
        Err(fault) => Err(ArchiveFault::from(fault)),
    }
}
