//! Making a journal in a file that holds none.
ghost use Rattle.std.specs.Prelude.{◌≡◌, ◌≤◌, length, true, false, IfOk, IfErr, OnOk};
ghost use Rattle.std.specs.Option.{ForSome};
ghost use Rattle.pb_io.specs.Settled.{IsSettled, Leaves, Runs};
ghost use Rattle.pb_io.specs.Crash.{Changes};
ghost use Rattle.pb_io.specs.Faults.{HasCause};
ghost use Rattle.pb_journal.specs.Changes.{Begins, KeepsOrBegins};
ghost use Rattle.pb_journal.specs.Inside.{Peeks, StaysVacant};
ghost use Rattle.pb_journal.specs.Refusals.{CreateRefuses, HasDiskCause, IsCreated, IsVacant, KeepsFile};

use crate::JournalFault;
use crate::opening::{EMPTY, HEADER};
use crate::staging::CLOSED;
use pb_io::{Disk, Failed, cut_settled, write_in_order, write_settled};

/// What comes after the first byte of a journal without entries.
const AFTER_FIRST: [u8; 8] = [0x50, 0x42, 0x4B, 0x41, 0x52, 0x43, 0x31, CLOSED];

// Whether the file is longer than an empty journal, or as long and begins as one.
fn is_created<D: Disk>(disk: &mut D) -> Result<bool, Failed>
    ensures created { IfOk result (λ is. is ≡ true → ForSome (D.view disk.old).file IsCreated) }
    ensures vacant { IfOk result (λ is. is ≡ false → ForSome (D.view disk.old).file IsVacant) }
    ensures peeks { Peeks (D.view disk.old) (D.view disk.new) }
    ensures cause { HasCause (D.view disk.old).faults (D.view disk.new).faults result }
{
    let len = disk.len()?;
    if len != EMPTY as u64 {
        return Ok(len > EMPTY as u64);
    }
    let mut first = [0];
    disk.read_at(0, &mut first)?;
    Ok(first[0] == HEADER[0])
}

// Settles a file that holds no journal, and leaves one byte of it at most.
fn shorten<D: Disk>(disk: &mut D) -> Result<(), Failed>
    requires vacant { ForSome (D.view disk.old).file IsVacant }
    ensures short { OnOk result (Changes (λ f g. length g ≤ 1) (D.view disk.old).file
        (D.view disk.new).file) }
    ensures settled { OnOk result (IsSettled (D.view disk.new)) }
    ensures file { Changes StaysVacant (D.view disk.old).file (D.view disk.new).file }
    ensures run { Runs StaysVacant (D.view disk.old) (D.view disk.new) }
    ensures cause { HasCause (D.view disk.old).faults (D.view disk.new).faults result }
{
    disk.sync()?;
    let len = disk.len()?;
    if len <= 1 {
        return Ok(());
    }
    cut_settled(disk, 1)?;
    Ok(())
}

/// Makes a journal without entries. At any moment of it a crash leaves a file as it might have left it before, or one
/// that holds no journal, or the new journal. So does a call that fails: a journal that was there reads as it did.
/// `Exists` comes before anything is changed.
pub fn create<D: Disk>(disk: &mut D) -> Result<(), JournalFault>
    ensures begun { OnOk result (Changes Begins (D.view disk.old).file (D.view disk.new).file) }
    ensures settled { OnOk result (IsSettled (D.view disk.new)) }
    ensures file { Changes KeepsOrBegins (D.view disk.old).file (D.view disk.new).file }
    ensures leaves { Leaves KeepsOrBegins (D.view disk.old) (D.view disk.new) }
    ensures refused { IfErr result (CreateRefuses (D.view disk.old).file) }
    ensures unchanged { IfErr result (KeepsFile (D.view disk.old) (D.view disk.new)) }
    ensures link { (D.view disk.new).link ≡ (D.view disk.old).link }
    ensures cause { HasDiskCause (D.view disk.old).faults (D.view disk.new).faults result }
{
    if is_created(disk)? {
        return Err(JournalFault::Exists);
    }
    shorten(disk)?;
    write_in_order(disk, 0, &[CLOSED], 1, &AFTER_FIRST)?;
    write_settled(disk, 0, &HEADER[..1])?;
    Ok(())
}
