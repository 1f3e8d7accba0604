//! Closing the end of a file after its entries.
ghost use Rattle.std.specs.Prelude.{◌<◌, OnOk};
ghost use Rattle.std.specs.Option.{ForSome};
ghost use Rattle.pb_io.specs.Settled.{IsSettled, Runs};
ghost use Rattle.pb_io.specs.Crash.{max_file_len, Changes};
ghost use Rattle.pb_io.specs.Faults.{HasCause};
ghost use Rattle.pb_journal.specs.Changes.{Keeps, SameEntries};
ghost use Rattle.pb_journal.specs.Inside.{EndsAt};
ghost use Rattle.pb_journal.specs.Opened.{IsOpened};

use crate::staging::CLOSED;
use pb_io::{Disk, Failed, cut_settled, write_settled};

/// Cuts off what comes after the closed gate, and writes 00 on it.
pub(crate) fn recover<D: Disk>(disk: &mut D, gate: u64) -> Result<(), Failed>
    requires low { gate < max_file_len }
    requires ends { ForSome (D.view disk.old).file (EndsAt gate) }
    requires settled { IsSettled (D.view disk.old) }
    ensures same { OnOk result (Changes SameEntries (D.view disk.old).file (D.view disk.new).file) }
    ensures opened { OnOk result (IsOpened gate (D.view disk.new)) }
    ensures file { Changes Keeps (D.view disk.old).file (D.view disk.new).file }
    ensures run { Runs Keeps (D.view disk.old) (D.view disk.new) }
    ensures cause { HasCause (D.view disk.old).faults (D.view disk.new).faults result }
{
    cut_settled(disk, gate + 1)?;
    write_settled(disk, gate, &[CLOSED])?;
    Ok(())
}
