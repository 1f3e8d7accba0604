//! A journal that was opened, and what may be added to it.
ghost use Rattle.std.specs.Prelude.{◌≡◌, ◌||◌, ◌+◌, ◌<◌, ◌≤◌, ◌++◌, false, length, IfErr, OnOk, OnErr, IsErrOf, is_err};
ghost use Rattle.pb_io.specs.Settled.{Leaves};
ghost use Rattle.pb_io.specs.Crash.{max_file_len, Changes};
ghost use Rattle.pb_journal.specs.Changes.{Gains, KeepsOrGains};
ghost use Rattle.pb_journal.specs.Opened.{IsOpened};
ghost use Rattle.pb_journal.specs.Refusals.{AppendRefuses, HasDiskCause};
ghost use Rattle.pb_journal.specs.Entries.{max_body_len};

use crate::JournalFault;
use crate::staging::add_entry;
use pb_io::Disk;
use std::marker::Model;

/// A journal on a disk. It keeps the place of the closed gate that ends the entries, and nothing of the file.
#[derive(Drop)]
pub struct Journal {
    gate: u64,
    must_reopen: bool,
}

impl Model for Journal {
    ghost use Rattle.std.specs.Prelude.{◌<◌};
    ghost use Rattle.pb_io.specs.Crash.{max_file_len};
    ghost use Rattle.pb_journal.specs.Opened.{OpenJournal};

    ghost Value = { OpenJournal };

    ghost view = { λ j. record { gate = j.gate; must_reopen = j.must_reopen } };

    ghost invariant = { λ j. j.gate < max_file_len };
}

impl Journal {
    /// A journal whose entries end here.
    pub(crate) fn ending_at(gate: u64) -> Journal
        requires { gate < max_file_len }
        ensures { result ≡ record { gate = gate; must_reopen = false } }
    {
        Journal {
            gate,
            must_reopen: false,
        }
    }

    /// The place of the gate that ends the entries.
    pub(crate) fn gate(&self) -> u64
        ensures value { result ≡ self.now.gate }
        ensures bound { result < max_file_len }
    {
        self.gate
    }

    /// Adds an entry, whose body is `head` and then `rest`. Once it has answered Ok, a crash leaves the new entry; a
    /// crash at any moment of it leaves the old entries, with the new one or without, and so does a call that fails.
    ///
    /// The body has 1 to 65,535 bytes, `head` isn't empty, and the file is the one that was opened. After a
    /// `DiskFault` the journal must be opened again, and each further call answers `MustReopen` and does nothing.
    pub fn append<D: Disk>(
        &mut self,
        disk: &mut D,
        head: &[u8],
        rest: &[u8],
    ) -> Result<(), JournalFault>
        requires some { 0 < length head.now }
        requires few { length head.now + length rest.now ≤ max_body_len }
        requires opened { self.old.must_reopen ≡ false → IsOpened self.old.gate (D.view disk.old) }

        ensures added { OnOk result (Changes (Gains (head.now ++ rest.now)) (D.view disk.old).file
            (D.view disk.new).file) }
        ensures opened { OnOk result (IsOpened self.new.gate (D.view disk.new)) }
        ensures file { Changes (KeepsOrGains (head.now ++ rest.now)) (D.view disk.old).file
            (D.view disk.new).file }
        ensures leaves { Leaves (KeepsOrGains (head.now ++ rest.now)) (D.view disk.old) (D.view disk.new) }
        ensures refused { IfErr result (AppendRefuses self.old.must_reopen) }
        ensures must_reopen { self.new.must_reopen ≡ (self.old.must_reopen || is_err result) }
        ensures nothing { IsErrOf result JournalFault.MustReopen → disk.new ≡ disk.old }
        ensures gate { OnErr result (self.new.gate ≡ self.old.gate) }
        ensures link { (D.view disk.new).link ≡ (D.view disk.old).link }
        ensures cause { HasDiskCause (D.view disk.old).faults (D.view disk.new).faults result }
    {
        if self.must_reopen {
            return Err(JournalFault::MustReopen);
        }
        self.must_reopen = true;
        add_entry(disk, self.gate, head, rest)?;
        self.must_reopen = false;
        self.gate += 5 + (head.len() + rest.len()) as u64;
        Ok(())
    }
}
