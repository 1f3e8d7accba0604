//! Reading the rows of a table, from the first entry of its archive on.
ghost use Rattle.std.specs.Prelude.{◌≡◌, ◌↔◌, ◌<◌, ◌≤◌, ◌+◌, IsTrue, IsSome, Some, None, slice_get, length, true, false, IfOk, IfErr, OnOk, OnErr};
ghost use Rattle.std.specs.Option.{ForSome};
ghost use Rattle.pb_io.specs.Disk.{ReadsOnly};
ghost use Rattle.pb_io.specs.Settled.{Leaves};
ghost use Rattle.pb_journal.specs.Changes.{Same};
ghost use Rattle.pb_journal.specs.Inside.{Peeks};
ghost use Rattle.pb_journal.specs.Window.{window_len};

use crate::archive::Archive;
use crate::entry::ADVANCE_HEAD;
use crate::fault::ArchiveFault;
use crate::row::{Last, Row};
use crate::run::{Run, run_in};
use pb_base::{Layout, RecNo, TableId};
use pb_io::Disk;
use pb_journal::{Entries, Journal};
use pb_record::record_at;
use std::alloc::Global;
use std::marker::Model;

/// The rows of a table that weren't read yet, in the order of the record numbers. The file is read through 65,536 bytes of
/// memory, and the archive isn't changed while its rows are read.
#[derive(Drop)]
pub struct Rows<'a> {
    journal: &'a Journal,
    entries: Entries,
    id: TableId,
    layout: Layout,
    // the number at which the next row begins, and the one before which the last ends
    next: u32,
    to: u32,
    // The kept records of the entry that was read last. No number from `next` up to its first is kept.
    run: Run,
    last: Last,
}

impl<'a> Model for Rows<'a> {
    ghost use Rattle.pb_archive.specs.Inside.{IsReader, row_of};
    ghost use Rattle.pb_archive.specs.Reader.{Reader};

    ghost Value = { Reader };

    ghost view = { λ r. record {
      row = row_of r.last r.run r.entries.body;
      next = r.next;
      to = r.to;
      id = r.id.0;
      layout = r.layout;
      gate = r.journal.now.gate;
      run = r.run;
      entries = r.entries;
    } };

    ghost invariant = { λ r. IsReader r.last r.layout r.next r.to r.run r.entries.body };
}

impl<'a> Rows<'a> {
    ghost use Rattle.pb_archive.specs.Inside.{IsKnown, NextIsRead, SameRows, StillAwaits};
    ghost use Rattle.pb_archive.specs.Reader.{HasRows, MovesOver, ReadsRow, SameTable};
    ghost use Rattle.pb_archive.specs.Refusals.{HasDiskCause, RowRefuses};
    ghost use Rattle.pb_archive.specs.Rows.{HasRecord, seen_row};

    // Whether it is known what comes at the next number.
    fn is_known(&self) -> bool
        ensures { IsTrue result ↔ IsKnown self.now }
    {
        self.run.first >= self.to || (self.run.count > 0 && self.run.end() > self.next)
    }

    // Reads the next entry. Where the table's rows aren't known yet, there is one.
    fn read_entry<D: Disk>(&mut self, disk: &mut D) -> Result<(), ArchiveFault>
        requires more { self.old.next < self.old.to }
        requires unknown { IsKnown self.old → ⊥ }
        requires rows { ForSome (D.view disk.old).file (HasRows self.old) }
        ensures rows { StillAwaits self.old self.new (D.view disk.old).file }
        ensures same { SameRows self.old self.new }
        ensures moves { OnOk result ((self.old.entries.place < self.new.entries.place)
            × (self.new.entries.place ≤ self.new.gate)) }
        ensures refused { IfErr result (RowRefuses (D.view disk.old).file) }
        ensures row { self.old.row ≡ None → self.new.row ≡ None }
        ensures peeks { Peeks (D.view disk.old) (D.view disk.new) }
        ensures cause { HasDiskCause (D.view disk.old).faults (D.view disk.new).faults result }
    {
        self.last = Last::Nothing;
        self.run.first = self.run.end();
        self.run.count = 0;
        let at = self.entries.place();
        if !self.entries.next(self.journal, disk)? {
            return Err(ArchiveFault::Format { at });
        }
        match run_in(self.entries.body(), self.id, self.layout) {
            Err(_) => return Err(ArchiveFault::Format { at }),
            Ok(None) => {}
            Ok(Some(run)) => self.run = run,
        }
        Ok(())
    }

    // Reads entries until it is known what comes at the next number.
    fn find<D: Disk>(&mut self, disk: &mut D) -> Result<(), ArchiveFault>
        requires more { self.old.next < self.old.to }
        requires rows { ForSome (D.view disk.old).file (HasRows self.old) }
        ensures known { OnOk result (IsKnown self.new) }
        ensures rows { StillAwaits self.old self.new (D.view disk.old).file }
        ensures same { SameRows self.old self.new }
        ensures refused { IfErr result (RowRefuses (D.view disk.old).file) }
        ensures row { self.old.row ≡ None → self.new.row ≡ None }
        ensures peeks { Peeks (D.view disk.old) (D.view disk.new) }
        ensures cause { HasDiskCause (D.view disk.old).faults (D.view disk.new).faults result }
    {
        while !self.is_known() {
            match self.read_entry(disk) {
                Ok(()) => {}
                Err(fault) => return Err(fault),
            }
        }
        Ok(())
    }

    // Goes over the row at the next number, which is known.
    fn take(&mut self)
        requires more { self.old.next < self.old.to }
        requires known { IsKnown self.old }
        ensures takes { NextIsRead self.old self.new }
        ensures moves { MovesOver self.old self.new true }
        ensures same { SameTable self.old self.new }
    {
        if self.next < self.run.first {
            let end = self.run.first.min(self.to);
            self.last = Last::Gap {
                from: self.next,
                to: end,
            };
            self.next = end;
        } else {
            self.last = Last::Kept((self.next - self.run.first) as u16);
            self.next += 1;
        }
    }

    /// Reads the next row; false where there is none. Takes no memory. The file is the one on which the archive was opened,
    /// and earlier calls of this value read it too.
    ///
    /// After a `DiskFault` the same row is the next. `Format` comes at the gate of an entry that can't be read any more,
    /// which comes only over a disk that doesn't report its file.
    pub fn next<D: Disk>(&mut self, disk: &mut D) -> Result<bool, ArchiveFault>
        requires { ForSome (D.view disk.old).file (HasRows self.old) }
        ensures read { ReadsRow self.old self.new (D.view disk.old).file result }
        ensures moves { IfOk result (MovesOver self.old self.new) }
        ensures stays { OnErr result ((self.new.next ≡ self.old.next) × (self.new.row ≡ None)) }
        ensures refused { IfErr result (RowRefuses (D.view disk.old).file) }
        ensures same { SameTable self.old self.new }
        ensures disk { ReadsOnly (D.view disk.old) (D.view disk.new) }
        ensures leaves { Leaves Same (D.view disk.old) (D.view disk.new) }
        ensures link { (D.view disk.new).link ≡ (D.view disk.old).link }
        ensures cause { HasDiskCause (D.view disk.old).faults (D.view disk.new).faults result }
    {
        self.last = Last::Nothing;
        if self.next >= self.to {
            return Ok(false);
        }
        match self.find(disk) {
            Ok(()) => {}
            Err(fault) => return Err(fault),
        }
        self.take();
        Ok(true)
    }

    /// The row that the last call of `next` read, where that answered true.
    pub fn row(&self) -> Row<'_>
        requires { IsSome self.now.row }
        ensures row { self.now.row ≡ Some (seen_row result) }
        ensures whole { HasRecord self.now.layout result }
    {
        match self.last {
            Last::Nothing => unreachable!(),
            Last::Kept(k) => {
                let number = RecNo(self.run.first + u32::from(k));
                let bytes = &self.entries.body()[ADVANCE_HEAD..];
                Row::Kept(record_at(bytes, self.run.layout, number, k))
            }
            Last::Gap { from, to } => Row::Gap {
                from: RecNo(from),
                to: RecNo(to),
            },
        }
    }
}

impl Archive {
    ghost use Rattle.pb_archive.specs.Opened.{Stands, register_of};
    ghost use Rattle.pb_archive.specs.Reader.{BeginsAt};
    ghost use Rattle.pb_archive.specs.Refusals.{NeedsOpening, ReadRefuses};

    /// The rows of a table from one number up to, not with, another. The table is there, and `to` is at least `from` and at
    /// most the table's front. Takes memory: 65,536 bytes through which the file is read. No disk call is made yet.
    pub fn read(
        &self,
        alloc: Global,
        id: TableId,
        from: RecNo,
        to: RecNo,
    ) -> Result<Rows<'_>, ArchiveFault>
        requires there { id.0 < length self.now.tables }
        requires order { from.0 ≤ to.0 }
        requires front { (held : _) → slice_get self.now.tables id.0 ≡ Some held → to.0 ≤ held.front }
        ensures begins { IfOk result (λ r. (file : _)
            → Stands (register_of self.now) self.now.journal.gate file
            → BeginsAt r id.0 from.0 to.0 file) }
        ensures range { IfOk result (λ r. (r.next ≡ from.0) × (r.to ≡ to.0) × (r.row ≡ None)) }
        ensures held { IfOk result (λ r. r.entries.chunk.held ≡ window_len) }
        ensures layout { IfOk result (λ r. (held : _) → slice_get self.now.tables id.0 ≡ Some held
            → held.table.layout ≡ Ok r.layout) }
        ensures usable { OnOk result (NeedsOpening self.now false) }
        ensures refused { IfErr result (ReadRefuses self.now) }
    {
        if self.must_reopen {
            return Err(ArchiveFault::MustReopen);
        }
        let layout = self.register.layout(id);
        Ok(Rows {
            journal: &self.journal,
            entries: Entries::start(alloc)?,
            id,
            layout,
            next: from.0,
            to: to.0,
            run: Run {
                first: 0,
                count: 0,
                layout,
            },
            last: Last::Nothing,
        })
    }
}
