//! Writing calls: each adds one entry, which is settled before it is counted.
ghost use Rattle.std.specs.Prelude.{◌≡◌, ◌<◌, ◌≤◌, ◌+◌, ◌^◌, ◌∷◌, [], ◌++◌, length, false, OnOk, OnErr, IfErr, IfOk, IsErrOf, is_err, Some, slice_get};
ghost use Rattle.std.specs.List.{AllByRecursion};
ghost use Rattle.std.specs.Option.{ForSome};
ghost use Rattle.pb_io.specs.Settled.{IsSettled};
ghost use Rattle.pb_journal.specs.Entries.{max_body_len};
ghost use Rattle.pb_tdf.specs.Definition.{IsTable};
ghost use Rattle.pb_tdf.specs.View.{view_of};
ghost use Rattle.pb_archive.specs.Entry as entry;
ghost use Rattle.pb_archive.specs.Entry.{Added, tables_max};
ghost use Rattle.pb_archive.specs.Held.{Writes, Wrote};
ghost use Rattle.pb_archive.specs.Inside as inside;
ghost use Rattle.pb_archive.specs.Opened.{CanAdvanceHere, GoesOn, HasLayout, IsOpen, IsOther, Stands, register_of, register_after, with_table, advance_of, an_advance, stop_of};
ghost use Rattle.pb_archive.specs.Refusals.{AddRefuses, ChangeRefuses, HasDiskCause, NeedsOpening};
ghost use Rattle.pb_archive.specs.Writing.{LeavesMade, LeavesRefused};

use crate::archive::Archive;
use crate::entry::{ADVANCE, Advance, STOP, TABLE};
use crate::fault::ArchiveFault;
use crate::held::TABLES_MAX;
use crate::table_view::Stop;
use pb_base::{RecNo, TableId, TableNo};
use pb_io::Disk;
use pb_journal::Journal;
use pb_tdf::Table;

// Adds the entry of a change.
fn write<D: Disk>(
    journal: &mut Journal,
    disk: &mut D,
    head: &[u8],
    rest: &[u8],
) -> Result<(), ArchiveFault>
    requires some { 0 < length head.now }
    requires few { length head.now + length rest.now ≤ max_body_len }
    requires usable { journal.old.must_reopen ≡ false }
    requires opened { (r : _) × ForSome (D.view disk.old).file (Stands r journal.old.gate) }
    requires settled { IsSettled (D.view disk.old) }
    ensures writes { (r : _) (change : _) → inside.CanWrite r change journal.old.gate
        (head.now ++ rest.now) (D.view disk.old)
        → Writes change (D.view disk.old) (D.view disk.new) }
    ensures wrote { OnOk result ((r : _) (change : _)
        → inside.CanWrite r change journal.old.gate (head.now ++ rest.now) (D.view disk.old)
        → Wrote change (D.view disk.old) (D.view disk.new)
        × ForSome (D.view disk.new).file (Stands (register_after r change) journal.new.gate)) }
    ensures refused { IfErr result (λ fault. fault ≡ ArchiveFault.DiskFault) }
    ensures must_reopen { journal.new.must_reopen ≡ is_err result }
    ensures gate { OnErr result (journal.new.gate ≡ journal.old.gate) }
    ensures cause { HasDiskCause (D.view disk.old).faults (D.view disk.new).faults result }
{
    journal.append(disk, head, rest)?;
    Ok(())
}

// What comes before the definition in a table's entry.
fn table_head(station: u8, number: TableNo) -> [u8; 4]
    ensures head { result ≡ entry.table_kind ∷ station ∷ entry.half number.0 }
    ensures ranges { (station < 2 ^ 8) × (number.0 < 2 ^ 16) }
{
    let [high, low] = number.0.to_be_bytes();
    [TABLE, station, high, low]
}

// What comes before the records in an advance's entry.
fn advance_head(id: TableId, advance: &Advance) -> [u8; 10]
    ensures ranges { (id.0 < 2 ^ 16) × (advance.now.form < 2 ^ 8)
        × (advance.now.first.0 < 2 ^ 32) × (advance.now.count < 2 ^ 16) }
    ensures head { result ≡ entry.advance_kind ∷ (entry.half id.0 ++ advance.now.form
        ∷ (entry.word advance.now.first.0 ++ entry.half advance.now.count)) }
{
    let [a, b] = id.0.to_be_bytes();
    let [c, d, e, f] = advance.first.0.to_be_bytes();
    let [g, h] = advance.count.to_be_bytes();
    [ADVANCE, a, b, advance.form, c, d, e, f, g, h]
}

// A stop's entry.
fn stop_body(id: TableId, stop: Stop) -> [u8; 6]
    ensures body { result ≡ entry.change_bytes (entry.Stopped id.0 stop) }
    ensures ranges { inside.IsSpelled (entry.Stopped id.0 stop) }
{
    let [a, b] = id.0.to_be_bytes();
    match stop.told {
        None => [STOP, a, b, 0, 0, 0],
        Some(signature) => {
            let [c, d] = signature.to_be_bytes();
            [STOP, a, b, 1, c, d]
        }
    }
}

impl Archive {
    // Adds the entry of a change. The register isn't changed yet.
    fn write<D: Disk>(&mut self, disk: &mut D, head: &[u8], rest: &[u8]) -> Result<(), ArchiveFault>
        requires some { 0 < length head.now }
        requires few { length head.now + length rest.now ≤ max_body_len }
        requires usable { NeedsOpening self.old false }
        requires opened { IsOpen self.old (D.view disk.old) }
        ensures writes { (change : _) → inside.IsEntryOf (register_of self.old) change
            (head.now ++ rest.now)
            → Writes change (D.view disk.old) (D.view disk.new) }
        ensures wrote { OnOk result ((change : _)
            → inside.IsEntryOf (register_of self.old) change (head.now ++ rest.now)
            → inside.HasWritten change (register_of self.old) self.new.journal.gate (D.view disk.old)
            (D.view disk.new)) }
        ensures same { register_of self.new ≡ register_of self.old }
        ensures refused { IfErr result (λ fault. fault ≡ ArchiveFault.DiskFault) }
        ensures must_reopen { NeedsOpening self.new (is_err result) }
        ensures cause { HasDiskCause (D.view disk.old).faults (D.view disk.new).faults result }
    {
        self.must_reopen = true;
        match write(&mut self.journal, disk, head, rest) {
            Ok(()) => {
                self.must_reopen = false;
                Ok(())
            }
            Err(fault) => Err(fault),
        }
    }

    /// Adds a table of a station, and answers its place. The station is there, no table of it has this number, and the table
    /// has a layout; the file is the one that was opened. On a refusal the table is dropped.
    ///
    /// `TooMany` comes where there are 1,024 tables. After a `DiskFault` the archive must be opened again, and each further
    /// call answers `MustReopen`.
    pub fn add_table<D: Disk>(
        &mut self,
        disk: &mut D,
        station: u8,
        number: TableNo,
        table: Table,
    ) -> Result<TableId, ArchiveFault>
        requires there { station < length self.old.plan.stations }
        requires new { AllByRecursion (IsOther station number.0) self.old.tables }
        requires layout { HasLayout table }
        requires opened { NeedsOpening self.old false → IsOpen self.old (D.view disk.old) }
        ensures place { IfOk result (λ id. id.0 ≡ length self.old.tables) }
        ensures allowed { OnOk result (NeedsOpening self.old false
            × (length self.old.tables < tables_max)) }
        ensures refused { IfErr result (AddRefuses self.old) }
        ensures refusal { IfErr result (LeavesRefused self.old self.new disk.old disk.new) }
        ensures cause { HasDiskCause (D.view disk.old).faults (D.view disk.new).faults result }
        ensures made { OnOk result (LeavesMade
            (with_table (register_of self.old) station number.0 table) self.new (D.view disk.new)) }
        ensures writes { (d : _) → IsTable d → table ≡ view_of d
            → Writes (Added station number.0 d) (D.view disk.old) (D.view disk.new) }
        ensures wrote { OnOk result ((d : _) → IsTable d → table ≡ view_of d
            → Wrote (Added station number.0 d) (D.view disk.old) (D.view disk.new)) }
    {
        if self.must_reopen {
            return Err(ArchiveFault::MustReopen);
        }
        let place = self.register.count();
        if place >= TABLES_MAX {
            return Err(ArchiveFault::TooMany);
        }
        match self.write(disk, &table_head(station, number), table.bytes()) {
            Ok(()) => {
                self.register.add(station, number, table);
                Ok(TableId(place as u16))
            }
            Err(fault) => Err(fault),
        }
    }

    /// The front of a table goes on: the numbers from it up to `first` become gaps, and the next `count` are kept. In form 0
    /// the bytes are `count` contents, in form 1 the run of an interval table.
    ///
    /// The table is there; `first` isn't below the front, `first` and `count` together are above it and at most
    /// 4,294,967,295; the bytes are those of the form, and at most 65,523; the file is the one that was opened. `Stopped`
    /// comes where the table has a stop. After a `DiskFault` the archive must be opened again, and each further call answers
    /// `MustReopen`. Takes no memory, and costs one entry.
    pub fn advance<D: Disk>(
        &mut self,
        disk: &mut D,
        id: TableId,
        form: u8,
        first: RecNo,
        count: u16,
        bytes: &[u8],
    ) -> Result<(), ArchiveFault>
        requires there { id.0 < length self.old.tables }
        requires follows { (held : _) → slice_get self.old.tables id.0 ≡ Some held
            → CanAdvanceHere held (advance_of form first.0 count bytes.now) }
        requires opened { NeedsOpening self.old false → IsOpen self.old (D.view disk.old) }
        ensures allowed { OnOk result (NeedsOpening self.old false × GoesOn (register_of self.old) id.0) }
        ensures refused { IfErr result (ChangeRefuses self.old id.0) }
        ensures refusal { IfErr result (LeavesRefused self.old self.new disk.old disk.new) }
        ensures cause { HasDiskCause (D.view disk.old).faults (D.view disk.new).faults result }
        ensures made { OnOk result (LeavesMade
            (register_after (register_of self.old) (an_advance id.0 form first.0 count bytes.now))
            self.new (D.view disk.new)) }
        ensures writes { Writes (an_advance id.0 form first.0 count bytes.now) (D.view disk.old)
            (D.view disk.new) }
        ensures wrote { OnOk result (Wrote (an_advance id.0 form first.0 count bytes.now)
            (D.view disk.old) (D.view disk.new)) }
    {
        if self.must_reopen {
            return Err(ArchiveFault::MustReopen);
        }
        match self.register.stop_of(id) {
            None => {}
            Some(stop) => return Err(ArchiveFault::Stopped { told: stop.told }),
        }
        let advance = Advance {
            form,
            first,
            count,
            bytes,
        };
        match self.write(disk, &advance_head(id, &advance), bytes) {
            Ok(()) => {
                self.register.advance(id, &advance);
                Ok(())
            }
            Err(fault) => Err(fault),
        }
    }

    /// Ends a table: no more is collected of it. `told` is the signature under which it goes on at its station, where
    /// that was told.
    ///
    /// The table is there, and the file is the one that was opened. `Stopped` comes where it has a stop, and then names
    /// what that told. After a `DiskFault` the archive must be opened again, and each further call answers `MustReopen`.
    pub fn stop<D: Disk>(
        &mut self,
        disk: &mut D,
        id: TableId,
        told: Option<u16>,
    ) -> Result<(), ArchiveFault>
        requires there { id.0 < length self.old.tables }
        requires opened { NeedsOpening self.old false → IsOpen self.old (D.view disk.old) }
        ensures allowed { OnOk result (NeedsOpening self.old false × GoesOn (register_of self.old) id.0) }
        ensures refused { IfErr result (ChangeRefuses self.old id.0) }
        ensures refusal { IfErr result (LeavesRefused self.old self.new disk.old disk.new) }
        ensures cause { HasDiskCause (D.view disk.old).faults (D.view disk.new).faults result }
        ensures made { OnOk result (LeavesMade
            (register_after (register_of self.old) (stop_of id.0 told)) self.new (D.view disk.new)) }
        ensures writes { Writes (stop_of id.0 told) (D.view disk.old) (D.view disk.new) }
        ensures wrote { OnOk result (Wrote (stop_of id.0 told) (D.view disk.old) (D.view disk.new)) }
    {
        if self.must_reopen {
            return Err(ArchiveFault::MustReopen);
        }
        match self.register.stop_of(id) {
            None => {}
            Some(stop) => return Err(ArchiveFault::Stopped { told: stop.told }),
        }
        let stop = Stop { told };
        match self.write(disk, &stop_body(id, stop), &[]) {
            Ok(()) => {
                self.register.stop(id, stop);
                Ok(())
            }
            Err(fault) => Err(fault),
        }
    }
}
