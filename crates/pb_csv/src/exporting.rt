//! The rows of a table, written as CSV.
ghost use Rattle.std.specs.Prelude.{◌≡◌, ◌≤◌, ◌<◌, ℕ, [], List, Some, Ok, slice_get, length, true, false, is_ok, IfOk, IfErr};
ghost use Rattle.std.specs.Option.{ForSome};
ghost use Rattle.pb_io.specs.Disk.{ReadsOnly};
ghost use Rattle.pb_io.specs.Page.{Adds, printing};
ghost use Rattle.pb_io.specs.Settled.{Leaves};
ghost use Rattle.pb_journal.specs.Changes.{Same};
ghost use Rattle.pb_archive.specs.Opened.{IsOpen};
ghost use Rattle.pb_archive.specs.Reader.{HasRows};
ghost use Rattle.pb_archive.specs.Refusals.{NeedsOpening};
ghost use Rattle.pb_archive.specs.Rows.{SeenRow};
ghost use Rattle.pb_csv.specs.Export.{Exported, IsRange, ExportRefuses, HasCauseOf};
ghost use Rattle.pb_csv.specs.Inside.{ReadsRows, PutsRow, PutsFirst, PutsLines, of_archive};

use crate::fault::ExportFault;
use crate::printer::Printer;
use pb_archive::{Archive, ArchiveFault, Rows};
use pb_base::{RecNo, TableId};
use pb_io::{Disk, Page, Sink};
use std::alloc::Global;

// The fault of a reading as that of an export.
fn of_archive(fault: ArchiveFault) -> ExportFault
    ensures { result ≡ of_archive fault }
{
    match fault {
        ArchiveFault::DiskFault => ExportFault::DiskFault,
        ArchiveFault::Format { at } => ExportFault::Format { at },
        _ => ExportFault::Memory,
    }
}

// Reads the next row and adds it to the page; false where there is none.
fn put_row<D: Disk, O: Sink>(
    alloc: Global,
    printer: &mut Printer,
    rows: &mut Rows,
    disk: &mut D,
    page: &mut Page,
    out: &mut O,
) -> Result<bool, ExportFault>
    requires layout { printer.old.table.now.layout ≡ Ok rows.old.layout }
    requires rows { ForSome (D.view disk.old).file (HasRows rows.old) }
    ensures puts { PutsRow printer.old.table.now.fields (printing O.Sink page.old out.old)
        (printing O.Sink page.new out.new)
        rows.old rows.new (D.view disk.old).file result }
    ensures moves { IfOk result (λ more. more ≡ true → (rows.old.next < rows.new.next)
        × (rows.new.next ≤ rows.new.to)) }
    ensures to { rows.new.to ≡ rows.old.to }
    ensures table { printer.new.table.now ≡ printer.old.table.now }
    ensures layout { rows.new.layout ≡ rows.old.layout }
    ensures reads { ReadsRows (D.view disk.old) (D.view disk.new) result }
{
    match rows.next(disk) {
        Ok(true) => {}
        Ok(false) => return Ok(false),
        Err(fault) => return Err(of_archive(fault)),
    }
    match printer.row(alloc, rows.row()) {
        Ok(()) => {}
        Err(_) => return Err(ExportFault::Memory),
    }
    page.push(&printer.line, out);
    Ok(true)
}

// Reads all rows and adds them to the page.
fn put_rows<D: Disk, O: Sink>(
    alloc: Global,
    printer: &mut Printer,
    rows: &mut Rows,
    disk: &mut D,
    page: &mut Page,
    out: &mut O,
) -> Result<(), ExportFault>
    requires layout { printer.old.table.now.layout ≡ Ok rows.old.layout }
    requires rows { ForSome (D.view disk.old).file (HasRows rows.old) }
    ensures puts { PutsFirst printer.old.table.now.fields (printing O.Sink page.old out.old)
        (printing O.Sink page.new out.new)
        rows.old (D.view disk.old).file (is_ok result) }
    ensures reads { ReadsRows (D.view disk.old) (D.view disk.new) result }
{
    loop {
        match put_row(alloc, printer, rows, disk, page, out) {
            Ok(true) => {}
            Ok(false) => return Ok(()),
            Err(fault) => return Err(fault),
        }
    }
}

// Adds the names and all rows to the page.
fn put_lines<D: Disk, O: Sink>(
    alloc: Global,
    printer: &mut Printer,
    rows: &mut Rows,
    disk: &mut D,
    page: &mut Page,
    out: &mut O,
) -> Result<(), ExportFault>
    requires layout { printer.old.table.now.layout ≡ Ok rows.old.layout }
    requires rows { ForSome (D.view disk.old).file (HasRows rows.old) }
    ensures puts { PutsLines printer.old.table.now.fields (printing O.Sink page.old out.old)
        (printing O.Sink page.new out.new)
        rows.old (D.view disk.old).file (is_ok result) }
    ensures reads { ReadsRows (D.view disk.old) (D.view disk.new) result }
{
    match printer.header(alloc) {
        Ok(()) => {}
        Err(_) => return Err(ExportFault::Memory),
    }
    page.push(&printer.line, out);
    put_rows(alloc, printer, rows, disk, page, out)
}

/// Writes the rows of a table from one record number up to, not with, another as CSV (of this project): a row of names, and
/// then one for each record that is kept and one for each gap, in the order of the numbers. The table is there, `to` is at
/// least `from` and at most the table's front, and the file is the one on which the archive was opened, which is only read.
///
/// Takes memory: 65,536 bytes through which the file is read, one row, and the text of one value. After a `WriteFault` a
/// prefix of the text was written, after any other refusal some of its lines, each of them whole.
pub fn export<D: Disk, O: Sink>(
    alloc: Global,
    archive: &Archive,
    disk: &mut D,
    id: TableId,
    from: RecNo,
    to: RecNo,
    out: &mut O,
) -> Result<(), ExportFault>
    requires there { id.0 < length archive.now.tables }
    requires order { from.0 ≤ to.0 }
    requires front { (held : _) → slice_get archive.now.tables id.0 ≡ Some held → to.0 ≤ held.front }
    requires usable { NeedsOpening archive.now false }
    requires opened { IsOpen archive.now (D.view disk.old) }
    ensures text { (held : _) → slice_get archive.now.tables id.0 ≡ Some held
        → (rows : List SeenRow) × IsRange (record { id = id.0; from = from.0; to = to.0 })
        (D.view disk.old).file rows
        × Exported held.table.fields rows (O.written out.old) (O.written out.new) result }
    ensures refused { IfErr result (ExportRefuses (D.view disk.old).file) }
    ensures disk { ReadsOnly (D.view disk.old) (D.view disk.new) }
    ensures leaves { Leaves Same (D.view disk.old) (D.view disk.new) }
    ensures link { (D.view disk.new).link ≡ (D.view disk.old).link }
    ensures cause { HasCauseOf ExportFault.DiskFault (D.view disk.old).faults (D.view disk.new).faults
        result }
    ensures writes { HasCauseOf ExportFault.WriteFault (O.write_faults out.old)
        (O.write_faults out.new) result }
{
    let Some(table) = archive.table(id) else {
        unreachable!();
    };
    let mut rows = match archive.read(alloc, id, from, to) {
        Ok(rows) => rows,
        Err(_) => return Err(ExportFault::Memory),
    };
    let mut printer = match Printer::new(alloc, table.table) {
        Ok(printer) => printer,
        Err(_) => return Err(ExportFault::Memory),
    };
    let mut page = Page::new();
    let result = put_lines(alloc, &mut printer, &mut rows, disk, &mut page, out);
    match page.flush(out) {
        Ok(()) => result,
        Err(_) => Err(ExportFault::WriteFault),
    }
}
