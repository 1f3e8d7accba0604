//! `export`: the rows of a table of an archive as CSV.
ghost use Rattle.std.specs.Prelude.{◌≡◌, ◌≢◌, ◌<◌, false, length};
ghost use Rattle.pb_archive.specs.Find.{first_named};
ghost use Rattle.pb_archive.specs.Opened.{IsOpen, register_of};
ghost use Rattle.pb_archive.specs.Refusals.{NeedsOpening};
ghost use Rattle.pb_io.specs.Outside.{talk};
ghost use Rattle.pb_io.specs.Settled.{Leaves};
ghost use Rattle.pb_journal.specs.Changes.{Keeps, Same};
ghost use Rattle.pb_tool.specs.Causes.{Counts};
ghost use Rattle.pb_tool.specs.Export.{Exports, ExportsNamed, RanExport, asked_by, end_number, first_number};
ghost use Rattle.pb_tool.specs.Order.{Export};
ghost use Rattle.pb_tool.specs.Words.{IsAllowed};

use crate::Status;
use crate::closing::close;
use crate::refusal::refuse;
use crate::words::{Asked, Numbers};
use pb_archive::{Archive, ArchiveFault};
use pb_base::{RecNo, TableId};
use pb_csv::ExportFault;
use pb_io::{Sink, Site};
use std::alloc::Global;

/// Opens the archive, and writes the rows that are asked for, cut to the front of their table.
pub fn print<S: Site, O: Sink>(alloc: Global, asked: Asked, site: &mut S, out: &mut O) -> Status
    requires { IsAllowed (Export (asked_by asked)) }
    ensures ran { RanExport (asked_by asked.entry) result (talk S.Disk O.Sink site.old out.old)
        (talk S.Disk O.Sink site.new out.new) }
    ensures leaves { Leaves Keeps (S.view site.old) (S.view site.new) }
    ensures link { (S.view site.new).link ≡ (S.view site.old).link }
    ensures disk { Counts Status.DiskFault result (S.view site.old).faults (S.view site.new).faults }
    ensures writes { Counts Status.WriteFault result (O.write_faults out.old) (O.write_faults out.new) }
    ensures read_fault { result ≢ Status.ReadFault }
    ensures link_fault { result ≢ Status.LinkFault }
{
    match Archive::open(alloc, site) {
        Ok(archive) => put_named(alloc, &archive, asked, site, out),
        Err(fault) => refuse(fault, out),
    }
}

// Writes the rows of the table of a name at the station of a name, or that there is none.
fn put_named<S: Site, O: Sink>(
    alloc: Global,
    archive: &Archive,
    asked: Asked,
    site: &mut S,
    out: &mut O,
) -> Status
    requires allowed { IsAllowed (Export (asked_by asked)) }
    requires usable { NeedsOpening archive.now false }
    requires opened { IsOpen archive.now (S.view site.old) }
    ensures exports { ExportsNamed (asked_by asked.entry) (register_of archive.now)
        (first_named archive.now asked.entry.station.now asked.entry.table.now) result
        (talk S.Disk O.Sink site.old out.old) (talk S.Disk O.Sink site.new out.new) }
    ensures file { (S.view site.new).file ≡ (S.view site.old).file }
    ensures leaves { Leaves Same (S.view site.old) (S.view site.new) }
    ensures link { (S.view site.new).link ≡ (S.view site.old).link }
    ensures disk { Counts Status.DiskFault result (S.view site.old).faults (S.view site.new).faults }
    ensures writes { Counts Status.WriteFault result (O.write_faults out.old) (O.write_faults out.new) }
    ensures read_fault { result ≢ Status.ReadFault }
    ensures link_fault { result ≢ Status.LinkFault }
{
    match archive.find(asked.station.as_bytes(), asked.table.as_bytes()) {
        Some(id) => put_table(alloc, archive, id, asked, site, out),
        None => close(out, b"pakbus: unknown name\n", Status::Unknown),
    }
}

// Writes the rows of the table of this place.
fn put_table<S: Site, O: Sink>(
    alloc: Global,
    archive: &Archive,
    id: TableId,
    asked: Asked,
    site: &mut S,
    out: &mut O,
) -> Status
    requires allowed { IsAllowed (Export (asked_by asked)) }
    requires there { id.0 < length archive.now.tables }
    requires usable { NeedsOpening archive.now false }
    requires opened { IsOpen archive.now (S.view site.old) }
    ensures exports { Exports (asked_by asked.entry) (register_of archive.now) id.0
        result (talk S.Disk O.Sink site.old out.old) (talk S.Disk O.Sink site.new out.new) }
    ensures file { (S.view site.new).file ≡ (S.view site.old).file }
    ensures leaves { Leaves Same (S.view site.old) (S.view site.new) }
    ensures link { (S.view site.new).link ≡ (S.view site.old).link }
    ensures disk { Counts Status.DiskFault result (S.view site.old).faults (S.view site.new).faults }
    ensures writes { Counts Status.WriteFault result (O.write_faults out.old) (O.write_faults out.new) }
    ensures read_fault { result ≢ Status.ReadFault }
    ensures link_fault { result ≢ Status.LinkFault }
{
    let Some(table) = archive.table(id) else {
        unreachable!();
    };
    let range = cut(asked.numbers, table.front);
    match pb_csv::export(alloc, archive, site, id, range.from, range.to, out) {
        Ok(()) => Status::Done,
        Err(ExportFault::WriteFault) => Status::WriteFault,
        Err(ExportFault::DiskFault) => refuse(ArchiveFault::DiskFault, out),
        Err(ExportFault::Format { at }) => refuse(ArchiveFault::Format { at }, out),
        Err(ExportFault::Memory) => Status::Memory,
    }
}

// The numbers that are asked for, cut to a table's front.
fn cut(numbers: Option<Numbers>, front: RecNo) -> Numbers
    ensures from { result.from.0 ≡ first_number numbers front.0 }
    ensures to { result.to.0 ≡ end_number numbers front.0 }
{
    match numbers {
        None => Numbers {
            from: RecNo(0),
            to: front,
        },
        Some(numbers) => Numbers {
            from: RecNo(numbers.from.0.min(front.0)),
            to: RecNo(numbers.to.0.min(front.0)),
        },
    }
}
