//! The tables that a station's file defines: each is compared with the archive's, and added where it is new.
ghost use Rattle.std.specs.Prelude.{◌≡◌, ℕ, List, [], ◌∷◌, ◌++◌, ◌<◌, false, true, length, slice_get, IfOk, IfErr, OnOk, OnErr, MatchOption, Some};
ghost use Rattle.std.specs.List.{AllByRecursion};
ghost use Rattle.pb_archive.specs.Opened.{HasLayout, IsOpen, IsOther, register_of};
ghost use Rattle.pb_archive.specs.Refusals.{NeedsOpening};
ghost use Rattle.pb_archive.specs.declared.held.Held.{Held};
ghost use Rattle.pb_collect.specs.Defining.{DiskEnds, DiskKeeps, DiskLeaves, IsAt, TableCame, TablesCame, Treats};
ghost use Rattle.pb_collect.specs.Exchanges.{Goes};
ghost use Rattle.pb_collect.specs.declared.report.DefsLine.{DefsLine as Line};

use crate::fault::DefsFault;
use crate::report::{DefsLine, DefsReport, DefsWhat, Text};
use crate::state::state_of;
use pb_archive::{Archive, TABLES_MAX};
use pb_base::{TableId, TableNo};
use pb_io::Disk;
use pb_tdf::{Definitions, Table};
use std::alloc::Global;

// The place of the station's table of this number.
fn place_of(archive: &Archive, station: u8, number: TableNo) -> Option<TableId>
    ensures { MatchOption result (AllByRecursion (IsOther station number.0) archive.now.tables)
        (λ id. (held : Held) × IsAt (register_of archive.now) station number.0 id.0 held) }
{
    for n in 0..archive.tables() {
        if has_number(archive, TableId(n), station, number) {
            return Some(TableId(n));
        }
    }
    None
}

// Whether the table of this place, which is there, is the station's of this number.
fn has_number(archive: &Archive, id: TableId, station: u8, number: TableNo) -> bool
    requires { id.0 < length archive.now.tables }
    ensures yes { result ≡ true → (held : Held)
        × IsAt (register_of archive.now) station number.0 id.0 held }
    ensures no { result ≡ false → (held : Held) → slice_get archive.now.tables id.0 ≡ Some held
        → IsOther station number.0 held }
{
    match archive.table(id) {
        Some(view) => view.station == station && view.number == number,
        None => false,
    }
}

// What comes of a table that the archive has under its number. Where that has another signature, it is stopped.
fn compare<D: Disk>(
    archive: &mut Archive,
    disk: &mut D,
    id: TableId,
    signature: u16,
) -> Result<DefsWhat, DefsFault>
    requires there { id.0 < length archive.old.tables }
    requires opened { IsOpen archive.old (D.view disk.old) }
    requires usable { NeedsOpening archive.old false }
    ensures treats { IfOk result (λ what. (station number : ℕ) (held : Held) (t : _)
        → IsAt (register_of archive.old) station number id.0 held → HasLayout t → t.signature ≡ signature
        → Treats station number t what (register_of archive.old) (register_of archive.new)) }
    ensures stays { OnErr result (register_of archive.new ≡ register_of archive.old) }
    ensures ends { DiskEnds result archive.new (D.view disk.old) (D.view disk.new) }
    ensures keeps { DiskKeeps archive.new (D.view disk.old) (D.view disk.new) }
{
    let state = state_of(archive, id);
    if state.signature == signature {
        return Ok(DefsWhat::Same);
    }
    let old = state.signature;
    match state.stop {
        Some(_) => Ok(DefsWhat::Redefined { old }),
        None => match archive.stop(disk, id, Some(signature)) {
            Ok(()) => Ok(DefsWhat::Redefined { old }),
            Err(_) => Err(DefsFault::DiskFault),
        },
    }
}

// Adds a table of which the archive has none of its number, where there is room.
fn add<D: Disk>(
    alloc: Global,
    archive: &mut Archive,
    disk: &mut D,
    station: u8,
    number: TableNo,
    table: &Table,
) -> Result<DefsWhat, DefsFault>
    requires there { station < length archive.old.plan.stations }
    requires new { AllByRecursion (IsOther station number.0) archive.old.tables }
    requires layout { HasLayout table.now }
    requires opened { IsOpen archive.old (D.view disk.old) }
    requires usable { NeedsOpening archive.old false }
    ensures treats { IfOk result (λ what. Treats station number.0 table.now what (register_of archive.old)
        (register_of archive.new)) }
    ensures stays { OnErr result (register_of archive.new ≡ register_of archive.old) }
    ensures ends { DiskEnds result archive.new (D.view disk.old) (D.view disk.new) }
    ensures keeps { DiskKeeps archive.new (D.view disk.old) (D.view disk.new) }
{
    if usize::from(archive.tables()) >= TABLES_MAX {
        return Ok(DefsWhat::NotFull);
    }
    let Ok(table) = Table::read(alloc, table.bytes()) else {
        return Err(DefsFault::Memory);
    };
    match archive.add_table(disk, station, number, table) {
        Ok(_) => Ok(DefsWhat::Added),
        Err(_) => Err(DefsFault::DiskFault),
    }
}

// What comes of a table of a station's file.
fn treat<D: Disk>(
    alloc: Global,
    archive: &mut Archive,
    disk: &mut D,
    station: u8,
    number: TableNo,
    table: &Table,
) -> Result<DefsWhat, DefsFault>
    requires there { station < length archive.old.plan.stations }
    requires opened { IsOpen archive.old (D.view disk.old) }
    requires usable { NeedsOpening archive.old false }
    ensures treats { IfOk result (λ what. Treats station number.0 table.now what (register_of archive.old)
        (register_of archive.new)) }
    ensures stays { OnErr result (register_of archive.new ≡ register_of archive.old) }
    ensures ends { DiskEnds result archive.new (D.view disk.old) (D.view disk.new) }
    ensures keeps { DiskKeeps archive.new (D.view disk.old) (D.view disk.new) }
{
    if table.layout().is_err() {
        return Ok(DefsWhat::NotText);
    }
    match place_of(archive, station, number) {
        Some(id) => compare(archive, disk, id, table.signature()),
        None => add(alloc, archive, disk, station, number, table),
    }
}

// A table of a station's file, and its line. The memory of the line is taken before the archive changes.
fn define<D: Disk>(
    alloc: Global,
    archive: &mut Archive,
    disk: &mut D,
    report: &mut DefsReport,
    station: u8,
    number: TableNo,
    table: &Table,
) -> Result<(), DefsFault>
    requires there { station < length archive.old.plan.stations }
    requires opened { IsOpen archive.old (D.view disk.old) }
    requires usable { NeedsOpening archive.old false }
    ensures came { OnOk result ((line : Line) × (report.new.lines ≡ report.old.lines ++ line ∷ [])
        × TableCame station number.0 table.now line (register_of archive.old) (register_of archive.new)) }
    ensures lines { OnErr result (report.new.lines ≡ report.old.lines) }
    ensures stays { OnErr result (register_of archive.new ≡ register_of archive.old) }
    ensures ends { DiskEnds result archive.new (D.view disk.old) (D.view disk.new) }
    ensures keeps { DiskKeeps archive.new (D.view disk.old) (D.view disk.new) }
{
    let Ok(name) = Text::of(alloc, table.name()) else {
        return Err(DefsFault::Memory);
    };
    let Ok(()) = report.reserve() else {
        return Err(DefsFault::Memory);
    };
    match treat(alloc, archive, disk, station, number, table) {
        Err(fault) => Err(fault),
        Ok(what) => {
            report.push(DefsLine {
                station,
                number,
                sig: table.signature(),
                name,
                what,
            });
            Ok(())
        }
    }
}

/// The tables of a station's file, in their order, with a line for each. What was done before a fault stays.
pub(crate) fn define_all<D: Disk>(
    alloc: Global,
    archive: &mut Archive,
    disk: &mut D,
    report: &mut DefsReport,
    station: u8,
    definitions: &Definitions,
) -> Result<(), DefsFault>
    requires there { station < length archive.old.plan.stations }
    requires opened { IsOpen archive.old (D.view disk.old) }
    requires usable { NeedsOpening archive.old false }
    ensures came { OnOk result ((lines : List Line) × (report.new.lines ≡ report.old.lines ++ lines)
        × TablesCame station definitions.now (length definitions.now) lines (register_of archive.old)
        (register_of archive.new)) }
    ensures begun { OnErr result ((lines : List Line) × (n : ℕ)
        × (report.new.lines ≡ report.old.lines ++ lines)
        × (n < length definitions.now) × TablesCame station definitions.now n lines
        (register_of archive.old) (register_of archive.new)) }
    ensures goes { OnOk result (Goes archive.new (D.view disk.old) (D.view disk.new)) }
    ensures fault { IfErr result (λ fault. DiskLeaves fault archive.new (D.view disk.old)
        (D.view disk.new)) }
    ensures keeps { DiskKeeps archive.new (D.view disk.old) (D.view disk.new) }
{
    for n in 0..definitions.count() {
        let number = TableNo(n + 1);
        let table = definitions.table(number).unwrap();
        match define(alloc, archive, disk, report, station, number, table) {
            Ok(()) => {}
            Err(fault) => return Err(fault),
        }
    }
    Ok(())
}
