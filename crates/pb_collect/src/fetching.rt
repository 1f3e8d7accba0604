//! The table definitions of all stations of an archive, one station after the other.
ghost use Rattle.std.specs.Prelude.{◌≡◌, ℕ, List, [], ◌∷◌, ◌++◌, ◌+◌, ◌^◌, ◌<◌, ◌≤◌, false, length, vec_capacity, IfErr, OnOk, OnErr, MatchOption};
ghost use Rattle.pb_tdf.specs.Definition.{file_bytes_max};
ghost use Rattle.pb_tdf.specs.declared.fault.TdfFault.TheVariants.{Memory};
ghost use Rattle.pb_archive.specs.Opened.{IsOpen, register_of};
ghost use Rattle.pb_archive.specs.Refusals.{NeedsOpening};
ghost use Rattle.pb_collect.specs.Adding.{Adds, HoldsAtLeast};
ghost use Rattle.pb_collect.specs.Defining.{DiskKeeps, DiskLeaves, FaultLeaves};
ghost use Rattle.pb_collect.specs.Exchanges.{Goes};
ghost use Rattle.pb_collect.specs.Fetching.{Fetched, FetchedUntil, FileReads, FileStops, IsContact, StationCame, StationStops};
ghost use Rattle.pb_collect.specs.Report.{IsPlaceOf, station_line};
ghost use Rattle.pb_collect.specs.Tables.{channel};
ghost use Rattle.pb_collect.specs.declared.report.DefsLine.{DefsLine as Line};

use crate::command::Contact;
use crate::defining::define_all;
use crate::fault::DefsFault;
use crate::report::{DefsLine, DefsReport, DefsWhat};
use crate::uploading::{PIECE_MAX, upload};
use pb_archive::Archive;
use pb_ask::Listener;
use pb_io::{Disk, Failed, Site};
use pb_tdf::{Definitions, FILE_BYTES_MAX, TdfFault};
use pb_trans::Limits;
use std::alloc::Global;

// How the station of this place of the plan is asked.
fn contact_of(archive: &Archive, station: u8) -> Contact
    requires { station < length archive.now.plan.stations }
    ensures { IsContact archive.now.plan station result }
{
    let plan = archive.plan();
    let planned = plan.station(station).unwrap();
    Contact {
        me: plan.me(),
        via: plan.via(),
        station: planned.addr,
        code: planned.code,
    }
}

// The place of a fault of a file; none where there was no memory.
fn place_of(fault: TdfFault) -> Option<usize>
    ensures { MatchOption result (fault ≡ Memory) (λ at. IsPlaceOf fault at) }
{
    match fault {
        TdfFault::BadVersion => Some(0),
        TdfFault::Short { at } => Some(at),
        TdfFault::NoEnd { at } => Some(at),
        TdfFault::BadType { at } => Some(at),
        TdfFault::TooMany { at } => Some(at),
        TdfFault::Memory => None,
    }
}

// Adds the line of a station that fails.
fn push_failure(
    alloc: Global,
    report: &mut DefsReport,
    station: u8,
    what: DefsWhat,
) -> Result<(), DefsFault>
    ensures line { OnOk result (report.new.lines ≡ report.old.lines ++ station_line station what ∷ []) }
    ensures none { OnErr result (report.new.lines ≡ report.old.lines) }
    ensures fault { IfErr result (λ fault. fault ≡ DefsFault.Memory) }
{
    let Ok(()) = report.reserve() else {
        return Err(DefsFault::Memory);
    };
    report.push(DefsLine::of_station(alloc, station, what));
    Ok(())
}

// The tables of a station's file, or the place of its fault.
fn read_file<D: Disk>(
    alloc: Global,
    archive: &mut Archive,
    disk: &mut D,
    report: &mut DefsReport,
    station: u8,
    file: &[u8],
) -> Result<(), DefsFault>
    requires there { station < length archive.old.plan.stations }
    requires opened { IsOpen archive.old (D.view disk.old) }
    requires usable { NeedsOpening archive.old false }
    ensures reads { OnOk result ((lines : List Line) × (report.new.lines ≡ report.old.lines ++ lines)
        × FileReads station file.now lines (register_of archive.old) (register_of archive.new)) }
    ensures stops { IfErr result (λ fault. (lines : List Line)
        × (report.new.lines ≡ report.old.lines ++ lines)
        × FileStops fault station file.now lines (register_of archive.old) (register_of archive.new)) }
    ensures goes { OnOk result (Goes archive.new (D.view disk.old) (D.view disk.new)) }
    ensures fault { IfErr result (λ fault. DiskLeaves fault archive.new (D.view disk.old)
        (D.view disk.new)) }
    ensures keeps { DiskKeeps archive.new (D.view disk.old) (D.view disk.new) }
{
    match Definitions::read(alloc, file) {
        Ok(definitions) => define_all(alloc, archive, disk, report, station, &definitions),
        Err(fault) => match place_of(fault) {
            None => Err(DefsFault::Memory),
            Some(at) => push_failure(alloc, report, station, DefsWhat::Bad { at }),
        },
    }
}

// Asks a station for its file, and takes in the tables that it defines.
fn fetch_station<S: Site>(
    alloc: Global,
    archive: &mut Archive,
    site: &mut S,
    listener: &mut Listener,
    tran: &mut u8,
    limits: Limits,
    file: &mut Vec<u8>,
    report: &mut DefsReport,
    station: u8,
) -> Result<(), DefsFault>
    requires sends { 1 ≤ limits.sends }
    requires quiets { 1 ≤ limits.quiets }
    requires count { listener.old.ear.count ≤ 2 ^ 60 }
    requires room { file_bytes_max + 1000 ≤ vec_capacity file.old }
    requires there { station < length archive.old.plan.stations }
    requires opened { IsOpen archive.old (S.view site.old) }
    requires usable { NeedsOpening archive.old false }
    ensures came { OnOk result ((lines : List Line) × (report.new.lines ≡ report.old.lines ++ lines)
        × StationCame limits archive.old.plan station lines (channel listener.old (S.view site.old).link)
        (channel listener.new (S.view site.new).link) (register_of archive.old) (register_of archive.new)) }
    ensures stops { IfErr result (λ fault. (lines : List Line)
        × (report.new.lines ≡ report.old.lines ++ lines)
        × StationStops fault limits archive.old.plan station lines
        (channel listener.old (S.view site.old).link)
        (S.view site.new).link (register_of archive.old) (register_of archive.new)) }
    ensures room { vec_capacity file.old ≤ vec_capacity file.new }
    ensures goes { OnOk result (Goes archive.new (S.view site.old) (S.view site.new)) }
    ensures fault { IfErr result (λ fault. FaultLeaves fault archive.new (S.view site.old)
        (S.view site.new)) }
    ensures holds { HoldsAtLeast (register_of archive.new) (S.view site.new) }
    ensures adds { Adds (S.view site.old) (S.view site.new) }
    ensures count { listener.new.ear.count ≤ listener.old.ear.count + 2 ^ 44 }
{
    file.clear();
    let contact = contact_of(archive, station);
    match upload(listener, site, tran, limits, &contact, file) {
        Err(Failed) => Err(DefsFault::LinkFault),
        Ok(Some(cause)) => push_failure(alloc, report, station, DefsWhat::Failed(cause)),
        Ok(None) => read_file(alloc, archive, site, report, station, file),
    }
}

/// Asks each station of the plan, in its order, for its file, and takes in the tables that it defines. What was done before
/// a fault stays.
pub(crate) fn fetch_all<S: Site>(
    alloc: Global,
    archive: &mut Archive,
    site: &mut S,
    tran: &mut u8,
    limits: Limits,
    report: &mut DefsReport,
) -> Result<(), DefsFault>
    requires sends { 1 ≤ limits.sends }
    requires quiets { 1 ≤ limits.quiets }
    requires opened { IsOpen archive.old (S.view site.old) }
    requires usable { NeedsOpening archive.old false }
    ensures fetched { OnOk result ((lines : List Line) × (report.new.lines ≡ report.old.lines ++ lines)
        × Fetched limits lines (S.view site.old).link (S.view site.new).link (register_of archive.old)
        (register_of archive.new)) }
    ensures until { IfErr result (λ fault. (lines : List Line)
        × (report.new.lines ≡ report.old.lines ++ lines)
        × FetchedUntil fault limits lines (S.view site.old).link (S.view site.new).link
        (register_of archive.old)
        (register_of archive.new)) }
    ensures goes { OnOk result (Goes archive.new (S.view site.old) (S.view site.new)) }
    ensures fault { IfErr result (λ fault. FaultLeaves fault archive.new (S.view site.old)
        (S.view site.new)) }
    ensures holds { HoldsAtLeast (register_of archive.new) (S.view site.new) }
    ensures adds { Adds (S.view site.old) (S.view site.new) }
{
    let Ok(mut file) = Vec::with_capacity(alloc, FILE_BYTES_MAX + PIECE_MAX) else {
        return Err(DefsFault::Memory);
    };
    let mut listener = Listener::new();
    for station in 0..archive.plan().count() {
        match fetch_station(
            alloc,
            archive,
            site,
            &mut listener,
            tran,
            limits,
            &mut file,
            report,
            station,
        ) {
            Ok(()) => {}
            Err(fault) => return Err(fault),
        }
    }
    Ok(())
}
