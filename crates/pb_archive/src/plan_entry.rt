//! The first entry of an archive: its plan.
ghost use Rattle.std.specs.Prelude.{◌≡◌, ℕ, ◌<◌, ◌≤◌, [], ◌++◌, length, IfOk, OnOk, IfErr, MatchOption};
ghost use Rattle.std.specs.List.{flat_map};
ghost use Rattle.pb_base.specs.Fields.{IsBytes};
ghost use Rattle.pb_journal.specs.Entries.{max_body_len};
ghost use Rattle.pb_archive.specs.Entry.{plan_bytes, station_bytes};
ghost use Rattle.pb_archive.specs.Inside.{station, IsSpelledStation, ReadsStation, ReadsStations};
ghost use Rattle.pb_archive.specs.Plan.{IsBegun, IsPlan, with_station};

use crate::entry::{EntryFault, PLAN, half_at};
use crate::plan::{Draft, Plan, StationFault, StationPlan, address, station_of};
use pb_base::{Fields, Memory};
use std::alloc::Global;

// How many bytes of a plan's entry come before its stations.
const PLAN_HEAD: usize = 6;

/// A station's fields.
#[derive(Clone, Copy)]
pub(crate) struct StationFields<'a> {
    pub(crate) addr: u16,
    pub(crate) code: u16,
    pub(crate) name: &'a [u8],
}

// The fields of the station that comes next; none where none does.
fn station_fields<'a>(fields: &mut Fields<'a>) -> Option<StationFields<'a>>
    requires { IsBytes fields.old.rest }
    ensures read { MatchOption result ((s : _) (rest : _) → IsSpelledStation s
        → fields.old.rest ≡ station_bytes s ++ rest → ⊥)
        (λ r. ReadsStation fields.old (station r.addr r.code r.name.now) fields.new) }
{
    let addr = match fields.u16() {
        Ok(addr) => addr,
        Err(_) => return None,
    };
    let code = match fields.u16() {
        Ok(code) => code,
        Err(_) => return None,
    };
    match fields.asciiz() {
        Ok(name) => Some(StationFields { addr, code, name }),
        Err(_) => None,
    }
}

// Adds the station that comes next.
fn read_station(fields: &mut Fields, draft: &mut Draft) -> Result<(), EntryFault>
    requires { IsBytes fields.old.rest }
    ensures read { OnOk result ((s : _) × ReadsStation fields.old s fields.new
        × (draft.new ≡ with_station draft.old s) × IsBegun draft.new) }
    ensures wrong { IfErr result (λ fault. fault ≡ EntryFault.Wrong → (s : _) (rest : _)
        → fields.old.rest ≡ station_bytes s ++ rest → IsBegun (with_station draft.old s) → ⊥) }
{
    let Some(next) = station_fields(fields) else {
        return Err(EntryFault::Wrong);
    };
    let station = match station_of(draft.me(), next.addr, next.code, next.name) {
        Some(station) => station,
        None => return Err(EntryFault::Wrong),
    };
    match draft.add(station) {
        Ok(()) => Ok(()),
        Err(StationFault::Refused) => Err(EntryFault::Wrong),
        Err(StationFault::Memory) => Err(EntryFault::Memory),
    }
}

// Adds so many stations, which are all that comes.
fn read_stations(fields: &mut Fields, draft: &mut Draft, count: u8) -> Result<(), EntryFault>
    requires bytes { IsBytes fields.old.rest }
    requires begun { IsBegun draft.old }
    requires first { draft.old.stations ≡ [] }
    ensures read { OnOk result (ReadsStations draft.old fields.old.rest count draft.new) }
    ensures wrong { IfErr result (λ fault. fault ≡ EntryFault.Wrong → (q : _) → IsBegun q
        → q.me ≡ draft.old.me → q.via ≡ draft.old.via
        → length q.stations ≡ count → fields.old.rest ≡ flat_map station_bytes q.stations → ⊥) }
{
    for _ in 0..count {
        match read_station(fields, draft) {
            Ok(()) => {}
            Err(fault) => return Err(fault),
        }
    }
    if fields.rest().len() != 0 {
        return Err(EntryFault::Wrong);
    }
    Ok(())
}

/// Reads the body of the first entry. Takes memory.
pub(crate) fn read_plan(alloc: Global, body: &[u8]) -> Result<Plan, EntryFault>
    ensures read { IfOk result (λ p. IsPlan p × (body.now ≡ plan_bytes p)) }
    ensures wrong { IfErr result (λ fault. fault ≡ EntryFault.Wrong → (p : _) → IsPlan p
        → body.now ≡ plan_bytes p → ⊥) }
{
    if body.len() < PLAN_HEAD || body[0] != PLAN {
        return Err(EntryFault::Wrong);
    }
    let (me, via) = match (address(half_at(body, 1)), address(half_at(body, 3))) {
        (Some(me), Some(via)) => (me, via),
        _ => return Err(EntryFault::Wrong),
    };
    let mut draft = match Draft::new(alloc, me, via) {
        Ok(draft) => draft,
        Err(_) => return Err(EntryFault::Memory),
    };
    let mut fields = Fields::new(&body[PLAN_HEAD..]);
    match read_stations(&mut fields, &mut draft, body[5]) {
        Ok(()) => {}
        Err(fault) => return Err(fault),
    }
    match Plan::of_draft(draft) {
        Some(plan) => Ok(plan),
        None => Err(EntryFault::Wrong),
    }
}

// Adds bytes at the end.
fn put(out: &mut Vec<u8>, bytes: &[u8]) -> Result<(), Memory>
    ensures { OnOk result (out.new.items ≡ out.old.items ++ bytes.now) }
{
    match out.extend_from_slice(bytes) {
        Ok(()) => Ok(()),
        Err(_) => Err(Memory),
    }
}

// Adds a station's bytes at the end.
fn put_station(out: &mut Vec<u8>, station: &StationPlan) -> Result<(), Memory>
    ensures { OnOk result (out.new.items ≡ out.old.items ++ station_bytes station.now) }
{
    put(out, &station.addr.get().to_be_bytes())?;
    put(out, &station.code.to_be_bytes())?;
    put(out, station.name.bytes())?;
    put(out, &[0])?;
    Ok(())
}

// Adds the bytes of stations at the end.
fn put_stations(out: &mut Vec<u8>, stations: &[StationPlan]) -> Result<(), Memory>
    ensures { OnOk result (out.new.items ≡ out.old.items ++ flat_map station_bytes stations.now) }
{
    for station in stations {
        match put_station(out, station) {
            Ok(()) => {}
            Err(fault) => return Err(fault),
        }
    }
    Ok(())
}

/// The body of a plan's entry. Takes memory.
pub(crate) fn plan_body(alloc: Global, plan: &Plan) -> Result<Vec<u8>, Memory>
    ensures { IfOk result (λ out. (out.items ≡ plan_bytes plan.now) × IsPlan plan.now) }
{
    let mut out = Vec::new(alloc);
    put(&mut out, &[PLAN])?;
    put(&mut out, &plan.me().get().to_be_bytes())?;
    put(&mut out, &plan.via().get().to_be_bytes())?;
    put(&mut out, &[plan.count()])?;
    put_stations(&mut out, plan.stations())?;
    Ok(out)
}
