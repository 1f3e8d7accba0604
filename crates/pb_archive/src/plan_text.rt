//! A plan as text: the address that asks and its neighbour in the first line, and a station in each further one.
ghost use Rattle.std.specs.Prelude.{◌≡◌, ℕ, ◌<◌, ◌^◌, [], ◌∷◌, ◌++◌, List, IfOk, IfErr, OnOk, MatchOption, decimal};
ghost use Rattle.std.specs.List.{flat_map};
ghost use Rattle.pb_archive.specs.Inside.{LineRefuses, first_of};
ghost use Rattle.pb_archive.specs.Plan.{IsAddress, IsBegun, IsStation, PlanText, station_line};
ghost use Rattle.pb_archive.specs.PlanRefusal.{PlanRefuses};

use crate::fault::PlanFault;
use crate::plan::{Draft, Plan, StationFault, StationPlan, address, station_of};
use pb_base::{NodeId, after, cut_at, number_until};
use std::alloc::Global;

const SPACE: u8 = b' ';

const LINE_FEED: u8 = b'\n';

/// A number below 65,536, and what comes after it and its end.
#[derive(Clone, Copy)]
pub(crate) struct Short<'a> {
    pub(crate) n: u16,
    pub(crate) rest: &'a [u8],
}

// The number below 65,536 that comes first and ends with this byte, which is no digit.
fn short_until(text: &[u8], stop: u8) -> Option<Short>
    requires { stop < 48 }
    ensures { MatchOption result ((n : ℕ) (rest : List ℕ) → n < 2 ^ 16
        → text.now ≡ decimal n ++ stop ∷ rest → ⊥)
        (λ r. (r.n < 2 ^ 16) × (text.now ≡ decimal r.n ++ stop ∷ r.rest.now)) }
{
    let number = match number_until(text, stop) {
        Some(number) => number,
        None => return None,
    };
    if number.n > u32::from(u16::MAX) {
        return None;
    }
    Some(Short {
        n: number.n as u16,
        rest: number.rest,
    })
}

/// An address, and what comes after it and its end.
#[derive(Clone, Copy)]
pub(crate) struct Addressed<'a> {
    pub(crate) node: NodeId,
    pub(crate) rest: &'a [u8],
}

// The address that comes first and ends with this byte, which is no digit.
fn address_until(text: &[u8], stop: u8) -> Option<Addressed>
    requires { stop < 48 }
    ensures { MatchOption result ((n : ℕ) (rest : List ℕ) → IsAddress n
        → text.now ≡ decimal n ++ stop ∷ rest → ⊥)
        (λ r. IsAddress r.node × (text.now ≡ decimal r.node ++ stop ∷ r.rest.now)) }
{
    let first = match short_until(text, stop) {
        Some(first) => first,
        None => return None,
    };
    match address(first.n) {
        Some(node) => Some(Addressed {
            node,
            rest: first.rest,
        }),
        None => None,
    }
}

/// Two addresses, and what comes after their line.
#[derive(Clone, Copy)]
pub(crate) struct First<'a> {
    pub(crate) me: NodeId,
    pub(crate) via: NodeId,
    pub(crate) rest: &'a [u8],
}

// The two addresses of the first line; none where no such line comes first.
fn read_first(text: &[u8]) -> Option<First>
    ensures { MatchOption result ((me via : ℕ) (rest : List ℕ) → IsAddress me → IsAddress via
        → text.now ≡ first_of me via rest → ⊥)
        (λ f. IsAddress f.me × IsAddress f.via × (text.now ≡ first_of f.me f.via f.rest.now)) }
{
    let text = match after(text, b"self ") {
        Some(text) => text,
        None => return None,
    };
    let me = match address_until(text, SPACE) {
        Some(me) => me,
        None => return None,
    };
    let text = match after(me.rest, b"via ") {
        Some(text) => text,
        None => return None,
    };
    match address_until(text, LINE_FEED) {
        Some(via) => Some(First {
            me: me.node,
            via: via.node,
            rest: via.rest,
        }),
        None => None,
    }
}

/// A station, and what comes after its line.
#[derive(Clone, Copy)]
pub(crate) struct Next<'a> {
    pub(crate) station: StationPlan,
    pub(crate) rest: &'a [u8],
}

// The station of the next line; none where no such line comes next.
fn read_station(me: NodeId, text: &[u8]) -> Option<Next>
    ensures { MatchOption result ((s : _) (more : List ℕ) → IsStation me s
        → text.now ≡ station_line s ++ more → ⊥)
        (λ r. IsStation me r.station × (text.now ≡ station_line r.station ++ r.rest.now)) }
{
    let text = match after(text, b"station ") {
        Some(text) => text,
        None => return None,
    };
    let addr = match short_until(text, SPACE) {
        Some(addr) => addr,
        None => return None,
    };
    let code = match short_until(addr.rest, SPACE) {
        Some(code) => code,
        None => return None,
    };
    let name = match cut_at(code.rest, LINE_FEED) {
        Some(name) => name,
        None => return None,
    };
    match station_of(me, addr.n, code.n, name.before) {
        Some(station) => Some(Next {
            station,
            rest: name.after,
        }),
        None => None,
    }
}

// Adds the stations of all further lines.
fn read_stations(draft: &mut Draft, text: &[u8]) -> Result<(), PlanFault>
    requires begun { IsBegun draft.old }
    requires first { draft.old.stations ≡ [] }
    ensures read { OnOk result (IsBegun draft.new × (draft.new.me ≡ draft.old.me)
        × (draft.new.via ≡ draft.old.via)
        × (text.now ≡ flat_map station_line draft.new.stations)) }
    ensures refused { IfErr result (LineRefuses draft.old text.now) }
{
    let mut rest = text;
    let mut line = 2;
    while rest.len() != 0 {
        let next = match read_station(draft.me(), rest) {
            Some(next) => next,
            None => return Err(PlanFault::Line(line)),
        };
        match draft.add(next.station) {
            Ok(()) => {}
            Err(StationFault::Refused) => return Err(PlanFault::Line(line)),
            Err(StationFault::Memory) => return Err(PlanFault::Memory),
        }
        rest = next.rest;
        line += 1;
    }
    Ok(())
}

impl Plan {
    /// Reads a plan's text. Takes memory: the stations.
    ///
    /// The first line is `self ME via NODE`, and 1 to 64 lines `station ADDR CODE NAME` follow; each ends with a line feed.
    /// Addresses are 1 to 4094, a code is at most 65,535, and a name has 1 to 32 letters, digits, `_` and `-`. Stations
    /// differ in address and in name, and none has the address ME.
    pub fn read(alloc: Global, text: &[u8]) -> Result<Plan, PlanFault>
        ensures found { IfOk result (λ p. PlanText p text.now) }
        ensures refused { IfErr result (PlanRefuses text.now) }
    {
        let first = match read_first(text) {
            Some(first) => first,
            None => return Err(PlanFault::Line(1)),
        };
        let mut draft = match Draft::new(alloc, first.me, first.via) {
            Ok(draft) => draft,
            Err(_) => return Err(PlanFault::Memory),
        };
        match read_stations(&mut draft, first.rest) {
            Ok(()) => {}
            Err(fault) => return Err(fault),
        }
        match Plan::of_draft(draft) {
            Some(plan) => Ok(plan),
            None => Err(PlanFault::Line(2)),
        }
    }
}
