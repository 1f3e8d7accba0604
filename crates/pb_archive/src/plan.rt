//! The plan of an archive: its stations, and who asks them through which neighbour.
ghost use Rattle.std.specs.Prelude.{◌≡◌, ◌≢◌, ◌↔◌, IsTrue, ℕ, ◌<◌, ◌≤◌, [], length, slice_get, option_copied, position, IfSome, MatchOption, IfOk, OnOk, OnErr, IfErr, true, false};
ghost use Rattle.std.specs.List.{AllByRecursion};
ghost use Rattle.pb_archive.specs.Inside.{station};
ghost use Rattle.pb_archive.specs.Plan.{address_max, stations_max, IsAddress, IsStationName, IsStation, IsBegun, IsPlan, Differs, with_station};
ghost use Rattle.pb_archive.specs.Find.{has_name};

use indexmap::IndexSet;
use pb_base::{Memory, Name, NodeId, is_name_byte};
use std::alloc::Global;
use std::marker::Model;

/// The highest address of a node that isn't every node's.
pub const ADDRESS_MAX: u16 = 4094;
/// The most stations of a plan.
pub const STATIONS_MAX: usize = 64;
/// The most bytes of a station's name.
pub const STATION_NAME_MAX: usize = 32;

/// A station of a plan: its address, 1 to 4094, the security code of its commands, and its name of 1 to 32 bytes.
#[derive(Clone, Copy, Debug)]
pub struct StationPlan {
    pub addr: NodeId,
    pub code: u16,
    pub name: Name,
}

/// The address of one node, 1 to 4094.
pub(crate) fn address(n: u16) -> Option<NodeId>
    ensures { MatchOption result (IsAddress n → ⊥) (λ node. (node ≡ n) × IsAddress n) }
{
    if n > ADDRESS_MAX {
        return None;
    }
    NodeId::new(n)
}

// Whether the bytes are a station's name.
fn is_station_name(name: &[u8]) -> bool
    ensures { IsTrue result ↔ IsStationName name.now }
{
    if name.is_empty() || name.len() > STATION_NAME_MAX {
        return false;
    }
    name.iter().all(|byte| is_name_byte(*byte))
}

/// A station with an address other than `me`; none where a rule on its own fields is broken.
pub(crate) fn station_of(me: NodeId, addr: u16, code: u16, name: &[u8]) -> Option<StationPlan>
    ensures { MatchOption result (IsStation me (station addr code name.now) → ⊥)
        (λ s. (s ≡ station addr code name.now) × IsStation me s) }
{
    if !is_station_name(name) || addr == me.get() {
        return None;
    }
    Some(StationPlan {
        addr: address(addr)?,
        code,
        name: Name::new(name)?,
    })
}

// Whether no station has this address.
fn is_free(stations: &[StationPlan], addr: NodeId) -> bool
    ensures { IsTrue result ↔ AllByRecursion (λ s. addr ≢ s.addr) stations.now }
{
    stations.iter().all(|station| station.addr != addr)
}

/// Why a station isn't added.
#[derive(Clone, Copy, Debug, PartialEq, Eq)]
pub(crate) enum StationFault {
    Refused,
    Memory,
}

/// A plan to which stations are added.
#[derive(Drop)]
pub(crate) struct Draft {
    me: NodeId,
    via: NodeId,
    names: IndexSet<Name>,
    stations: Vec<StationPlan>,
}

impl Model for Draft {
    ghost use Rattle.std.specs.Prelude.{◌≡◌, ◌≤◌, map, vec_capacity};
    ghost use Rattle.pb_archive.specs.Inside.{name_of};
    ghost use Rattle.pb_archive.specs.Plan.{Plan, IsBegun, stations_max};

    ghost Value = { Plan };

    ghost view = { λ d. record { me = d.me; via = d.via; stations = d.stations.items } };

    ghost invariant = { λ d. IsBegun (record { me = d.me; via = d.via; stations = d.stations.items })
        × (d.names.keys ≡ map name_of d.stations.items)
        × (stations_max ≤ vec_capacity d.stations) };
}

impl Draft {
    /// A plan without stations.
    pub(crate) fn new(alloc: Global, me: NodeId, via: NodeId) -> Result<Draft, Memory>
        requires { IsAddress me × IsAddress via }
        ensures { IfOk result (λ d. d ≡ record { me = me; via = via; stations = [] }) }
    {
        Ok(Draft {
            me,
            via,
            names: IndexSet::new(alloc),
            stations: Vec::with_capacity(alloc, STATIONS_MAX).map_err(|_| Memory)?,
        })
    }

    /// The address that asks.
    pub(crate) fn me(&self) -> NodeId
        ensures me { result ≡ self.now.me }
        ensures begun { IsBegun self.now }
    {
        self.me
    }

    // Whether a station has this name.
    fn has_name(&self, name: Name) -> bool
        ensures free { result ≡ false → AllByRecursion (λ s. name ≢ s.name) self.now.stations }
        ensures taken { result ≡ true → AllByRecursion (λ s. name ≢ s.name) self.now.stations → ⊥ }
    {
        self.names.contains(&name)
    }

    // The place of the station of this name.
    fn place_of(&self, name: &[u8]) -> Option<usize>
        ensures { result ≡ position (has_name name.now) self.now.stations }
    {
        match Name::new(name) {
            None => None,
            Some(name) => self.names.get_index_of(&name),
        }
    }

    // Adds a station that differs from the others.
    fn push(&mut self, station: StationPlan) -> Result<(), Memory>
        requires few { length self.old.stations < stations_max }
        requires station { IsStation self.old.me station }
        requires differs { AllByRecursion (λ s. Differs s station) self.old.stations }
        ensures added { OnOk result (self.new ≡ with_station self.old station) }
        ensures stays { OnErr result (self.new ≡ self.old) }
    {
        match self.names.insert_full(station.name) {
            Ok(_) => {
                self.stations.push_reserved(station);
                Ok(())
            }
            Err(_) => Err(Memory),
        }
    }

    /// Adds a station, unless the plan is full, or one of its stations has the address or the name.
    pub(crate) fn add(&mut self, station: StationPlan) -> Result<(), StationFault>
        requires { IsStation self.old.me station }
        ensures added { OnOk result (self.new ≡ with_station self.old station) }
        ensures begun { OnOk result (IsBegun self.new) }
        ensures stays { OnErr result (self.new ≡ self.old) }
        ensures refused { IfErr result (λ fault. fault ≡ StationFault.Refused
            → IsBegun (with_station self.old station) → ⊥) }
    {
        if self.stations.len() >= STATIONS_MAX {
            return Err(StationFault::Refused);
        }
        if !is_free(&self.stations, station.addr) {
            return Err(StationFault::Refused);
        }
        if self.has_name(station.name) {
            return Err(StationFault::Refused);
        }
        match self.push(station) {
            Ok(()) => Ok(()),
            Err(_) => Err(StationFault::Memory),
        }
    }
}

/// The plan of an archive: the address that asks, the neighbour to which all frames go, and 1 to 64 stations that differ
/// in address and name. Contracts see it as these.
#[derive(Drop)]
pub struct Plan {
    draft: Draft,
}

impl Model for Plan {
    ghost use Rattle.std.specs.Prelude.{◌<◌, length};
    ghost use Rattle.pb_archive.specs.Plan as seen;

    ghost Value = { seen.Plan };

    ghost view = { λ p. p.draft };

    ghost invariant = { λ p. 0 < length p.draft.stations };
}

impl Plan {
    /// The plan of a draft with a station; none without.
    pub(crate) fn of_draft(draft: Draft) -> Option<Plan>
        ensures { MatchOption result (draft.stations ≡ []) (λ p. (p ≡ draft) × IsPlan p) }
    {
        if draft.stations.is_empty() {
            return None;
        }
        Some(Plan { draft })
    }

    /// The address that asks.
    pub fn me(&self) -> NodeId
        ensures value { result ≡ self.now.me }
        ensures plan { IsPlan self.now }
    {
        self.draft.me
    }

    /// The neighbour to which all frames go.
    pub fn via(&self) -> NodeId
        ensures { result ≡ self.now.via }
    {
        self.draft.via
    }

    /// The number of stations, 1 to 64.
    pub fn count(&self) -> u8
        ensures value { result ≡ length self.now.stations }
        ensures range { (1 ≤ result) × (result ≤ stations_max) }
    {
        self.draft.stations.len() as u8
    }

    /// A station by its place from 0; none where it isn't below the count.
    pub fn station(&self, n: u8) -> Option<&StationPlan>
        ensures { option_copied result ≡ slice_get self.now.stations n }
    {
        self.draft.stations.get(usize::from(n))
    }

    /// The stations in their order.
    pub(crate) fn stations(&self) -> &[StationPlan]
        ensures { result.now ≡ self.now.stations }
    {
        &self.draft.stations
    }

    /// The place of the station of this name.
    pub(crate) fn place_of(&self, name: &[u8]) -> Option<usize>
        ensures { result ≡ position (has_name name.now) self.now.stations }
    {
        self.draft.place_of(name)
    }
}
