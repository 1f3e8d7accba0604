//! What is kept in memory of an archive's tables: fronts, sums and definitions, no records.
ghost use Rattle.std.specs.Prelude.{◌≡◌, ◌↔◌, IsTrue, ℕ, ◌<◌, ◌≤◌, ◌+◌, ◌∷◌, [], ◌++◌, length, slice_get, true, false, Some, IfOk, MatchOption, position, option_map};
ghost use Rattle.std.specs.List.{AllByRecursion};
ghost use Rattle.pb_base.specs.declared.layout.Layout.{Layout};
ghost use Rattle.pb_base.specs.Record.{run_len};
ghost use Rattle.pb_base.specs.Time.{time_of, HasLater};
ghost use Rattle.pb_archive.specs.Archive.{changed_at};
ghost use Rattle.pb_archive.specs.Entry.{Change, HasForm, IsTimed, records_max, tables_max};
ghost use Rattle.pb_archive.specs.Find.{is_named, table_id};
ghost use Rattle.pb_archive.specs.Inside as inside;
ghost use Rattle.pb_archive.specs.Opened as opened;

use crate::entry::{Advance, Change};
use crate::plan::Plan;
use crate::table_view::Stop;
use pb_base::{Fields, Layout, Memory, TableId, TableNo};
use pb_tdf::Table;
use std::alloc::Global;
use std::marker::Model;

/// The most tables of an archive.
pub const TABLES_MAX: usize = 1024;
/// The most bytes of the records of one advance.
pub const ADVANCE_BYTES_MAX: usize = 65_523;

/// What is kept of a table.
#[derive(Drop)]
pub(crate) struct Held {
    pub(crate) station: u8,
    pub(crate) number: TableNo,
    pub(crate) table: Table,
    pub(crate) front: u32,
    pub(crate) gaps: u32,
    pub(crate) stop: Option<Stop>,
}

// Each record of a run has a time, where only the first has its own.
fn has_times(layout: Layout, count: u16, run: &[u8]) -> bool
    requires some { 0 < count }
    requires len { 8 ≤ length run.now }
    ensures { IsTrue result ↔ ((k : ℕ) → k < count → HasLater (time_of run.now) layout.interval k) }
{
    match Fields::new(run).nsec() {
        Err(_) => false,
        Ok(time) => time.after(layout.interval, u32::from(count) - 1).is_some(),
    }
}

// Whether the bytes are a run of an interval table, in which each record has a time.
fn is_timed(layout: Layout, advance: &Advance) -> bool
    requires form { advance.now.form ≡ 1 }
    requires numbers { advance.now.first.0 + advance.now.count ≤ records_max }
    ensures { IsTrue result ↔ IsTimed layout (inside.seen_advance advance.now) }
{
    if layout.event || advance.count == 0 {
        return false;
    }
    if advance.bytes.len() != layout.run_len(advance.count) {
        return false;
    }
    has_times(layout, advance.count, advance.bytes)
}

/// Whether the bytes of an advance are exactly those of its form.
pub(crate) fn has_form(layout: Layout, advance: &Advance) -> bool
    requires numbers { advance.now.first.0 + advance.now.count ≤ records_max }
    ensures { IsTrue result ↔ HasForm layout (inside.seen_advance advance.now) }
{
    match advance.form {
        0 => advance.bytes.len() == usize::from(advance.count) * layout.content_len(),
        1 => is_timed(layout, advance),
        _ => false,
    }
}

impl Held {
    // Whether it is another table than this one of a station.
    fn is_other(&self, station: u8, number: TableNo) -> bool
        ensures { IsTrue result ↔ inside.IsOther station number.0 self.now }
    {
        self.station != station || self.number != number
    }

    // Whether it is the table of this name at a station.
    fn is_named(&self, station: usize, name: &[u8]) -> bool
        ensures { result ≡ is_named station name.now self.now }
    {
        usize::from(self.station) == station && self.table.name() == name
    }

    // Whether an advance may follow, where there is no stop.
    fn can_advance(&self, advance: &Advance) -> bool
        ensures { IsTrue result ↔ inside.CanAdvanceHere self.now (inside.seen_advance advance.now) }
    {
        let first = advance.first.0;
        let Some(end) = first.checked_add(u32::from(advance.count)) else {
            return false;
        };
        if first < self.front || end <= self.front || advance.bytes.len() > ADVANCE_BYTES_MAX {
            return false;
        }
        match self.table.layout() {
            Err(_) => false,
            Ok(layout) => has_form(layout, advance),
        }
    }

    // The front goes on: the numbers up to the first record become gaps.
    fn advance(&mut self, advance: &Advance)
        requires gaps { self.old.gaps ≤ self.old.front }
        requires first { self.old.front ≤ advance.now.first.0 }
        requires numbers { advance.now.first.0 + advance.now.count ≤ records_max }
        ensures { self.new ≡ opened.advanced (inside.seen_advance advance.now) self.old }
    {
        self.gaps += advance.first.0 - self.front;
        self.front = advance.first.0 + u32::from(advance.count);
    }
}

// The place of the first table of this name at a station.
fn place_in(tables: &[Held], station: usize, name: &[u8]) -> Option<usize>
    ensures { result ≡ position (is_named station name.now) tables.now }
{
    tables.iter().position(|held| held.is_named(station, name))
}

/// The plan and the tables of an archive.
#[derive(Drop)]
pub(crate) struct Register {
    pub(crate) plan: Plan,
    pub(crate) tables: Vec<Held>,
}

impl Model for Register {
    ghost use Rattle.std.specs.Prelude.{◌≤◌, vec_capacity};
    ghost use Rattle.pb_archive.specs.Entry.{tables_max};
    ghost use Rattle.pb_archive.specs.Inside.{IsRegister};
    ghost use Rattle.pb_archive.specs.Opened as opened;

    ghost Value = { opened.Register };

    ghost view = { λ r. record { plan = r.plan; tables = r.tables.items } };

    ghost invariant = { λ r. IsRegister (record { plan = r.plan; tables = r.tables.items })
        × (tables_max ≤ vec_capacity r.tables) };
}

impl Register {
    /// The register of a plan without tables, with room for 1,024.
    pub(crate) fn new(alloc: Global, plan: Plan) -> Result<Register, Memory>
        ensures { IfOk result (λ r. r ≡ record { plan = plan; tables = [] }) }
    {
        Ok(Register {
            plan,
            tables: Vec::with_capacity(alloc, TABLES_MAX).map_err(|_| Memory)?,
        })
    }

    /// The number of tables.
    pub(crate) fn count(&self) -> usize
        ensures count { result ≡ length self.now.tables }
        ensures bound { result ≤ tables_max }
    {
        self.tables.len()
    }

    /// Whether no table of a station has this number.
    pub(crate) fn is_new(&self, station: u8, number: TableNo) -> bool
        ensures { IsTrue result ↔ AllByRecursion (inside.IsOther station number.0) self.now.tables }
    {
        self.tables
            .iter()
            .all(|held| held.is_other(station, number))
    }

    // Whether a table may be added.
    fn can_add(&self, station: u8, number: TableNo, table: &Table) -> bool
        ensures { IsTrue result ↔ inside.CanAddHere self.now station number.0 table.now }
    {
        if self.tables.len() >= TABLES_MAX || station >= self.plan.count() {
            return false;
        }
        table.layout().is_ok() && self.is_new(station, number)
    }

    /// Adds a table.
    pub(crate) fn add(&mut self, station: u8, number: TableNo, table: Table)
        requires { inside.CanAddHere self.old station number.0 table }
        ensures { self.new ≡ record {
          plan = self.old.plan;
          tables = self.old.tables ++ opened.new_held station number.0 table ∷ [];
        } }
    {
        self.tables.push_reserved(Held {
            station,
            number,
            table,
            front: 0,
            gaps: 0,
            stop: None,
        });
    }

    /// The numbers up to `first` become gaps, and the next `count` are kept.
    pub(crate) fn advance(&mut self, id: TableId, advance: &Advance)
        requires there { inside.MayAdvance self.old id.0 (inside.seen_advance advance.now) }
        ensures { self.new ≡ record {
          plan = self.old.plan;
          tables = changed_at id.0 (opened.advanced (inside.seen_advance advance.now)) self.old.tables;
        } }
    {
        self.tables[usize::from(id.0)].advance(advance);
    }

    /// No more is collected of a table.
    pub(crate) fn stop(&mut self, id: TableId, stop: Stop)
        requires { id.0 < length self.old.tables }
        ensures { self.new ≡ record {
          plan = self.old.plan;
          tables = changed_at id.0
              (opened.ended stop) self.old.tables;
        } }
    {
        self.tables[usize::from(id.0)].stop = Some(stop);
    }

    /// How a table's records are cut.
    pub(crate) fn layout(&self, id: TableId) -> Layout
        requires { id.0 < length self.now.tables }
        ensures { (held : _) × (slice_get self.now.tables id.0 ≡ Some held)
            × (held.table.layout ≡ Ok result) }
    {
        self.tables[usize::from(id.0)].table.layout().unwrap()
    }

    /// The stop of a table.
    pub(crate) fn stop_of(&self, id: TableId) -> Option<Stop>
        requires { id.0 < length self.now.tables }
        ensures { MatchOption result ((held : _) × inside.IsGoingOnHere self.now id.0 held)
            (λ stop. (held : _) × (slice_get self.now.tables id.0 ≡ Some held) × (held.stop ≡ Some stop)) }
    {
        self.tables[usize::from(id.0)].stop
    }

    // Whether a table is there and has no stop.
    fn is_going_on(&self, id: TableId) -> bool
        ensures on { result ≡ true → (held : _) × inside.IsGoingOnHere self.now id.0 held }
        ensures off { result ≡ false → (held : _) → inside.IsGoingOnHere self.now id.0 held → ⊥ }
    {
        match self.tables.get(usize::from(id.0)) {
            None => false,
            Some(held) => held.stop.is_none(),
        }
    }

    /// Whether an advance may follow.
    pub(crate) fn can_advance(&self, id: TableId, advance: &Advance) -> bool
        ensures on { result ≡ true → inside.MayAdvance self.now id.0 (inside.seen_advance advance.now) }
        ensures off { result ≡ false → (held : _) → inside.IsGoingOnHere self.now id.0 held
            → inside.CanAdvanceHere held (inside.seen_advance advance.now) → ⊥ }
    {
        match self.tables.get(usize::from(id.0)) {
            None => false,
            Some(held) => held.stop.is_none() && held.can_advance(advance),
        }
    }

    /// The place of the first table of this name at a station.
    pub(crate) fn place_of(&self, station: usize, name: &[u8]) -> Option<TableId>
        ensures { result ≡ option_map table_id (position (is_named station name.now) self.now.tables) }
    {
        match place_in(&self.tables, station, name) {
            None => None,
            Some(place) => Some(TableId(place as u16)),
        }
    }

    /// Makes a change where it may follow, and answers whether it may.
    pub(crate) fn take(&mut self, change: Change) -> bool
        ensures taken { result ≡ true → (said : _) → inside.Says change.entry said
            → inside.AllowsHere self.old said × (self.new ≡ opened.register_after self.old said) }
        ensures refused { result ≡ false → (said : _) → inside.Says change.entry said
            → inside.AllowsHere self.old said → ⊥ }
        ensures stays { result ≡ false → self.new ≡ self.old }
    {
        match change {
            Change::Add {
                station,
                number,
                table,
            } => {
                if !self.can_add(station, number, &table) {
                    return false;
                }
                self.add(station, number, table);
            }
            Change::Advance { id, advance } => {
                if !self.can_advance(id, &advance) {
                    return false;
                }
                self.advance(id, &advance);
            }
            Change::Stop { id, stop } => {
                if !self.is_going_on(id) {
                    return false;
                }
                self.stop(id, stop);
            }
        }
        true
    }
}
