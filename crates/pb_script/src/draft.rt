//! A script to which lines are added.
ghost use Rattle.std.specs.Prelude.{◌≡◌, ℕ, ◌<◌, length, OnOk, OnErr, IfOk, IfErr};
ghost use Rattle.pb_script.specs.Inside.{TakesLine, TakesNone, begun};
ghost use Rattle.pb_script.specs.Script.{CanBegin, CanDeclare, CanStore, IsScript, IsScriptName, IsScriptTable, place_of, with_store, with_table};

use crate::line::{read_store, read_table};
use crate::table::{ScriptTable, Station, holds_records};
use pb_base::{Name, NodeId};
use std::alloc::Global;
use std::marker::Model;

/// The most tables of a station.
const TABLES_MAX: usize = 255;

/// The most bytes of the contents that all rings hold.
const RING_BYTES_MAX: u64 = 67_108_864;

/// Why a line isn't added.
#[derive(Clone, Copy, Debug, PartialEq, Eq)]
pub(crate) enum LineFault {
    Refused,
    Memory,
}

/// A script to which lines are added.
#[derive(Drop)]
pub(crate) struct Draft {
    me: NodeId,
    station: Station,
    tables: Vec<ScriptTable>,
    used: u64,
    storing: bool,
}

impl Model for Draft {
    ghost use Rattle.std.specs.Prelude.{◌≡◌};
    ghost use Rattle.pb_script.specs.Inside.{draft_view};
    ghost use Rattle.pb_script.specs.Script.{Script, IsScript, all_ring_bytes};

    ghost Value = { Script };

    ghost view = { draft_view };

    ghost invariant = { λ d. IsScript (draft_view d) × (d.used ≡ all_ring_bytes d.tables.items) };
}

// The place of the table of this name.
fn place_of(tables: &[ScriptTable], name: Name) -> Option<usize>
    ensures { result ≡ place_of name tables.now }
{
    let name = name.bytes();
    tables.iter().position(|table| table.name.bytes() == name)
}

impl Draft {
    /// A script of a station without tables.
    pub(crate) fn new(alloc: Global, me: NodeId, station: Station) -> Draft
        requires { CanBegin (begun me station) }
        ensures { result ≡ begun me station }
    {
        Draft {
            me,
            station,
            tables: Vec::new(alloc),
            used: 0,
            storing: false,
        }
    }

    /// The tables in their order.
    pub(crate) fn tables(&self) -> &[ScriptTable]
        ensures value { result.now ≡ self.now.tables }
        ensures script { IsScript self.now }
    {
        &self.tables
    }

    /// The station.
    pub(crate) fn station(&self) -> Station
        ensures name { result.name ≡ self.now.name }
        ensures addr { result.addr ≡ self.now.addr }
        ensures code { result.code ≡ self.now.code }
    {
        self.station
    }

    // Adds a table without records, where it may be added.
    fn declare(&mut self, table: ScriptTable) -> Result<(), LineFault>
        requires is { IsScriptTable table }
        requires empty { table.stored ≡ 0 }
        ensures added { OnOk result (CanDeclare self.old table × (self.new ≡ with_table self.old table)) }
        ensures stays { OnErr result (self.new ≡ self.old) }
        ensures refused { IfErr result (λ fault. fault ≡ LineFault.Refused → CanDeclare self.old table
            → ⊥) }
    {
        if self.storing || self.tables.len() >= TABLES_MAX {
            return Err(LineFault::Refused);
        }
        if place_of(&self.tables, table.name).is_some() {
            return Err(LineFault::Refused);
        }
        let bytes = table.shape.ring_bytes();
        if bytes > RING_BYTES_MAX - self.used {
            return Err(LineFault::Refused);
        }
        match self.tables.push(table) {
            Ok(()) => {
                self.used += bytes;
                Ok(())
            }
            Err(_) => Err(LineFault::Memory),
        }
    }

    // Stores so many records more in the table of this name, where it may hold them.
    fn store(&mut self, name: Name, n: u32) -> Result<(), LineFault>
        requires { IsScriptName name }
        ensures added { OnOk result ((place : ℕ) × CanStore self.old name place n
            × (self.new ≡ with_store self.old place n)) }
        ensures refused { IfErr result (λ fault. (place : ℕ) → CanStore self.old name place n → ⊥) }
    {
        let place = match place_of(&self.tables, name) {
            Some(place) => place,
            None => return Err(LineFault::Refused),
        };
        let mut table = self.tables[place];
        table.stored = match table.stored.checked_add(n) {
            Some(stored) => stored,
            None => return Err(LineFault::Refused),
        };
        if !holds_records(&table) {
            return Err(LineFault::Refused);
        }
        self.tables[place] = table;
        self.storing = true;
        Ok(())
    }

    /// Adds what the next line says, and answers what comes after it.
    pub(crate) fn take_line<'a>(&mut self, text: &'a [u8]) -> Result<&'a [u8], LineFault>
        ensures taken { IfOk result (λ rest. TakesLine self.old text.entry.now self.new rest.now) }
        ensures shorter { IfOk result (λ rest. length rest.now < length text.entry.now) }
        ensures refused { IfErr result (λ fault. fault ≡ LineFault.Refused
            → TakesNone self.old text.entry.now) }
    {
        let name = self.station().name;
        if let Some(next) = read_table(name.bytes(), text) {
            return match self.declare(next.table) {
                Ok(()) => Ok(next.rest),
                Err(fault) => Err(fault),
            };
        }
        match read_store(name.bytes(), text) {
            Some(next) => match self.store(next.name, next.n) {
                Ok(()) => Ok(next.rest),
                Err(fault) => Err(fault),
            },
            None => Err(LineFault::Refused),
        }
    }
}
