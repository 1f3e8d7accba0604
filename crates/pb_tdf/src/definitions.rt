//! The definitions of all tables of a logger, as a file describes them.
use crate::TdfFault;
use crate::items::Items;
use crate::next_table::{FILE_BYTES_MAX, next_table, place_of};
use crate::table::Table;
use pb_base::{Fields, TableNo};
use std::alloc::Global;
use std::marker::Model;

/// The first byte of a table definition file: the only version that is read.
pub const VERSION: u8 = 1;

/// The tables of a logger, numbered from 1.
#[derive(Drop)]
pub struct Definitions {
    tables: Vec<Table>,
}

impl Model for Definitions {
    ghost use Rattle.std.specs.Prelude.{◌≤◌, length, List};
    ghost use Rattle.pb_tdf.specs.View.{TableView};
    ghost use Rattle.pb_tdf.specs.Definition.{tables_max};

    ghost Value = { List TableView };

    ghost view = { λ d. d.tables.items };

    ghost invariant = { λ d. length d.tables.items ≤ tables_max };
}

impl Definitions {
    ghost use Rattle.std.specs.Prelude.{◌≡◌, ◌==◌, ◌+◌, ◌-◌, ◌≤◌, length, slice_get, position, map, List, IfOk, IfErr, option_copied};
    ghost use Rattle.pb_tdf.specs.Definition.{Definition, FileBytes};
    ghost use Rattle.pb_tdf.specs.View.{TableView, view_of};
    ghost use Rattle.pb_tdf.specs.Refusal.{HasCause};
    ghost use Rattle.pb_tdf.specs.Refusal.{FileFault, ReadsFile};
    ghost use Rattle.pb_tdf.specs.Numbering.{numbered, first_named};

    /// Reads a table definition file: the version and then whole tables up to the end. Takes memory.
    ///
    /// A refusal is that of the first item, in the order of the bytes, that can't be read, is of no type or
    /// passes a limit.
    pub fn read(alloc: Global, bytes: &[u8]) -> Result<Definitions, TdfFault>
        // What was read are the tables of the file that the bytes are.
        ensures found { IfOk result (λ tables. (ds : List Definition) × FileBytes ds bytes.now
            × (tables ≡ map view_of ds)) }
        // What is a file's bytes is read.
        ensures only { (ds : List Definition) → FileBytes ds bytes.now → ReadsFile result ds }
        // A refusal is the first fault, at its place.
        ensures refused { IfErr result (HasCause (FileFault bytes.now)) }
    {
        Definitions::read_whole(alloc, bytes)
    }

    fn read_whole(alloc: Global, bytes: &[u8]) -> Result<Definitions, TdfFault>
        ensures found { IfOk result (λ tables. (ds : List Definition) × FileBytes ds bytes.now
            × (tables ≡ map view_of ds)) }
        ensures refused { IfErr result (HasCause (FileFault bytes.now)) }
    {
        let mut fields = Fields::new(bytes);
        match fields.u8() {
            Ok(VERSION) => {}
            Ok(_) => return Err(TdfFault::BadVersion),
            Err(_) => return Err(TdfFault::Short { at: 0 }),
        }
        let mut items = Items::new(fields, FILE_BYTES_MAX);
        let mut tables = Vec::new(alloc);
        while !items.rest().is_empty() {
            let table = next_table(alloc, &mut items, tables.len())?;
            tables.push(table).map_err(|_| TdfFault::Memory)?;
        }
        tables.shrink_to_fit();
        Ok(Definitions { tables })
    }

    /// The number of tables.
    pub fn count(&self) -> u16
        ensures { result ≡ length self.now }
    {
        self.tables.len() as u16
    }

    /// The table of this number; they are numbered from 1.
    pub fn table(&self, number: TableNo) -> Option<&Table>
        ensures { option_copied result ≡ numbered self.now number.0 }
    {
        if number.0 == 0 {
            return None;
        }
        self.tables.get(number.0 as usize - 1)
    }

    /// The number of the first table of this name.
    pub fn by_name(&self, name: &[u8]) -> Option<TableNo>
        ensures { result ≡ first_named name.now self.now }
    {
        match place_of(&self.tables, name) {
            Some(place) => Some(TableNo((place + 1) as u16)),
            None => None,
        }
    }
}
