//! One table: its definition as it was read, and what is asked of it.
use crate::copy::copied;
use crate::cut::layout_of_sums;
use crate::field::{Field, field_of};
use crate::items::Items;
use crate::place::FieldPlace;
use crate::reading::read_parts;
use crate::{TdfFault, Uncollectable};
use pb_base::{Fields, Layout};
use pb_frame::{START, signature};
use std::alloc::Global;
use std::marker::Model;

/// The greatest number of bytes of a table's definition (of this project).
pub const TABLE_BYTES_MAX: usize = 60_000;

/// The definition of one table. Beside its bytes it holds 16 bytes for each field.
#[derive(Drop)]
pub struct Table {
    bytes: Vec<u8>,
    name_len: usize,
    size: u32,
    signature: u16,
    layout: Result<Layout, Uncollectable>,
    places: Vec<FieldPlace>,
}

impl Model for Table {
    ghost use Rattle.std.specs.Prelude.{take, map};
    ghost use Rattle.pb_tdf.specs.View.{TableView};
    ghost use Rattle.pb_tdf.specs.Inside.Kept.{IsKept, field_at};

    ghost Value = { TableView };

    ghost view = { λ t. record {
      bytes = t.bytes.items;
      name = take t.name_len t.bytes.items;
      size = t.size;
      signature = t.signature;
      layout = t.layout;
      fields = map (field_at t.bytes.items) t.places.items;
    } };

    ghost invariant = { λ t. IsKept t.bytes.items t.name_len t.size t.signature t.layout t.places.items };
}

impl Table {
    ghost use Rattle.std.specs.Prelude.{◌≡◌, ◌≤◌, ◌+◌, length, slice_get, IfOk, IfErr};
    ghost use Rattle.pb_tdf.specs.Definition.{Definition, TableBytes, table_bytes_max};
    ghost use Rattle.pb_tdf.specs.View.{view_of, IsDefined};
    ghost use Rattle.pb_tdf.specs.Inside.Passing.{MakesTable};
    ghost use Rattle.pb_tdf.specs.Refusal.{HasCause};
    ghost use Rattle.pb_tdf.specs.Refusal.{TableFault, ReadsTable};
    ghost use Rattle.pb_tdf.specs.Seen.{SeesField};

    /// Reads one table, from its name to the 0 that ends its fields, with no bytes left over. Takes memory.
    ///
    /// A refusal is that of the first item that can't be read, is of no type or passes a limit; `TooMany`
    /// at the first byte after a whole table.
    pub fn read(alloc: Global, bytes: &[u8]) -> Result<Table, TdfFault>
        // What was read is the table that the bytes are.
        ensures found { IfOk result (λ t. (d : Definition) × TableBytes d bytes.now × (t ≡ view_of d)) }
        // What is a table's bytes is read.
        ensures only { (d : Definition) → TableBytes d bytes.now → ReadsTable result d }
        // A refusal is the first fault, at its place.
        ensures refused { IfErr result (HasCause (TableFault bytes.now)) }
    {
        Table::read_whole(alloc, bytes)
    }

    fn read_whole(alloc: Global, bytes: &[u8]) -> Result<Table, TdfFault>
        ensures found { IfOk result (λ t. (d : Definition) × TableBytes d bytes.now × (t ≡ view_of d)) }
        ensures refused { IfErr result (HasCause (TableFault bytes.now)) }
    {
        let mut items = Items::new(Fields::new(bytes), TABLE_BYTES_MAX);
        let table = Table::next(alloc, &mut items)?;
        if !items.rest().is_empty() {
            return Err(TdfFault::TooMany { at: items.at() });
        }
        Ok(table)
    }

    /// The next table. Takes memory.
    pub(crate) fn next(alloc: Global, items: &mut Items) -> Result<Table, TdfFault>
        requires { items.old.limit ≤ items.old.left.at + table_bytes_max }
        ensures { MakesTable items.old items.new result }
    {
        let rest = items.rest();
        let parts = read_parts(alloc, items)?;
        let len = rest.len() - items.rest().len();
        let bytes = copied(alloc, &rest[..len])?;
        let places = copied(alloc, &parts.places)?;
        let signature = signature(&bytes, START);
        Ok(Table {
            bytes,
            name_len: parts.header.name_len,
            size: parts.header.size,
            signature,
            layout: layout_of_sums(parts.totals, parts.header.interval),
            places,
        })
    }

    /// The table's bytes, from its name to the 0 that ends its fields, as they were read.
    pub fn bytes(&self) -> &[u8]
        ensures bytes { result.now ≡ self.now.bytes }
        ensures defined { IsDefined self.now }
    {
        &self.bytes
    }

    /// The table's name, without the 0 that ends it. It may be empty.
    pub fn name(&self) -> &[u8]
        ensures { result.now ≡ self.now.name }
    {
        &self.bytes[..self.name_len]
    }

    /// How many records the table holds.
    pub fn size(&self) -> u32
        ensures { result ≡ self.now.size }
    {
        self.size
    }

    /// The signature of the table's bytes, begun at 0xAAAA.
    pub fn signature(&self) -> u16
        ensures { result ≡ self.now.signature }
    {
        self.signature
    }

    /// How the records are cut; refused exactly where a field is a text of any length (type 16).
    pub fn layout(&self) -> Result<Layout, Uncollectable>
        ensures { result ≡ self.now.layout }
    {
        self.layout
    }

    /// The number of fields.
    pub fn fields(&self) -> usize
        ensures { result ≡ length self.now.fields }
    {
        self.places.len()
    }

    /// The field of this number, from 0; `None` exactly where it isn't below `fields`. It takes no longer for a
    /// later field than for the first.
    pub fn field(&self, n: usize) -> Option<Field>
        ensures { SeesField result (slice_get self.now.fields n) }
    {
        let place = *self.places.get(n)?;
        Some(field_of(&self.bytes, place))
    }
}
