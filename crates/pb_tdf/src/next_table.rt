//! The tables of a file, one after another.
ghost use Rattle.std.specs.Prelude.{◌≡◌, ◌==◌, ◌≤◌, ◌+◌, length, position, List, ℕ};
ghost use Rattle.pb_tdf.specs.Definition.{file_bytes_max};
ghost use Rattle.pb_tdf.specs.Places.{table_limit};
ghost use Rattle.pb_tdf.specs.Inside.Passing.{MakesTable};
ghost use Rattle.pb_tdf.specs.Numbering.{has_name};

use crate::TdfFault;
use crate::items::Items;
use crate::table::{TABLE_BYTES_MAX, Table};
use std::alloc::Global;

/// The greatest number of bytes of a table definition file (of this project).
pub const FILE_BYTES_MAX: usize = 262_144;

/// The greatest number of tables of a file (of this project).
pub const TABLES_MAX: usize = 255;

/// The table after so many tables. Takes memory.
pub fn next_table(alloc: Global, items: &mut Items, before: usize) -> Result<Table, TdfFault>
    requires { items.old.left.at ≤ file_bytes_max }
    ensures { let limit = table_limit before items.old.left.at in
        MakesTable (record { left = items.old.left; limit = limit }) items.new result }
{
    items.set_limit(limit_after(before, items.at()));
    Table::next(alloc, items)
}

/// The place that a table may not reach which begins at `at`, after so many tables.
fn limit_after(before: usize, at: usize) -> usize
    requires { at ≤ file_bytes_max }
    ensures { result ≡ table_limit before at }
{
    if before < TABLES_MAX {
        FILE_BYTES_MAX.min(at + TABLE_BYTES_MAX)
    } else {
        at
    }
}

/// The place of the first table of this name.
pub fn place_of(tables: &[Table], name: &[u8]) -> Option<usize>
    ensures { result ≡ position (has_name name.now) tables.now }
{
    tables.iter().position(|table| table.name() == name)
}
