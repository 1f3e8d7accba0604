//! The tables of a new station.
ghost use Rattle.std.specs.Prelude.{◌≡◌, ◌+◌, ◌≤◌, None, List, ◌∷◌, length, IfOk, IfErr};
ghost use Rattle.pb_tdf.specs.View.{TableView};
ghost use Rattle.pb_station.specs.State.{KeptTable};
ghost use Rattle.pb_station.specs.Making.{first_fault};
ghost use Rattle.pb_station.specs.Inside.Tables.{AreMade, IsMade, IsFirstFault};

use crate::fault::StationFault;
use crate::table::HeldTable;
use pb_base::TableNo;
use pb_ring::RING_BYTES_MAX;
use pb_tdf::{Definitions, Table};
use std::alloc::Global;

/// The most bytes of the contents that all rings hold.
const ALL_BYTES_MAX: usize = RING_BYTES_MAX as usize;

/// An empty table for each of the definitions; takes memory. The first of which no ring can be made is named.
pub(crate) fn tables_of(
    alloc: Global,
    definitions: &Definitions,
) -> Result<Vec<HeldTable>, StationFault>
    ensures made { IfOk result (λ tables. (first_fault 1 0 definitions.now ≡ None)
        × AreMade definitions.now tables.items) }
    ensures refused { IfErr result (λ fault. IsFirstFault (first_fault 1 0 definitions.now) fault) }
{
    let count = definitions.count();
    let Ok(mut tables) = Vec::with_capacity(alloc, usize::from(count)) else {
        return Err(StationFault::Memory);
    };
    let mut used = 0;
    for place in 0..count {
        let number = TableNo(place + 1);
        let table = definitions.table(number).unwrap();
        let (held, after) = match table_of(alloc, table, number, used) {
            Ok(made) => made,
            Err(fault) => return Err(fault),
        };
        used = after;
        tables.push_reserved(held);
    }
    Ok(tables)
}

/// An empty ring for a table, where the rings before it use so many bytes; and how many they use with it.
fn table_of(
    alloc: Global,
    table: &Table,
    number: TableNo,
    used: usize,
) -> Result<(HeldTable, usize), StationFault>
    requires { used ≤ ALL_BYTES_MAX }
    ensures within { IfOk result (λ r. r.1 ≤ ALL_BYTES_MAX) }
    ensures made { IfOk result (λ r. IsMade table.now r.0) }
    ensures goes_on { IfOk result (λ r. (views : List TableView)
        → first_fault number.0 used (table.now ∷ views) ≡ first_fault (number.0 + 1) r.1 views) }
    ensures refused { IfErr result (λ fault. (views : List TableView)
        → IsFirstFault (first_fault number.0 used (table.now ∷ views)) fault) }
{
    let Ok(layout) = table.layout() else {
        return Err(StationFault::Uncollectable { table: number });
    };
    let size = table.size();
    let room = (ALL_BYTES_MAX - used) / layout.content_len();
    if size == 0 || size as usize > room {
        return Err(StationFault::BadSize { table: number });
    }
    let Ok(held) = HeldTable::new(alloc, table.signature(), layout, size) else {
        return Err(StationFault::Memory);
    };
    Ok((held, used + size as usize * layout.content_len()))
}
