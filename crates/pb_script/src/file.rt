//! The table definition file of a script.
ghost use Rattle.std.specs.Prelude.{◌≡◌, ◌∷◌, ◌++◌, map, IfOk, OnOk};
ghost use Rattle.pb_tdf.specs.Definition.{table_bytes, tables_bytes, version};
ghost use Rattle.pb_script.specs.Inside.{after_name};
ghost use Rattle.pb_script.specs.Station.{definition_of, kind_code};

use crate::table::{Kind, ScriptTable, Shape};
use pb_base::Memory;
use std::alloc::Global;

/// The first byte of a file.
const VERSION: u8 = 1;

/// Times of eight bytes.
const TIME_TYPE: u8 = 14;

/// The table definition file of these tables; takes memory.
pub(crate) fn file_of(alloc: Global, tables: &[ScriptTable]) -> Result<Vec<u8>, Memory>
    ensures { IfOk result (λ file. file.items ≡ version ∷ tables_bytes (map definition_of tables.now)) }
{
    let mut file = Vec::new(alloc);
    put(&mut file, &[VERSION])?;
    put_tables(&mut file, tables)?;
    Ok(file)
}

// Adds the tables' bytes at the end.
fn put_tables(out: &mut Vec<u8>, tables: &[ScriptTable]) -> Result<(), Memory>
    ensures { OnOk result (out.new.items ≡ out.old.items ++ tables_bytes (map definition_of tables.now)) }
{
    for table in tables {
        match put_table(out, table) {
            Ok(()) => {}
            Err(fault) => return Err(fault),
        }
    }
    Ok(())
}

// Adds a table's bytes at the end.
fn put_table(out: &mut Vec<u8>, table: &ScriptTable) -> Result<(), Memory>
    ensures { OnOk result (out.new.items ≡ out.old.items ++ table_bytes (definition_of table.now)) }
{
    match put(out, table.name.bytes()) {
        Ok(()) => {}
        Err(fault) => return Err(fault),
    }
    match put(out, &after_name(table.shape)) {
        Ok(()) => Ok(()),
        Err(fault) => Err(fault),
    }
}

// The bytes of a table after its name. It has one field `V`, from index 1 on.
fn after_name(shape: Shape) -> [u8; 42]
    ensures { result ≡ after_name shape }
{
    let [a, b, c, d] = shape.size.to_be_bytes();
    let [e, f, g, h] = shape.interval.to_be_bytes();
    let [i, j, k, l] = shape.count.to_be_bytes();
    let code = code_of(shape.kind);
    [
        0, a, b, c, d, TIME_TYPE, 0, 0, 0, 0, 0, 0, 0, 0, e, f, g, h, 0, 0, 0, 0, code, b'V', 0, 0,
        0, 0, 0, 0, 0, 0, 1, i, j, k, l, 0, 0, 0, 0, 0,
    ]
}

// The code of a field's type.
fn code_of(kind: Kind) -> u8
    ensures { result ≡ kind_code kind }
{
    match kind {
        Kind::Fp2 => 7,
        Kind::Ascii => 11,
    }
}

/// Adds bytes at the end.
pub(crate) fn put(out: &mut Vec<u8>, bytes: &[u8]) -> Result<(), Memory>
    ensures { OnOk result (out.new.items ≡ out.old.items ++ bytes.now) }
{
    match out.extend_from_slice(bytes) {
        Ok(()) => Ok(()),
        Err(_) => Err(Memory),
    }
}
