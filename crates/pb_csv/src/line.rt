//! The rows of an export, each as it is written.
ghost use Rattle.std.specs.Prelude.{◌≡◌, ◌≢◌, ◌∷◌, ◌++◌, ◌<◌, decimal, map, OnOk};
ghost use Rattle.csv.specs.Writing.{comma, default_writer, field_text, fields_text};
ghost use Rattle.pb_archive.specs.Rows.{gap, kept, seen_row};
ghost use Rattle.pb_base.specs.declared.nsec.Nsec as nsec;
ghost use Rattle.pb_base.specs.Record.{content};
ghost use Rattle.pb_base.specs.Time.{time_bytes, time_of};
ghost use Rattle.pb_csv.specs.CsvText.{csv_row, header_fields, row_fields, value_field, value_names};
ghost use Rattle.pb_csv.specs.Inside.{HasNames};
ghost use Rattle.pb_record.specs.Cut.{seen_record};
ghost use Rattle.pb_tdf.specs.Kinds.{ascii};
ghost use Rattle.pb_value.specs.TimeText.{time_text};
ghost use Rattle.pb_value.specs.Values.{IsRecordOf, values_of};
ghost use Rattle.pb_value.specs.ValueText.{IsValue, value_text};

use crate::columns::Columns;
use crate::field::{push_first, push_next};
use pb_base::{Nsec, RecNo};
use pb_record::RecordView;
use pb_tdf::{ASCII, Table};
use pb_value::{ESCAPED_MAX, TIME_TEXT_MAX, VALUE_TEXT_MAX, Value, text_into, time_into, values};
use std::alloc::{AllocError, Global};

// Adds a text. It is escaped in `scratch`, which grows where it must.
fn push_characters(
    alloc: Global,
    row: &mut Vec<u8>,
    scratch: &mut Vec<u8>,
    value: &Value,
) -> Result<(), AllocError>
    requires { value.now.kind ≡ ascii }
    ensures { OnOk result (row.new.items ≡ row.old.items
        ++ comma ∷ field_text default_writer (value_text value.now.kind value.now.bytes.now)) }
{
    let Some(room) = value.bytes.len().checked_mul(ESCAPED_MAX) else {
        return Err(AllocError);
    };
    if scratch.len() < room {
        scratch.resize(room, 0)?;
    }
    match text_into(value, scratch) {
        Ok(len) => push_next(alloc, row, &scratch[..len]),
        Err(_) => unreachable!(),
    }
}

// Adds a value that isn't text: none of its bytes calls for quotes.
fn push_plain(row: &mut Vec<u8>, value: &Value) -> Result<(), AllocError>
    requires value { IsValue value.now.kind value.now.bytes.now }
    requires plain { value.now.kind ≢ ascii }
    ensures { OnOk result (row.new.items ≡ row.old.items
        ++ comma ∷ field_text default_writer (value_text value.now.kind value.now.bytes.now)) }
{
    let mut text = [b','; 1 + VALUE_TEXT_MAX];
    match text_into(value, &mut text[1..]) {
        Ok(len) => row.extend_from_slice(&text[..1 + len]),
        Err(_) => unreachable!(),
    }
}

// Adds a value.
fn push_value(
    alloc: Global,
    row: &mut Vec<u8>,
    scratch: &mut Vec<u8>,
    value: &Value,
) -> Result<(), AllocError>
    requires { IsValue value.now.kind value.now.bytes.now }
    ensures { OnOk result (row.new.items ≡ row.old.items
        ++ comma ∷ field_text default_writer (value_text value.now.kind value.now.bytes.now)) }
{
    if value.kind == ASCII {
        return push_characters(alloc, row, scratch, value);
    }
    push_plain(row, value)
}

// Adds the values of a record.
fn push_values(
    alloc: Global,
    row: &mut Vec<u8>,
    scratch: &mut Vec<u8>,
    table: &Table,
    bytes: &[u8],
) -> Result<(), AllocError>
    requires { IsRecordOf table.now bytes.now }
    ensures { OnOk result (row.new.items ≡ row.old.items
        ++ fields_text default_writer (map value_field (values_of table.now.fields bytes.now))) }
{
    let mut left = values(table, bytes);
    while let Some(value) = left.next() {
        push_value(alloc, row, scratch, &value)?;
    }
    Ok(())
}

// Adds a time, none of whose bytes calls for quotes.
fn push_time(row: &mut Vec<u8>, time: Nsec) -> Result<(), AllocError>
    ensures added { OnOk result (row.new.items
        ≡ row.old.items ++ comma ∷ field_text default_writer (time_text time)) }
    ensures spelled { (rest : _) → time_of (time_bytes time ++ rest) ≡ time }
{
    is_spelled(time.sec, time.nano);
    let mut text = [b','; 1 + TIME_TEXT_MAX];
    match time_into(time, &mut text[1..]) {
        Ok(len) => row.extend_from_slice(&text[..1 + len]),
        Err(_) => unreachable!(),
    }
}

// Adds a number as the first field of a row.
fn push_number(row: &mut Vec<u8>, number: u32) -> Result<(), AllocError>
    ensures { OnOk result (row.new.items ≡ row.old.items ++ field_text default_writer (decimal number)) }
{
    row.extend_from_slice(itoa::Buffer::new().format(number).as_bytes())
}

// A time is read back from its bytes, since both of its numbers are signed numbers of four bytes.
fn is_spelled(sec: i32, nano: i32)
    ensures { let time : nsec.Nsec = record { sec = sec; nano = nano } in (rest : _)
        → time_of (time_bytes time ++ rest) ≡ time }
{}

/// The row of names in place of what `row` holds.
pub(crate) fn header(alloc: Global, row: &mut Vec<u8>, columns: &Columns) -> Result<(), AllocError>
    ensures { OnOk result ((fields : _) → HasNames columns.now (value_names fields)
        → row.new.items ≡ csv_row (header_fields fields)) }
{
    row.clear();
    push_first(alloc, row, b"record")?;
    push_next(alloc, row, b"time")?;
    row.extend_from_slice(&columns.names)?;
    row.push(b'\n')?;
    Ok(())
}

/// The row of a kept record in place of what `row` holds.
pub(crate) fn kept(
    alloc: Global,
    row: &mut Vec<u8>,
    scratch: &mut Vec<u8>,
    table: &Table,
    view: &RecordView,
) -> Result<(), AllocError>
    requires { IsRecordOf table.now view.now.bytes.now }
    ensures { OnOk result (row.new.items ≡ csv_row (row_fields table.now.fields
        (kept view.now.number.0 (content (seen_record view.now).stored)))) }
{
    row.clear();
    push_number(row, view.number.0)?;
    push_time(row, view.time)?;
    push_values(alloc, row, scratch, table, view.bytes)?;
    row.push(b'\n')?;
    Ok(())
}

/// The row of a gap in place of what `row` holds.
pub(crate) fn gap(
    alloc: Global,
    row: &mut Vec<u8>,
    scratch: &mut Vec<u8>,
    columns: &Columns,
    from: RecNo,
    to: RecNo,
) -> Result<(), AllocError>
    requires { from.0 < to.0 }
    ensures { OnOk result ((fields : _) → HasNames columns.now (value_names fields)
        → row.new.items ≡ csv_row (row_fields fields (gap from.0 to.0))) }
{
    scratch.clear();
    scratch.extend_from_slice(itoa::Buffer::new().format(from.0).as_bytes())?;
    scratch.push(b'-')?;
    scratch.extend_from_slice(itoa::Buffer::new().format(to.0 - 1).as_bytes())?;
    row.clear();
    push_first(alloc, row, scratch)?;
    push_next(alloc, row, b"gap")?;
    row.extend_from_slice(&columns.empties)?;
    row.push(b'\n')?;
    Ok(())
}
