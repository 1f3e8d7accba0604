//! The values of a record, in the order of its table's fields.
ghost use Rattle.std.specs.Prelude.{◌≡◌, ◌≤◌, ◌<◌, ◌++◌, [], List, Option, drop, length, IfSome, IfNone};
ghost use Rattle.pb_tdf.specs.View.{IsDefined};
ghost use Rattle.std.specs.Iterator.{YieldsFirstBy, item_count};
ghost use Rattle.pb_tdf.specs.Seen.{seen_of};
ghost use Rattle.pb_value.specs.Values.{shapes, field_shapes, values_of, IsRecordOf};
ghost use Rattle.pb_value.specs.ValueText.{HasText};
ghost use Rattle.std.specs.List.{AllByRecursion, flat_map};
ghost use Rattle.pb_value.specs.Inside.Runs.{run_shapes, shapes_left};

use crate::value::Value;
use pb_tdf::{ASCII, Field, Table, value_bytes_of};
use std::marker::Model;

/// Values of one type, one after another.
#[derive(Clone, Copy, Debug)]
struct Run {
    kind: u8,
    len: usize,
    count: u32,
}

/// The values of a record that weren't given yet. It borrows the table and the record's bytes.
#[derive(Drop)]
pub struct ValuesOf<'t, 'a> {
    table: &'t Table,
    bytes: &'a [u8],
    run: Run,
    at: usize,
}

impl<'t, 'a> Model for ValuesOf<'t, 'a> {
    ghost use Rattle.std.specs.Prelude.{◌≡◌, List, length};
    ghost use Rattle.pb_value.specs.Values.{ValueView, cut, bytes_of};

    ghost Value = { List ValueView };

    ghost use Rattle.pb_value.specs.Inside.Runs.{shapes_left};

    ghost view = { λ v. cut (shapes_left v.run v.at v.table.now.fields) v.bytes.now };

    ghost invariant = { λ v. bytes_of (shapes_left v.run v.at v.table.now.fields) ≡ length v.bytes.now };
}

/// The values of a record of this table, from its field bytes: of each field as many as its dimension says, but of an
/// ASCII field one with as many bytes. The table has a layout, and the bytes have its length.
pub fn values<'t, 'a>(table: &'t Table, bytes: &'a [u8]) -> ValuesOf<'t, 'a>
    requires { IsRecordOf table.now bytes.now }
    ensures values { result ≡ values_of table.now.fields bytes.now }
    // Each has a text, and together they are the record's bytes.
    ensures texts { AllByRecursion HasText (values_of table.now.fields bytes.now) }
    ensures whole { flat_map (λ v. v.bytes) (values_of table.now.fields bytes.now) ≡ bytes.now }
{
    is_defined(table);
    ValuesOf {
        table,
        bytes,
        run: Run {
            kind: 0,
            len: 0,
            count: 0,
        },
        at: 0,
    }
}

impl<'t, 'a> Iterator for ValuesOf<'t, 'a> {
    type Item = Value<'a>;

    ghost use Rattle.std.specs.Iterator.{YieldsFirstBy, item_count};
    ghost use Rattle.pb_value.specs.Inside.Values.{value_view};

    ghost next_gives = { YieldsFirstBy value_view (λ v. v) };

    ghost remaining = { item_count (λ v. v) };

    fn next(&mut self) -> Option<Value<'a>> {
        let (run, at) = run_left(self.table, self.run, self.at)?;
        let (bytes, rest) = self.bytes.split_at(run.len);
        self.bytes = rest;
        self.run = Run {
            kind: run.kind,
            len: run.len,
            count: run.count - 1,
        };
        self.at = at;
        Some(Value {
            kind: run.kind,
            bytes,
        })
    }
}

/// The run where it has values left, else the next one; and the number of the field after it.
fn run_left(table: &Table, run: Run, at: usize) -> Option<(Run, usize)>
    ensures found { IfSome result (λ x. shapes_left run at table.now.fields
        ≡ shapes_left x.0 x.1 table.now.fields) }
    ensures some { IfSome result (λ x. 0 < x.0.count) }
    ensures none { IfNone result (shapes_left run at table.now.fields ≡ []) }
{
    if run.count > 0 {
        return Some((run, at));
    }
    next_run(table, at)
}

/// The values of the next field that has any, from the field of this number on; and the number after it.
fn next_run(table: &Table, from: usize) -> Option<(Run, usize)>
    ensures found { IfSome result (λ x. shapes (drop from table.now.fields)
        ≡ shapes_left x.0 x.1 table.now.fields) }
    ensures some { IfSome result (λ x. 0 < x.0.count) }
    ensures none { IfNone result (shapes (drop from table.now.fields) ≡ []) }
{
    for at in from..table.fields() {
        let run = run_of(table.field(at)?);
        if run.count > 0 {
            return Some((run, at + 1));
        }
    }
    None
}

fn run_of(field: Field) -> Run
    ensures { run_shapes result ≡ field_shapes (seen_of field.entry) }
{
    if field.kind == ASCII {
        return Run {
            kind: ASCII,
            len: field.dimension as usize,
            count: 1,
        };
    }
    Run {
        kind: field.kind,
        len: usize::from(value_bytes_of(field.kind).unwrap_or(0)),
        count: field.dimension,
    }
}

fn is_defined(table: &Table)
    ensures { IsDefined table.now }
{
    let _bytes = table.bytes();
}
