//! Storing a script's records in its station.
ghost use Rattle.std.specs.Prelude.{◌≡◌, ◌+◌, ◌^◌, ◌<◌, ◌≤◌, length, OnOk, slice_get, Some};
ghost use Rattle.std.specs.List.{AllByRecursion};
ghost use Rattle.pb_script.specs.Inside.{IsFilling};
ghost use Rattle.pb_script.specs.Script.{IsScriptTable};
ghost use Rattle.pb_script.specs.Station.{seconds};

use crate::record::put_values;
use crate::table::ScriptTable;
use pb_base::{Memory, Nsec, TableNo};
use pb_station::Station;
use std::alloc::Global;

/// Stores all records of these tables, which are the station's and are empty. Takes memory for one record.
pub(crate) fn fill(
    alloc: Global,
    station: &mut Station,
    tables: &[ScriptTable],
) -> Result<(), Memory>
    requires each { AllByRecursion IsScriptTable tables.now }
    requires few { length tables.now ≤ 255 }
    requires empty { IsFilling station.old tables.now 0 0 }
    ensures filled { OnOk result (IsFilling station.new tables.now (length tables.now) 0) }
    ensures device { OnOk result (station.new.device ≡ station.old.device) }
{
    let mut record = Vec::new(alloc);
    for place in 0..tables.len() {
        match fill_table(&mut record, station, tables, place) {
            Ok(()) => {}
            Err(fault) => return Err(fault),
        }
    }
    Ok(())
}

// Stores all records of one of the tables, which is empty, in the order of their numbers.
fn fill_table(
    record: &mut Vec<u8>,
    station: &mut Station,
    tables: &[ScriptTable],
    place: usize,
) -> Result<(), Memory>
    requires each { AllByRecursion IsScriptTable tables.now }
    requires there { place < length tables.now }
    requires few { length tables.now ≤ 255 }
    requires empty { IsFilling station.old tables.now place 0 }
    ensures filled { OnOk result (IsFilling station.new tables.now (place + 1) 0) }
    ensures device { OnOk result (station.new.device ≡ station.old.device) }
{
    let table = tables[place];
    for n in 0..table.stored {
        match store_record(record, station, tables, place, n) {
            Ok(()) => {}
            Err(fault) => return Err(fault),
        }
    }
    Ok(())
}

// Stores the next record of one of the tables.
fn store_record(
    record: &mut Vec<u8>,
    station: &mut Station,
    tables: &[ScriptTable],
    place: usize,
    n: u32,
) -> Result<(), Memory>
    requires each { AllByRecursion IsScriptTable tables.now }
    requires there { place < length tables.now }
    requires few { length tables.now ≤ 255 }
    requires next { (t : ScriptTable) → slice_get tables.now place ≡ Some t → n < t.stored }
    requires filling { IsFilling station.old tables.now place n }
    ensures stored { OnOk result (IsFilling station.new tables.now place (n + 1)) }
    ensures device { OnOk result (station.new.device ≡ station.old.device) }
{
    let table = tables[place];
    record.clear();
    match put_values(record, table.shape.kind, n, table.shape.count) {
        Ok(()) => {}
        Err(fault) => return Err(fault),
    }
    let time = time_of(u64::from(n) * table.shape.step());
    // There is a number left, so it is stored.
    let _stored = station.store(TableNo(place as u16 + 1), time, record);
    Ok(())
}

// The time of so many seconds.
fn time_of(second: u64) -> Nsec
    requires { second < 2 ^ 31 }
    ensures { result ≡ seconds second }
{
    Nsec {
        sec: second as i32,
        nano: 0,
    }
}
