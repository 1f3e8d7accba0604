//! What an archive says of a table.
use pb_base::{RecNo, TableNo};
use pb_tdf::Table;

/// No more is collected of a table; the signature under which it goes on at its station, where that was told.
#[derive(Clone, Copy, Debug, PartialEq, Eq)]
pub struct Stop {
    pub told: Option<u16>,
}

/// A table of an archive.
#[derive(Clone, Copy)]
pub struct TableView<'a> {
    /// Its station's place in the plan, from 0.
    pub station: u8,
    /// Its number at the station.
    pub number: TableNo,
    /// Its definition.
    pub table: &'a Table,
    /// The next number to collect; each number below it is kept or a gap.
    pub front: RecNo,
    /// How many of these are gaps.
    pub gaps: u32,
    /// No more is collected.
    pub stop: Option<Stop>,
}
