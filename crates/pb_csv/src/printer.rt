//! What prints the lines of an export, one at a time.
ghost use Rattle.std.specs.Prelude.{◌≡◌, IfOk, OnOk};
ghost use Rattle.pb_archive.specs.Rows.{seen_row};
ghost use Rattle.pb_csv.specs.CsvText.{csv_row, header_fields, value_names};
ghost use Rattle.pb_csv.specs.Inside.{CanPrint, HasNames, row_line};

use crate::columns::Columns;
use crate::line::{gap, header, kept};
use pb_archive::Row;
use pb_tdf::Table;
use std::alloc::{AllocError, Global};

/// Makes the lines of an export. It keeps one line, and room for the text of one value.
#[derive(Drop)]
pub(crate) struct Printer<'t> {
    pub(crate) table: &'t Table,
    columns: Columns,
    pub(crate) line: Vec<u8>,
    scratch: Vec<u8>,
    ghost named: { HasNames columns (value_names table.now.fields) },
}

impl<'t> Printer<'t> {
    pub(crate) fn new(alloc: Global, table: &'t Table) -> Result<Printer<'t>, AllocError>
        ensures { IfOk result (λ p. p.table.now ≡ table.now) }
    {
        Ok(Printer {
            table,
            columns: Columns::of(alloc, table)?,
            line: Vec::new(alloc),
            scratch: Vec::new(alloc),
        })
    }

    /// Makes the line of names.
    pub(crate) fn header(&mut self, alloc: Global) -> Result<(), AllocError>
        ensures line { OnOk result (self.new.line.items
            ≡ csv_row (header_fields self.old.table.now.fields)) }
        ensures table { self.new.table.now ≡ self.old.table.now }
    {
        header(alloc, &mut self.line, &self.columns)
    }

    /// Makes the line of a row.
    pub(crate) fn row(&mut self, alloc: Global, row: Row) -> Result<(), AllocError>
        requires { CanPrint self.old.table.now row }
        ensures line { OnOk result (self.new.line.items
            ≡ row_line self.old.table.now.fields (seen_row row.entry)) }
        ensures table { self.new.table.now ≡ self.old.table.now }
    {
        match row {
            Row::Kept(record) => kept(
                alloc,
                &mut self.line,
                &mut self.scratch,
                self.table,
                &record,
            ),
            Row::Gap { from, to } => gap(
                alloc,
                &mut self.line,
                &mut self.scratch,
                &self.columns,
                from,
                to,
            ),
        }
    }
}
