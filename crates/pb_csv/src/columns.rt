//! The columns of a table's values: their names, and what a gap has in them.
ghost use Rattle.std.specs.Prelude.{◌≡◌, ◌∷◌, [], ◌++◌, IfOk, OnOk};
ghost use Rattle.pb_csv.specs.CsvText.{names_of, numbered_name, numbered_names, value_names};
ghost use Rattle.pb_csv.specs.Inside.{HasNames};
ghost use Rattle.pb_tdf.specs.Seen.{seen_of};
ghost use Rattle.pb_value.specs.Escape.{name_text};

use crate::field::push_next;
use pb_tdf::{ASCII, Field, Table};
use pb_value::{ESCAPED_MAX, escape_into};
use std::alloc::{AllocError, Global};

/// The names of a table's values as they are in the first row, each after a comma; and as many empty values.
#[derive(Drop)]
pub(crate) struct Columns {
    pub(crate) names: Vec<u8>,
    pub(crate) empties: Vec<u8>,
}

// The escaped text of a name.
fn escaped(alloc: Global, name: &[u8]) -> Result<Vec<u8>, AllocError>
    ensures { IfOk result (λ text. text.items ≡ name_text name.now) }
{
    let Some(room) = name.len().checked_mul(ESCAPED_MAX) else {
        return Err(AllocError);
    };
    let mut text = vec![in alloc; 0; room]?;
    match escape_into(name, &mut text) {
        Ok(len) => text.truncate(len),
        Err(_) => unreachable!(),
    }
    Ok(text)
}

// The name of one of several values.
fn numbered(alloc: Global, name: &[u8], number: u32) -> Result<Vec<u8>, AllocError>
    ensures { IfOk result (λ text. text.items ≡ numbered_name name.now number) }
{
    let mut text = Vec::new(alloc);
    text.extend_from_slice(name)?;
    text.push(b'(')?;
    text.extend_from_slice(itoa::Buffer::new().format(number).as_bytes())?;
    text.push(b')')?;
    Ok(text)
}

impl Columns {
    /// The columns of a table. Takes memory.
    pub(crate) fn of(alloc: Global, table: &Table) -> Result<Columns, AllocError>
        ensures { IfOk result (λ c. HasNames c (value_names table.now.fields)) }
    {
        let mut columns = Columns {
            names: Vec::new(alloc),
            empties: Vec::new(alloc),
        };
        for at in 0..table.fields() {
            match table.field(at) {
                Some(field) => columns.push_field(alloc, field)?,
                None => unreachable!(),
            }
        }
        Ok(columns)
    }

    // Adds the columns of a field.
    fn push_field(&mut self, alloc: Global, field: Field) -> Result<(), AllocError>
        ensures { OnOk result ((names : _) → HasNames self.old names
            → HasNames self.new (names ++ names_of (seen_of field.entry))) }
    {
        let name = escaped(alloc, field.name)?;
        if field.kind == ASCII || field.dimension == 1 {
            return self.push(alloc, &name);
        }
        self.push_numbered(alloc, &name, field.dimension)
    }

    // Adds the columns of several values of one name.
    fn push_numbered(&mut self, alloc: Global, name: &[u8], count: u32) -> Result<(), AllocError>
        ensures { OnOk result ((names : _) → HasNames self.old names
            → HasNames self.new (names ++ numbered_names name.now count)) }
    {
        for number in 0..count {
            let text = numbered(alloc, name, number + 1)?;
            self.push(alloc, &text)?;
        }
        Ok(())
    }

    // Adds a column.
    fn push(&mut self, alloc: Global, name: &[u8]) -> Result<(), AllocError>
        ensures { OnOk result ((names : _) → HasNames self.old names
            → HasNames self.new (names ++ name.now ∷ [])) }
    {
        push_next(alloc, &mut self.names, name)?;
        self.empties.push(b',')?;
        Ok(())
    }
}
