//! One field of a row, quoted where it has to be.
ghost use Rattle.std.specs.Prelude.{◌≡◌, ◌∷◌, ◌++◌, IfOk, OnOk};
ghost use Rattle.csv.specs.Quoting.{needs_byte};
ghost use Rattle.csv.specs.Writing.{comma, default_writer, field_text, needs_quotes};

use csv::WriterBuilder;
use std::alloc::{AllocError, Global};

// Whether a field with this byte is written between quotes.
fn is_special(byte: u8) -> bool
    ensures { result ≡ needs_byte default_writer byte }
{
    byte == b',' || byte == b'"' || byte == b'\r' || byte == b'\n'
}

fn needs_quotes(field: &[u8]) -> bool
    ensures { result ≡ needs_quotes default_writer field.now }
{
    field.iter().any(|byte| is_special(*byte))
}

// A field as the crate `csv` writes it. Takes memory.
fn written_by_csv(alloc: Global, field: &[u8]) -> Result<Vec<u8>, AllocError>
    ensures { IfOk result (λ text. text.items ≡ field_text default_writer field.now) }
{
    let mut writer = WriterBuilder::new().from_writer(Vec::new(alloc));
    if writer.write_field(field).is_err() {
        return Err(AllocError);
    }
    match writer.into_inner() {
        Ok(text) => Ok(text),
        Err(_) => Err(AllocError),
    }
}

/// Adds the first field of a row.
pub(crate) fn push_first(alloc: Global, row: &mut Vec<u8>, field: &[u8]) -> Result<(), AllocError>
    ensures { OnOk result (row.new.items ≡ row.old.items ++ field_text default_writer field.now) }
{
    if needs_quotes(field) {
        let quoted = written_by_csv(alloc, field)?;
        row.extend_from_slice(&quoted)
    } else {
        row.extend_from_slice(field)
    }
}

/// Adds a further field of a row.
pub(crate) fn push_next(alloc: Global, row: &mut Vec<u8>, field: &[u8]) -> Result<(), AllocError>
    ensures { OnOk result (row.new.items ≡ row.old.items ++ comma ∷ field_text default_writer field.now) }
{
    row.push(b',')?;
    push_first(alloc, row, field)
}
