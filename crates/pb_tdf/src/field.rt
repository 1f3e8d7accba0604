//! A field of a table, as it is handed out.
ghost use Rattle.std.specs.Prelude.{◌≡◌, length};
ghost use Rattle.pb_tdf.specs.Inside.Kept.{field_at, Lies};
ghost use Rattle.pb_tdf.specs.Seen.{seen_of};

use crate::place::FieldPlace;

/// A field of a table.
#[derive(Clone, Copy, Debug)]
pub struct Field<'a> {
    /// The code of its type, without the bit that says read only.
    pub kind: u8,
    /// Whether the logger lets nobody write it.
    pub read_only: bool,
    /// Its name, without the 0 that ends it.
    pub name: &'a [u8],
    /// The number of its values; of an ASCII field the bytes of its one value, whatever its sub-dimensions are.
    pub dimension: u32,
}

/// The field at a place of a table's bytes.
pub fn field_of(bytes: &[u8], place: FieldPlace) -> Field
    requires { Lies (length bytes.now) place }
    ensures { seen_of result ≡ field_at bytes.now place }
{
    let at = place.at as usize;
    let type_byte = bytes[at];
    Field {
        kind: type_byte % 128,
        read_only: type_byte >= 128,
        name: &bytes[at + 1..at + 1 + place.name_len],
        dimension: place.dimension,
    }
}
