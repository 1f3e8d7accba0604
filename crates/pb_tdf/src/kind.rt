//! The types of fields.
ghost use Rattle.std.specs.Prelude.{◌≡◌};
ghost use Rattle.pb_tdf.specs.Kinds.{value_bytes};

/// A text of `dimension` bytes: one value, whatever its dimension.
pub const ASCII: u8 = 11;

/// A text of any length in each record. A table with one isn't collected.
pub const ASCIIZ: u8 = 16;

/// The bytes of one value of the type; `None` where no type has the code. An ASCII field is one value with a byte
/// for each of its dimension, and an ASCIIZ field has no bytes of fixed place. The lengths of 8, 13, 15, 17 to 25,
/// 27 and 28 are of this project.
pub fn value_bytes_of(kind: u8) -> Option<u8>
    ensures { result ≡ value_bytes kind }
{
    match kind {
        ASCIIZ => Some(0),
        1 | 4 | 10 | ASCII | 17 => Some(1),
        2 | 5 | 7 | 19 | 21 | 27 => Some(2),
        15 => Some(3),
        3 | 6 | 8 | 9 | 12 | 20 | 22 | 24 | 28 => Some(4),
        13 => Some(6),
        14 | 18 | 23 | 25 => Some(8),
        _ => None,
    }
}
