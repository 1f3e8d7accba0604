//! What the fields of a table add up to.
ghost use Rattle.std.specs.Prelude.{◌≡◌, ℕ, ◌+◌, ◌*◌, ◌<◌, ◌≤◌, SomeIff, IsTrue, length, List, [], ◌∷◌, ◌++◌};
ghost use Rattle.pb_tdf.specs.Definition.{fields_max};
ghost use Rattle.pb_tdf.specs.Inside.Passing.{IsTotals, totals_with, are_within};

use crate::kind::{ASCII, ASCIIZ, value_bytes_of};

/// The greatest number of values of a record (of this project).
pub const VALUES_MAX: u32 = 16_384;

/// The greatest number of field bytes of a record (of this project).
pub const RECORD_BYTES_MAX: u32 = 16_384;

/// The sums over the fields so far.
#[derive(Clone, Copy, Debug)]
pub struct Totals {
    pub fields: u32,
    pub values: u32,
    pub record_bytes: u32,
    /// Whether a field is a text of any length.
    pub uncollectable: bool,
}

impl Totals {
    /// No field yet.
    pub fn none() -> Totals
        ensures { IsTotals [] result }
    {
        Totals {
            fields: 0,
            values: 0,
            record_bytes: 0,
            uncollectable: false,
        }
    }

    /// The sums with one more field, where they are within their limits.
    pub fn with(self, kind: u8, dimension: u32) -> Option<Totals>
        requires { self.fields < fields_max }
        ensures { let t = totals_with self kind dimension in SomeIff result (IsTrue (are_within t)) t }
    {
        let values = if kind == ASCII {
            1
        } else {
            u64::from(dimension)
        };
        let bytes = u64::from(value_bytes_of(kind).unwrap_or(0)) * u64::from(dimension);
        let values = u64::from(self.values) + values;
        let record_bytes = u64::from(self.record_bytes) + bytes;
        if values > u64::from(VALUES_MAX) || record_bytes > u64::from(RECORD_BYTES_MAX) {
            return None;
        }
        Some(Totals {
            fields: self.fields + 1,
            values: values as u32,
            record_bytes: record_bytes as u32,
            uncollectable: self.uncollectable || kind == ASCIIZ,
        })
    }
}
