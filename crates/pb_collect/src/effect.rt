//! What a fragment of an answer adds to a table's archive.
use pb_base::RecNo;

/// An advance of a table.
#[derive(Clone, Copy, Debug, PartialEq, Eq)]
pub enum Effect<'a> {
    /// The numbers from the front up to this one are gaps.
    Gap {
        to: RecNo,
    },
    /// A run of whole records is kept, as it came: in a table of intervals with one time.
    Run {
        first: RecNo,
        count: u16,
        bytes: &'a [u8],
    },
    /// The record that parts made whole is kept; its content is what was joined.
    Content {
        number: RecNo,
    },
}

/// The advances of one fragment, at most two, in this order.
#[derive(Clone, Copy, Debug, PartialEq, Eq)]
pub struct Effects<'a> {
    pub gap: Option<Effect<'a>>,
    pub kept: Option<Effect<'a>>,
}

/// The forms of an advance's bytes: whole contents, and one time with the field bytes of each record.
pub const WHOLE: u8 = 0;

pub const TIMED: u8 = 1;

/// The next records of a table, as the archive takes them.
#[derive(Clone, Copy, Debug, PartialEq, Eq)]
pub struct Advance<'a> {
    pub form: u8,
    pub first: RecNo,
    pub count: u16,
    pub bytes: &'a [u8],
}
