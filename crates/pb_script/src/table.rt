//! A table of a script.
ghost use Rattle.std.specs.Prelude.{◌≡◌, ◌<◌, ◌^◌, ◌↔◌, IsTrue};
ghost use Rattle.pb_script.specs.Script.{HoldsRecords, IsShape, record_len, ring_bytes, step};

use pb_base::{Name, NodeId};

/// The most field bytes of a record.
pub const RECORD_BYTES_MAX: u64 = 16_384;

/// The longest interval in seconds.
const INTERVAL_MAX: u32 = 2_000_000;

/// The most records that are stored in one table.
pub const STORED_MAX: u32 = 1_000_000;

/// The last second that a time has.
const SECOND_MAX: u64 = 2_147_483_647;

/// The type of a table's field.
#[derive(Clone, Copy, Debug, PartialEq, Eq)]
pub enum Kind {
    /// FP2, two bytes a value.
    Fp2,
    /// A text with one byte for each of the field's dimension.
    Ascii,
}

/// How a table is made: the most records that it holds, the seconds from one record to the next (0 in a table of events),
/// and the type and the dimension of its one field.
#[derive(Clone, Copy, Debug, PartialEq, Eq)]
pub struct Shape {
    pub size: u32,
    pub interval: u32,
    pub kind: Kind,
    pub count: u32,
}

impl Shape {
    /// The field bytes of a record.
    pub fn record_len(self) -> u64
        ensures { result ≡ record_len self }
    {
        let width = match self.kind {
            Kind::Fp2 => 2,
            Kind::Ascii => 1,
        };
        width * u64::from(self.count)
    }

    /// How many bytes a ring of its size holds.
    pub(crate) fn ring_bytes(self) -> u64
        requires { IsShape self }
        ensures { result ≡ ring_bytes self }
    {
        u64::from(self.size) * (8 + self.record_len())
    }

    /// Whether a table may be made so.
    pub(crate) fn is_allowed(self) -> bool
        ensures { IsTrue result ↔ IsShape self }
    {
        self.size >= 1
            && self.interval <= INTERVAL_MAX
            && self.count >= 1
            && self.record_len() <= RECORD_BYTES_MAX
    }

    /// The seconds from one record to the next.
    pub(crate) fn step(self) -> u64
        ensures value { result ≡ step self.interval }
        ensures within { result < 2 ^ 32 }
    {
        if self.interval == 0 {
            return 1;
        }
        u64::from(self.interval)
    }
}

/// The station of a script: its name, its address and its security code.
#[derive(Clone, Copy, Debug)]
pub struct Station {
    pub name: Name,
    pub addr: NodeId,
    pub code: u16,
}

/// A table of a script: its name, how it is made, and how many records are stored in it.
#[derive(Clone, Copy, Debug)]
pub struct ScriptTable {
    pub name: Name,
    pub shape: Shape,
    pub stored: u32,
}

/// Whether so many records may be stored in a table that is made so.
pub(crate) fn holds_records(table: &ScriptTable) -> bool
    ensures { IsTrue result ↔ HoldsRecords table.now }
{
    if table.stored > STORED_MAX {
        return false;
    }
    let last = u64::from(table.stored.saturating_sub(1));
    last * table.shape.step() <= SECOND_MAX
}
