//! A report on the table definitions of stations: a line for each of their tables, or for a station that fails.
ghost use Rattle.std.specs.Prelude.{◌≡◌, ◌<◌, ◌≤◌, [], ◌∷◌, ◌++◌, length, slice_get, option_copied, IfOk, OnOk};
ghost use Rattle.pb_collect.specs.Report.{station_line};

use pb_base::{Memory, TableNo};
use std::alloc::Global;
use std::marker::Model;

/// Why a request got no answer that serves.
#[derive(Clone, Copy, Debug, PartialEq, Eq)]
pub enum Cause {
    /// It was sent as often as the limits say, and after each sending the quiet ticks came, more where the node asked to wait.
    NoAnswer,
    /// At least 65,536 bytes came after the last sending, and no answer among them.
    Flooded,
    /// It wasn't delivered, for the reason of this code.
    Undelivered(u8),
    /// The node answered with this response code.
    Refused(u8),
}

/// What comes of a table that a station's file defines, or of the station.
#[derive(Clone, Copy, Debug, PartialEq, Eq)]
pub enum DefsWhat {
    /// The table was added to the archive.
    Added,
    /// The archive has the table.
    Same,
    /// The archive has the table under this other signature, and has a stop of it.
    Redefined { old: u16 },
    /// It has a text of any length, and isn't collected.
    NotText,
    /// It would be added, but the archive has 1,024 tables.
    NotFull,
    /// The station's file didn't come.
    Failed(Cause),
    /// The station's file defines no tables: the fault is at this place of it.
    Bad { at: usize },
}

/// The bytes of a name.
#[derive(Drop)]
pub struct Text {
    bytes: Vec<u8>,
}

impl Model for Text {
    ghost use Rattle.std.specs.Prelude.{List, ℕ};

    ghost Value = { List ℕ };

    ghost view = { λ t. t.bytes.items };
}

impl Text {
    fn none(alloc: Global) -> Text
        ensures { result ≡ [] }
    {
        Text {
            bytes: Vec::new(alloc),
        }
    }

    /// A copy of these bytes. Takes memory.
    pub(crate) fn of(alloc: Global, bytes: &[u8]) -> Result<Text, Memory>
        ensures { IfOk result (λ t. t ≡ bytes.now) }
    {
        match Vec::from_slice(alloc, bytes) {
            Ok(bytes) => Ok(Text { bytes }),
            Err(_) => Err(Memory),
        }
    }

    /// The bytes.
    pub fn bytes(&self) -> &[u8]
        ensures { result.now ≡ self.now }
    {
        &self.bytes
    }
}

/// A line of a report: a table of a station, by its number and its name, and what came of it. Where the station fails, the
/// number and the signature are 0, and the name is empty.
#[derive(Drop)]
pub struct DefsLine {
    /// The station's place in the plan, from 0.
    pub station: u8,
    /// The table's number at the station, from 1.
    pub number: TableNo,
    /// The signature of its definition.
    pub sig: u16,
    /// Its name.
    pub name: Text,
    /// What came of it.
    pub what: DefsWhat,
}

impl DefsLine {
    /// The line of a station that fails.
    pub(crate) fn of_station(alloc: Global, station: u8, what: DefsWhat) -> DefsLine
        ensures { result ≡ station_line station what }
    {
        DefsLine {
            station,
            number: TableNo(0),
            sig: 0,
            name: Text::none(alloc),
            what,
        }
    }
}

/// What came of the stations' table definitions, line by line.
#[derive(Drop)]
pub struct DefsReport {
    lines: Vec<DefsLine>,
}

impl Model for DefsReport {
    ghost use Rattle.std.specs.Prelude.{vec_capacity};
    ghost use Rattle.pb_collect.specs.Report.{Report};

    ghost Value = { Report };

    ghost view = { λ r. record { lines = r.lines.items; room = vec_capacity r.lines } };
}

impl DefsReport {
    /// A report without lines.
    pub fn new(alloc: Global) -> DefsReport
        ensures { result.lines ≡ [] }
    {
        DefsReport {
            lines: Vec::new(alloc),
        }
    }

    /// The number of lines.
    pub fn count(&self) -> usize
        ensures { result ≡ length self.now.lines }
    {
        self.lines.len()
    }

    /// The lines.
    pub fn lines(&self) -> &[DefsLine]
        ensures { result.now ≡ self.now.lines }
    {
        &self.lines
    }

    /// The line of this place, from 0; none where it isn't below the count.
    pub fn line(&self, n: usize) -> Option<&DefsLine>
        ensures { option_copied result ≡ slice_get self.now.lines n }
    {
        self.lines.get(n)
    }

    /// Takes the room for one line more.
    pub(crate) fn reserve(&mut self) -> Result<(), Memory>
        ensures same { self.new.lines ≡ self.old.lines }
        ensures room { OnOk result (length self.new.lines < self.new.room) }
    {
        match self.lines.reserve(1) {
            Ok(()) => Ok(()),
            Err(_) => Err(Memory),
        }
    }

    /// Adds a line, for which there is room.
    pub(crate) fn push(&mut self, line: DefsLine)
        requires { length self.old.lines < self.old.room }
        ensures { self.new.lines ≡ self.old.lines ++ line ∷ [] }
    {
        self.lines.push_reserved(line);
    }
}
