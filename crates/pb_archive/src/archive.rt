//! An archive that was opened: what is kept of it in memory, and what is asked of that.
ghost use Rattle.std.specs.Prelude.{◌≡◌, ◌<◌, ◌≤◌, length, slice_get, option_map, position, MatchOption, IfSome, None};
ghost use Rattle.pb_archive.specs.Entry.{tables_max};
ghost use Rattle.pb_archive.specs.Find.{first_named};
ghost use Rattle.pb_archive.specs.Opened.{IsCollectable};
ghost use Rattle.pb_archive.specs.Plan.{IsPlan};
ghost use Rattle.pb_archive.specs.Seen.{seen_table};

use crate::held::{Held, Register};
use crate::plan::Plan;
use crate::table_view::TableView;
use pb_base::{RecNo, TableId};
use pb_journal::Journal;
use std::marker::Model;

/// An archive on a disk. It keeps the plan, and of each table its definition, its front, the number of its gap numbers and
/// its stop; no records.
#[derive(Drop)]
pub struct Archive {
    pub(crate) register: Register,
    pub(crate) journal: Journal,
    // a writing call answered a disk fault
    pub(crate) must_reopen: bool,
}

impl Model for Archive {
    ghost use Rattle.std.specs.Prelude.{◌≡◌};
    ghost use Rattle.pb_archive.specs.Opened.{OpenArchive};

    ghost Value = { OpenArchive };

    ghost view = { λ a. record { plan = a.register.plan; tables = a.register.tables; journal = a.journal } };

    ghost invariant = { λ a. a.must_reopen ≡ a.journal.must_reopen };
}

// What is said of a table.
fn view_of(held: &Held) -> TableView
    ensures { seen_table result ≡ held.now }
{
    TableView {
        station: held.station,
        number: held.number,
        table: &held.table,
        front: RecNo(held.front),
        gaps: held.gaps,
        stop: held.stop,
    }
}

impl Archive {
    /// The plan.
    pub fn plan(&self) -> &Plan
        ensures { result.now ≡ self.now.plan }
    {
        &self.register.plan
    }

    /// The number of tables, at most 1,024.
    pub fn tables(&self) -> u16
        ensures count { result ≡ length self.now.tables }
        ensures few { result ≤ tables_max }
    {
        self.register.count() as u16
    }

    /// The table of this place, from 0 in the order in which they were added; none where it isn't below the number of
    /// tables.
    pub fn table(&self, id: TableId) -> Option<TableView>
        ensures table { option_map seen_table result ≡ slice_get self.now.tables id.0 }
        ensures collectable { IfSome result (λ t. IsCollectable self.now.plan (seen_table t)) }
    {
        let held = self.register.tables.get(usize::from(id.0))?;
        Some(view_of(held))
    }

    /// The place of the first table of this name at the station of this name; none where there is none.
    pub fn find(&self, station: &[u8], table: &[u8]) -> Option<TableId>
        ensures { result ≡ first_named self.now station.now table.now }
    {
        match self.register.plan.place_of(station) {
            None => None,
            Some(station) => self.register.place_of(station, table),
        }
    }
}
