//! What the archive says of a table before and after it is collected.
ghost use Rattle.std.specs.Prelude.{◌≡◌, ◌<◌, ◌≤◌, Ok, Some, length, slice_get};
ghost use Rattle.pb_base.specs.Record.{content_len};
ghost use Rattle.pb_collect.specs.Progress.{content_max};
ghost use Rattle.pb_collect.specs.Tables.{IsStateOf};

use pb_archive::{Archive, Stop};
use pb_base::{Layout, RecNo, TableId};

/// A table's front, the number of its gaps, the signature of its definition, and its stop.
#[derive(Clone, Copy, Debug, PartialEq, Eq)]
pub(crate) struct State {
    pub(crate) front: RecNo,
    pub(crate) gaps: u32,
    pub(crate) signature: u16,
    pub(crate) stop: Option<Stop>,
}

/// The state of a table that is there.
pub(crate) fn state_of(archive: &Archive, id: TableId) -> State
    requires { id.0 < length archive.now.tables }
    ensures { (held : _) → slice_get archive.now.tables id.0 ≡ Some held → IsStateOf held result }
{
    let view = archive.table(id).unwrap();
    State {
        front: view.front,
        gaps: view.gaps,
        signature: view.table.signature(),
        stop: view.stop,
    }
}

/// How the records of a table that is there are cut.
pub(crate) fn layout_of(archive: &Archive, id: TableId) -> Layout
    requires { id.0 < length archive.now.tables }
    ensures layout { (held : _) → slice_get archive.now.tables id.0 ≡ Some held
        → held.table.layout ≡ Ok result }
    ensures few { content_len result ≤ content_max }
{
    let view = archive.table(id).unwrap();
    let table = view.table;
    let _ = table.bytes();
    table.layout().unwrap()
}
