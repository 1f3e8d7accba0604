//! The records that an advance keeps, as they are in its entry.
ghost use Rattle.std.specs.Prelude.{◌≡◌, ◌+◌, ◌≤◌, None, IfSome, IfOk, IfErr, MatchOption, slice_index};
ghost use Rattle.pb_base.specs.Fields.{IsBytes};
ghost use Rattle.pb_archive.specs.Entry.{advance_kind, change_bytes, records_max};
ghost use Rattle.pb_archive.specs.Inside.{IsSpelled, IsRunOf, IsRunIn, HasNoRun, FitsLayout, FitsTable, seen_advance};
ghost use Rattle.pb_archive.specs.Reader.{run_end};

use crate::entry::{ADVANCE, Advance, EntryFault, read_advance};
use crate::held::has_form;
use pb_base::{Layout, TableId};

/// Kept records that follow one another. In form 0 they are cut as events, since each has its own time.
#[derive(Clone, Copy)]
pub(crate) struct Run {
    pub(crate) first: u32,
    pub(crate) count: u16,
    pub(crate) layout: Layout,
}

impl Run {
    /// The number after the last.
    pub(crate) fn end(self) -> u32
        requires { run_end self ≤ records_max }
        ensures { result ≡ run_end self }
    {
        self.first + u32::from(self.count)
    }
}

// The run of an advance's records; none where its bytes aren't those of its form, or a number is too high.
fn run_of(layout: Layout, advance: &Advance) -> Option<Run>
    requires { IsBytes advance.now.bytes.now }
    ensures run { IfSome result (IsRunOf layout (seen_advance advance.now)) }
    ensures none { result ≡ None → FitsLayout layout (seen_advance advance.now) → ⊥ }
{
    let first = advance.first.0;
    first.checked_add(u32::from(advance.count))?;
    if !has_form(layout, advance) {
        return None;
    }
    Some(Run {
        first,
        count: advance.count,
        layout: Layout {
            event: advance.form == 0,
            ..layout
        },
    })
}

/// The run of the entry with this body, where it is an advance of this table; none where it is another entry.
pub(crate) fn run_in(body: &[u8], id: TableId, layout: Layout) -> Result<Option<Run>, EntryFault>
    ensures read { IfOk result (λ found. MatchOption found (HasNoRun id.0 body.now)
        (IsRunIn id.0 layout body.now)) }
    ensures wrong { IfErr result (λ _. (change : _) → IsSpelled change → body.now ≡ change_bytes change
        → FitsTable id.0 layout change → ⊥) }
    ensures kind { IfErr result (λ _. slice_index body.now 0 ≡ advance_kind) }
{
    if body.len() == 0 || body[0] != ADVANCE {
        return Ok(None);
    }
    let Some((of, advance)) = read_advance(body) else {
        return Err(EntryFault::Wrong);
    };
    if of != id {
        return Ok(None);
    }
    match run_of(layout, &advance) {
        None => Err(EntryFault::Wrong),
        Some(run) => Ok(Some(run)),
    }
}
