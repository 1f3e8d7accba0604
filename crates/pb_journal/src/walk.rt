//! What is at a gate, read through a window.
ghost use Rattle.std.specs.Prelude.{◌≡◌, ℕ, ◌-◌, ◌<◌, ◌≤◌, min, List, length, take, IfOk};
ghost use Rattle.std.specs.Option.{ForSome};
ghost use Rattle.pb_io.specs.Faults.{HasCause};
ghost use Rattle.pb_journal.specs.Inside.{EndsWithin, GateIs, Peeks, ShowsGate};
ghost use Rattle.pb_journal.specs.Window.{Shows};
ghost use Rattle.pb_journal.specs.Entries.{lead_len};

use crate::staging::OPEN;
use crate::window::Window;
use pb_io::{Disk, Failed};

/// How many bytes a gate and a length have.
pub(crate) const LEAD: usize = 5;

/// What is at a gate.
#[derive(Clone, Copy, Debug, PartialEq, Eq)]
pub(crate) enum Gate {
    /// No entry; it ends the list.
    Closed,
    /// An entry with a body of so many bytes, and the next gate after it.
    Open(usize),
    /// An entry that can't be read.
    Broken,
}

// By the bytes at the gate, of which there are five or all that are left.
fn gate_of(prefix: &[u8], left: u64) -> Gate
    requires some { 0 < left }
    requires prefix { length prefix.now ≡ min left lead_len }
    ensures is { (tail : List ℕ) → length tail ≡ left → prefix.now ≡ take (min left lead_len) tail
        → GateIs tail result }
    ensures fits { EndsWithin result left }
{
    if prefix[0] != OPEN || left == 1 {
        return Gate::Closed;
    }
    if prefix.len() < LEAD {
        return Gate::Broken;
    }
    if prefix[1] != 0 || prefix[2] != 0 {
        return Gate::Broken;
    }
    let size = prefix[3] as usize * 256 + prefix[4] as usize;
    if size == 0 || left <= (LEAD + size) as u64 {
        return Gate::Broken;
    }
    Gate::Open(size)
}

/// Reads what is at the gate at this place of a file that ends at `end`.
pub(crate) fn look<D: Disk>(
    window: &mut Window,
    disk: &mut D,
    place: u64,
    end: u64,
) -> Result<Gate, Failed>
    requires within { place < end }
    requires room { lead_len ≤ window.old.held }
    requires file { ForSome (D.view disk.old).file (λ f. end ≤ length f) }
    ensures gate { IfOk result (λ gate. ForSome (D.view disk.old).file
        (ShowsGate window.old place end gate)) }
    ensures fits { IfOk result (λ gate. EndsWithin gate (end - place)) }
    ensures shows { ForSome (D.view disk.old).file (λ f. Shows window.old f → Shows window.new f) }
    ensures held { window.new.held ≡ window.old.held }
    ensures peeks { Peeks (D.view disk.old) (D.view disk.new) }
    ensures cause { HasCause (D.view disk.old).faults (D.view disk.new).faults result }
{
    let left = end - place;
    let count = left.min(LEAD as u64) as usize;
    window.fill(disk, place, count, end)?;
    Ok(gate_of(window.bytes(place, count), left))
}
