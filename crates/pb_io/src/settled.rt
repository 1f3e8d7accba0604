//! Changes of a disk that are synced.
ghost use Rattle.std.specs.Prelude.{◌+◌, ◌≤◌, max, length, take, OnOk};
ghost use Rattle.std.specs.Option.{ForSome};
ghost use Rattle.pb_io.specs.Crash.{max_file_len, overlaid, overlaid_twice, Torn, Shortened, Changes};
ghost use Rattle.pb_io.specs.Faults.{HasCause};
ghost use Rattle.pb_io.specs.Settled.{IsMapped, IsSettled, Runs, RunsInOrder, TornInOrder};

use crate::{Disk, Failed};

/// Writes bytes and syncs them. Once it has succeeded, a crash leaves the file with all of them; at any moment of it
/// a crash leaves them torn. The sync is tried once.
pub fn write_settled<D: Disk>(disk: &mut D, at: u64, bytes: &[u8]) -> Result<(), Failed>
    requires { ForSome (D.view disk.old).file (λ f. at ≤ length f) }
    ensures written { OnOk result (IsMapped (λ f. overlaid f at bytes.now) (D.view disk.old)
        (D.view disk.new)) }
    ensures settled { OnOk result (IsSettled (D.view disk.new)) }
    ensures bound { OnOk result (at + length bytes.now ≤ max_file_len) }
    ensures file { Changes (Torn at (length bytes.now)) (D.view disk.old).file (D.view disk.new).file }
    ensures run { Runs (Torn at (length bytes.now)) (D.view disk.old) (D.view disk.new) }
    ensures cause { HasCause (D.view disk.old).faults (D.view disk.new).faults result }
{
    disk.write_at(at, bytes)?;
    disk.sync()?;
    Ok(())
}

/// Cuts the file to `len` bytes and syncs it. Once it has succeeded, a crash leaves the file without what was cut; at
/// any moment of it a crash leaves the cut torn.
pub fn cut_settled<D: Disk>(disk: &mut D, len: u64) -> Result<(), Failed>
    requires { ForSome (D.view disk.old).file (λ f. len ≤ length f) }
    ensures shortened { OnOk result (IsMapped (take len) (D.view disk.old) (D.view disk.new)) }
    ensures settled { OnOk result (IsSettled (D.view disk.new)) }
    ensures file { Changes (Shortened len) (D.view disk.old).file (D.view disk.new).file }
    ensures run { Runs (Shortened len) (D.view disk.old) (D.view disk.new) }
    ensures cause { HasCause (D.view disk.old).faults (D.view disk.new).faults result }
{
    disk.cut(len)?;
    disk.sync()?;
    Ok(())
}

/// Writes bytes and settles them, and then second ones. At any moment of it a crash leaves nothing of the second ones,
/// or the first ones whole.
pub fn write_in_order<D: Disk>(
    disk: &mut D,
    first_at: u64,
    first: &[u8],
    second_at: u64,
    second: &[u8],
) -> Result<(), Failed>
    requires first { ForSome (D.view disk.old).file (λ f. first_at ≤ length f) }
    requires second { ForSome (D.view disk.old).file
        (λ f. second_at ≤ max (length f) (first_at + length first.now)) }
    ensures written { OnOk result
        (IsMapped (overlaid_twice first_at first.now second_at second.now) (D.view disk.old) (D.view disk.new)) }
    ensures settled { OnOk result (IsSettled (D.view disk.new)) }
    ensures file { Changes (TornInOrder first_at first.now second_at (length second.now))
        (D.view disk.old).file (D.view disk.new).file }
    ensures run { RunsInOrder first_at first.now second_at (length second.now) (D.view disk.old)
        (D.view disk.new) }
    ensures cause { HasCause (D.view disk.old).faults (D.view disk.new).faults result }
{
    write_settled(disk, first_at, first)?;
    write_settled(disk, second_at, second)?;
    Ok(())
}
