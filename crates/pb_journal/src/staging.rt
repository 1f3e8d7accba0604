//! Adding an entry: it is written after the closed gate, where no reader looks, and then the gate is opened.
ghost use Rattle.std.specs.Prelude.{◌≡◌, ◌+◌, ◌<◌, ◌≤◌, ◌++◌, length, OnOk};
ghost use Rattle.std.specs.Option.{ForSome};
ghost use Rattle.pb_io.specs.Settled.{IsMapped, IsSettled, Leaves, Runs};
ghost use Rattle.pb_io.specs.Crash.{max_file_len, Changes};
ghost use Rattle.pb_io.specs.Faults.{HasCause};
ghost use Rattle.pb_journal.specs.Changes.{Gains, KeepsOrGains};
ghost use Rattle.pb_journal.specs.Inside.{KeepsBefore, staged};
ghost use Rattle.pb_journal.specs.Opened.{IsOpened};
ghost use Rattle.pb_journal.specs.Entries.{lead_len, max_body_len};

use pb_io::{Disk, Failed, write_settled};

/// A gate with an entry after it.
pub(crate) const OPEN: u8 = 0x5A;
/// A gate that ends the entries, as it is written; a reader takes any byte but `OPEN` for one.
pub(crate) const CLOSED: u8 = 0x00;

// Writes bytes at the end of the file; no call where there are none.
fn put<D: Disk>(disk: &mut D, at: u64, bytes: &[u8]) -> Result<(), Failed>
    requires end { ForSome (D.view disk.old).file (λ f. at ≡ length f) }
    requires low { at ≤ max_file_len }
    ensures written { OnOk result (IsMapped (λ f. f ++ bytes.now) (D.view disk.old) (D.view disk.new)) }
    ensures bound { OnOk result (at + length bytes.now ≤ max_file_len) }
    ensures file { Changes (KeepsBefore at) (D.view disk.old).file (D.view disk.new).file }
    ensures run { Runs (KeepsBefore at) (D.view disk.old) (D.view disk.new) }
    ensures cause { HasCause (D.view disk.old).faults (D.view disk.new).faults result }
{
    if bytes.is_empty() {
        return Ok(());
    }
    disk.write_at(at, bytes)?;
    Ok(())
}

// Writes bytes at the end of the file, and then second ones.
fn put_both<D: Disk>(disk: &mut D, at: u64, first: &[u8], second: &[u8]) -> Result<(), Failed>
    requires end { ForSome (D.view disk.old).file (λ f. at ≡ length f) }
    requires low { at ≤ max_file_len }
    requires few { length first.now + length second.now < max_file_len }
    ensures written { OnOk result (IsMapped (λ f. f ++ (first.now ++ second.now)) (D.view disk.old)
        (D.view disk.new)) }
    ensures bound { OnOk result (at + (length first.now + length second.now) ≤ max_file_len) }
    ensures file { Changes (KeepsBefore at) (D.view disk.old).file (D.view disk.new).file }
    ensures run { Runs (KeepsBefore at) (D.view disk.old) (D.view disk.new) }
    ensures cause { HasCause (D.view disk.old).faults (D.view disk.new).faults result }
{
    put(disk, at, first)?;
    put(disk, at + first.len() as u64, second)?;
    Ok(())
}

// Writes an entry's length and body at the end of the file, and a closed gate after them, and settles them.
fn stage<D: Disk>(disk: &mut D, at: u64, head: &[u8], rest: &[u8]) -> Result<(), Failed>
    requires end { ForSome (D.view disk.old).file (λ f. at ≡ length f) }
    requires low { at ≤ max_file_len }
    requires few { length head.now + length rest.now ≤ max_body_len }
    ensures written { OnOk result (IsMapped (staged (head.now ++ rest.now)) (D.view disk.old)
        (D.view disk.new)) }
    ensures settled { OnOk result (IsSettled (D.view disk.new)) }
    ensures bound { OnOk result (at + 4 + (length head.now + length rest.now) < max_file_len) }
    ensures file { Changes (KeepsBefore at) (D.view disk.old).file (D.view disk.new).file }
    ensures run { Runs (KeepsBefore at) (D.view disk.old) (D.view disk.new) }
    ensures cause { HasCause (D.view disk.old).faults (D.view disk.new).faults result }
{
    let size = head.len() + rest.len();
    put_both(disk, at, &(size as u32).to_be_bytes(), head)?;
    put_both(disk, at + 4 + head.len() as u64, rest, &[CLOSED])?;
    disk.sync()?;
    Ok(())
}

/// Adds an entry at the closed gate. The gate is opened only once the entry is settled after it.
pub(crate) fn add_entry<D: Disk>(
    disk: &mut D,
    gate: u64,
    head: &[u8],
    rest: &[u8],
) -> Result<(), Failed>
    requires low { gate < max_file_len }
    requires some { 0 < length head.now }
    requires few { length head.now + length rest.now ≤ max_body_len }
    requires opened { IsOpened gate (D.view disk.old) }
    ensures added { OnOk result (Changes (Gains (head.now ++ rest.now)) (D.view disk.old).file
        (D.view disk.new).file) }
    ensures opened { OnOk result (IsOpened (gate + (lead_len + (length head.now + length rest.now)))
        (D.view disk.new)) }
    ensures bound { OnOk result (gate + (lead_len + (length head.now + length rest.now)) < max_file_len) }
    ensures file { Changes (KeepsOrGains (head.now ++ rest.now)) (D.view disk.old).file
        (D.view disk.new).file }
    ensures leaves { Leaves (KeepsOrGains (head.now ++ rest.now)) (D.view disk.old) (D.view disk.new) }
    ensures link { (D.view disk.new).link ≡ (D.view disk.old).link }
    ensures cause { HasCause (D.view disk.old).faults (D.view disk.new).faults result }
{
    stage(disk, gate + 1, head, rest)?;
    write_settled(disk, gate, &[OPEN])?;
    Ok(())
}
