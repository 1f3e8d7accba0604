//! Fragments of collect replies, copied out of a ring.
ghost use Rattle.std.specs.Prelude.{◌≡◌, ◌+◌, ◌*◌, ◌<◌, ◌≤◌, ◌^◌, List, [], ◌∷◌, ◌++◌, length, take, drop, slice_get};
ghost use Rattle.std.specs.List.{flat_map};
ghost use Rattle.std.specs.Int.{w16, w32, to_be_bytes};
ghost use Rattle.pb_base.specs.World.{StoredRecord};
ghost use Rattle.pb_base.specs.Put.{IsWritten};
ghost use Rattle.pb_base.specs.Record.{run_len};
ghost use Rattle.pb_bmp5.specs.CollectReply as fragment;
ghost use Rattle.pb_ring.specs.Ring.{StandsFor, IsHeld, IsWithin, CopiesPart};
ghost use Rattle.pb_station.specs.Collect.{run_bytes, content_in, body};
ghost use Rattle.pb_station.specs.Inside.Commands.{AreHeld, content_part};

use crate::table::HeldTable;
use pb_base::{RecNo, TableNo};
use pb_ring::Ring;

/// The bytes of a fragment before its records, and of one before its part of a record.
const RUN_HEAD: usize = 8;

const PART_HEAD: usize = 10;

/// The bit that says that a part follows.
const IS_PART: u32 = 0x8000_0000;

/// The bytes of a time.
const TIME_LEN: usize = 8;

/// A run of whole records of a table.
#[derive(Clone, Copy, Debug)]
pub(crate) struct Records {
    pub(crate) table: TableNo,
    pub(crate) first: u32,
    pub(crate) count: u16,
}

/// A part of one record's content.
#[derive(Clone, Copy, Debug)]
pub(crate) struct Part {
    pub(crate) table: TableNo,
    pub(crate) number: u32,
    pub(crate) offset: u32,
    pub(crate) len: usize,
}

/// Which bytes of each content are copied.
#[derive(Clone, Copy, Debug)]
struct Slice {
    offset: u32,
    len: usize,
}

/// Writes a fragment of whole records, and the byte that says whether there are more.
pub(crate) fn write_records(held: &HeldTable, records: Records, more: bool, out: &mut [u8]) -> usize
    requires some { 1 ≤ records.count }
    requires held { AreHeld held.now.ring records.first records.count }
    requires fits { 9 + run_len held.now.layout records.count ≤ length out.old }
    ensures len { result ≡ 9 + run_len held.now.layout records.count }
    ensures written { (all : List StoredRecord) → StandsFor held.now.ring all
        → let run = run_bytes held.now.layout (take records.count (drop records.first all)) in
        IsWritten (body records.table.0 (fragment.whole records.first records.count run ∷ []) more) out.old out.new result }
{
    out[..RUN_HEAD].copy_from_slice(&records_head(records));
    let len = RUN_HEAD + copy_run(held, records, &mut out[RUN_HEAD..]);
    out[len] = u8::from(more);
    len + 1
}

/// Writes a fragment with a part of a record, and the byte that says whether there are more.
pub(crate) fn write_part(ring: &Ring, part: Part, more: bool, out: &mut [u8]) -> usize
    requires held { IsHeld ring.now part.number }
    requires within { IsWithin ring.now part.offset part.len }
    requires place { part.offset < 2 ^ 31 }
    requires fits { 11 + part.len ≤ length out.old }
    ensures len { result ≡ 11 + part.len }
    ensures written { (all : List StoredRecord) → StandsFor ring.now all
        → let bytes = take part.len (drop part.offset (content_in (slice_get all part.number))) in
        IsWritten (body part.table.0 (fragment.part part.number part.offset bytes ∷ []) more) out.old out.new result }
{
    out[..PART_HEAD].copy_from_slice(&part_head(part));
    let len = PART_HEAD + part.len;
    copy_held(ring, part.number, part.offset, &mut out[PART_HEAD..len]);
    out[len] = u8::from(more);
    len + 1
}

/// Copies records as they are sent: in a table of events each with its time, else the first one's time and then the field
/// bytes. Answers how many bytes they have.
fn copy_run(held: &HeldTable, records: Records, out: &mut [u8]) -> usize
    requires some { 1 ≤ records.count }
    requires held { AreHeld held.now.ring records.first records.count }
    requires fits { run_len held.now.layout records.count ≤ length out.old }
    ensures len { result ≡ run_len held.now.layout records.count }
    ensures written { (all : List StoredRecord) → StandsFor held.now.ring all
        → IsWritten (run_bytes held.now.layout (take records.count (drop records.first all))) out.old
        out.new result }
{
    let len = held.layout().record_len as usize;
    if held.layout().event {
        let whole = Slice {
            offset: 0,
            len: TIME_LEN + len,
        };
        return copy_each(held.ring(), records, whole, out);
    }
    copy_held(held.ring(), records.first, 0, &mut out[..TIME_LEN]);
    let fields = Slice {
        offset: TIME_LEN as u32,
        len,
    };
    TIME_LEN + copy_each(held.ring(), records, fields, &mut out[TIME_LEN..])
}

/// Copies the same part of each record, one after another, and answers how many bytes they have.
fn copy_each(ring: &Ring, records: Records, slice: Slice, out: &mut [u8]) -> usize
    requires held { AreHeld ring.now records.first records.count }
    requires within { IsWithin ring.now slice.offset slice.len }
    requires fits { records.count * slice.len ≤ length out.old }
    ensures len { result ≡ records.count * slice.len }
    ensures written { (all : List StoredRecord) → StandsFor ring.now all
        → let copied = take records.count (drop records.first all) in
        IsWritten (flat_map (content_part slice.offset slice.len) copied) out.old out.new result }
{
    for k in 0..records.count {
        let at = usize::from(k) * slice.len;
        let number = records.first + u32::from(k);
        copy_held(ring, number, slice.offset, &mut out[at..at + slice.len]);
    }
    usize::from(records.count) * slice.len
}

/// Copies a part of a record that is held.
fn copy_held(ring: &Ring, number: u32, offset: u32, out: &mut [u8])
    requires held { IsHeld ring.now number }
    requires within { IsWithin ring.now offset (length out.old) }
    ensures { (all : List StoredRecord) → StandsFor ring.now all
        → CopiesPart all number offset (length out.old) out.new }
{
    let _copied = ring.copy_into(RecNo(number), offset, out);
}

/// The table's number, the first record's, and how many there are.
fn records_head(records: Records) -> [u8; RUN_HEAD]
    ensures { result ≡ to_be_bytes w16 records.table.0 ++
        (to_be_bytes w32 records.first ++ to_be_bytes w16 records.count) }
{
    let [a, b] = records.table.0.to_be_bytes();
    let [c, d, e, f] = records.first.to_be_bytes();
    let [g, h] = records.count.to_be_bytes();
    [a, b, c, d, e, f, g, h]
}

/// The table's number, the record's, and under the bit that says so the place in its content.
fn part_head(part: Part) -> [u8; PART_HEAD]
    requires { part.offset < 2 ^ 31 }
    ensures { result ≡ to_be_bytes w16 part.table.0 ++
        (to_be_bytes w32 part.number ++ to_be_bytes w32 (2 ^ 31 + part.offset)) }
{
    let [a, b] = part.table.0.to_be_bytes();
    let [c, d, e, f] = part.number.to_be_bytes();
    let [g, h, i, j] = (IS_PART + part.offset).to_be_bytes();
    [a, b, c, d, e, f, g, h, i, j]
}
