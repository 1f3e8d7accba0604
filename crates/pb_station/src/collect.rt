//! What a station answers to a collect command.
ghost use Rattle.std.specs.Prelude.{◌≡◌, ◌+◌, ◌==◌, ◌&&◌, ◌<◌, ◌≤◌, ℕ, Some, Ok, [], ◌∷◌, List, length, IfOk, IfErr, IsTrue, option_copied, if◌then◌else◌};
ghost use Rattle.pb_base.specs.Put.{IsWritten};
ghost use Rattle.pb_base.specs.Record.{content_len, run_len};
ghost use Rattle.pb_ring.specs.Ring.{oldest_of};
ghost use Rattle.pb_station.specs.State.{Table, TablesStandFor, TableStandsFor};
ghost use Rattle.pb_station.specs.Collect.{collected, of_table, answer_mode, answer_run, answer_part, room_of, body, Sends};
ghost use Rattle.pb_station.specs.Inside.Commands.{IsCollected, collect_keys, seen_run, numbered_in};

use crate::copying::{Part, Records, write_part, write_records};
use crate::run::{Run, run_of};
use crate::table::HeldTable;
use pb_base::{Layout, TableNo};
use pb_bmp5::Mode;

/// The most bytes of what follows the response code in a reply.
pub(crate) const BODY_MAX: usize = 971;

/// The most bytes of a fragment's records or part.
const BYTES_MAX: usize = 960;

/// The most records of a fragment.
const RECORDS_MAX: usize = 32_767;

/// The response codes: insufficient resources, invalid table definition signature.
const LACKING: u8 = 2;

const OTHER_SIGNATURE: u8 = 7;

/// What a collect command asks for.
#[derive(Clone, Copy, Debug)]
pub(crate) struct Command<'a> {
    pub(crate) table: TableNo,
    pub(crate) sig: u16,
    pub(crate) fields: &'a [u8],
    pub(crate) mode: Mode,
}

/// Writes the fragments and the last byte of the answer to a collect command, and answers how many bytes they have; or
/// the response code of a refusal.
pub(crate) fn collect(
    tables: &[HeldTable],
    asked: Command,
    body: &mut [u8; BODY_MAX],
) -> Result<usize, u8>
    ensures within { IfOk result (λ n. n ≤ BODY_MAX) }
    ensures refused { IfErr result (λ resp. 0 < resp) }
    ensures collected { (all : List Table) → TablesStandFor tables.now all → (code : ℕ)
        → IsCollected (collected all (collect_keys code asked.entry)) asked.entry.table.0 body.old
        body.new result }
{
    let Some(held) = numbered(tables, asked.table) else {
        return Err(OTHER_SIGNATURE);
    };
    answer_table(held, asked, body)
}

/// Answers for a table, where the command has its signature and asks for all fields.
fn answer_table(held: &HeldTable, asked: Command, body: &mut [u8; BODY_MAX]) -> Result<usize, u8>
    ensures within { IfOk result (λ n. n ≤ BODY_MAX) }
    ensures refused { IfErr result (λ resp. 0 < resp) }
    ensures collected { (all : Table) → TableStandsFor held.now all → (code : ℕ)
        → IsCollected (of_table (Some all) (collect_keys code asked.entry)) asked.entry.table.0
        body.old body.new result }
{
    if held.signature() != asked.sig {
        return Err(OTHER_SIGNATURE);
    }
    if !asked.fields.is_empty() {
        return Err(LACKING);
    }
    answer_mode(held, asked.table, asked.mode, body)
}

/// The table of this number; they are numbered from 1.
pub(crate) fn numbered(tables: &[HeldTable], number: TableNo) -> Option<&HeldTable>
    ensures { option_copied result ≡ numbered_in tables.now number.0 }
{
    if number.0 == 0 {
        return None;
    }
    tables.get(number.0 as usize - 1)
}

fn answer_mode(
    held: &HeldTable,
    table: TableNo,
    mode: Mode,
    body: &mut [u8; BODY_MAX],
) -> Result<usize, u8>
    ensures within { IfOk result (λ n. n ≤ BODY_MAX) }
    ensures refused { IfErr result (λ resp. 0 < resp) }
    ensures collected { (all : Table) → TableStandsFor held.now all
        → IsCollected (answer_mode all mode) table.0 body.old body.new result }
{
    match mode {
        Mode::Part(number, offset) => answer_part(held, table, number, offset, body),
        Mode::All => Ok(answer_run(held, table, run_of(held.ring(), mode), body)),
        Mode::From(_) => Ok(answer_run(held, table, run_of(held.ring(), mode), body)),
        Mode::Newest(_) => Ok(answer_run(held, table, run_of(held.ring(), mode), body)),
        Mode::Range(_, _) => Ok(answer_run(held, table, run_of(held.ring(), mode), body)),
        Mode::Times(_, _) => Ok(answer_run(held, table, run_of(held.ring(), mode), body)),
    }
}

/// Answers for a run of records: as many as have room, or the beginning of the first where it has none.
fn answer_run(held: &HeldTable, table: TableNo, run: Run, body: &mut [u8; BODY_MAX]) -> usize
    requires { (oldest_of held.now.ring ≤ run.from) × (run.to ≤ held.now.ring.next) }
    ensures within { result ≤ BODY_MAX }
    ensures sends { (all : Table) → TableStandsFor held.now all
        → IsCollected (answer_run all (seen_run run)) table.0 body.old body.new (Ok result) }
{
    if run.to <= run.from {
        return write_none(false, body);
    }
    if held.layout().content_len() > BYTES_MAX {
        let part = Part {
            table,
            number: run.from,
            offset: 0,
            len: BYTES_MAX,
        };
        return write_part(held.ring(), part, true, body);
    }
    let count = room_of(held.layout()).min((run.to - run.from) as usize);
    let records = Records {
        table,
        first: run.from,
        count: count as u16,
    };
    let more = run.from + (count as u32) < run.to;
    write_records(held, records, more, body)
}

/// Answers for a part of one record.
fn answer_part(
    held: &HeldTable,
    table: TableNo,
    number: u32,
    offset: u32,
    body: &mut [u8; BODY_MAX],
) -> Result<usize, u8>
    ensures within { IfOk result (λ n. n ≤ BODY_MAX) }
    ensures refused { IfErr result (λ resp. 0 < resp) }
    ensures collected { (all : Table) → TableStandsFor held.now all
        → IsCollected (answer_part all number offset) table.0 body.old body.new result }
{
    let next = held.ring().next().0;
    if number < held.ring().oldest().0 {
        return Ok(write_none(true, body));
    }
    if number >= next {
        return Ok(write_none(false, body));
    }
    let content = held.layout().content_len();
    if offset as usize >= content {
        return Err(LACKING);
    }
    let len = BYTES_MAX.min(content - offset as usize);
    let is_last = ends_newest(number, next, offset as usize + len, content);
    let part = Part {
        table,
        number,
        offset,
        len,
    };
    Ok(write_part(held.ring(), part, !is_last, body))
}

/// Whether a part up to this place of a record's content is the end of the newest record.
fn ends_newest(number: u32, next: u32, end: usize, content: usize) -> bool
    requires { number < next }
    ensures { result ≡ ((number + 1 == next) && (end == content)) }
{
    number + 1 == next && end == content
}

/// Writes the last byte alone, which says whether there are more records.
fn write_none(more: bool, body: &mut [u8; BODY_MAX]) -> usize
    ensures len { result ≡ 1 }
    ensures written { IsWritten ((if more then 1 else 0) ∷ []) body.old body.new result }
{
    body[0] = u8::from(more);
    1
}

/// How many records have room in one fragment, of a table whose contents have room.
fn room_of(layout: Layout) -> usize
    requires { content_len layout ≤ BYTES_MAX }
    ensures room { result ≡ room_of layout }
    ensures some { 1 ≤ result }
    ensures records { result ≤ RECORDS_MAX }
    ensures fits { (count : ℕ) → 1 ≤ count → count ≤ result → run_len layout count ≤ BYTES_MAX }
{
    let len = layout.record_len as usize;
    if layout.event {
        return BYTES_MAX / (8 + len);
    }
    if len == 0 {
        return RECORDS_MAX;
    }
    RECORDS_MAX.min((BYTES_MAX - 8) / len)
}
