//! One entry after the plan, as its body is read.
ghost use Rattle.std.specs.Prelude.{◌≡◌, ℕ, ◌<◌, ◌≤◌, ◌+◌, ◌^◌, ◌∷◌, ◌++◌, length, take, drop, IfOk, IfSome, IfErr, None};
ghost use Rattle.std.specs.Int.{w16, w32, to_be_bytes};
ghost use Rattle.pb_tdf.specs.Definition.{IsTable, table_bytes};
ghost use Rattle.pb_tdf.specs.View.{view_of};
ghost use Rattle.pb_archive.specs.Entry as entry;
ghost use Rattle.pb_archive.specs.Inside as inside;

use crate::table_view::Stop;
use pb_base::{RecNo, TableId, TableNo};
use pb_tdf::{Table, TdfFault};
use std::alloc::Global;

/// The first byte of an entry's body.
pub(crate) const PLAN: u8 = 0x50;

pub(crate) const TABLE: u8 = 0x54;

pub(crate) const ADVANCE: u8 = 0x41;

pub(crate) const STOP: u8 = 0x53;

/// The next records of a table: in form 0 whole contents, in form 1 one time and the field bytes after it.
#[derive(Clone, Copy)]
pub(crate) struct Advance<'a> {
    pub(crate) form: u8,
    pub(crate) first: RecNo,
    pub(crate) count: u16,
    pub(crate) bytes: &'a [u8],
}

/// A change of an archive.
#[derive(Drop)]
pub(crate) enum Change<'a> {
    Add {
        station: u8,
        number: TableNo,
        table: Table,
    },
    Advance {
        id: TableId,
        advance: Advance<'a>,
    },
    Stop {
        id: TableId,
        stop: Stop,
    },
}

/// Why an entry isn't read.
#[derive(Clone, Copy, Debug, PartialEq, Eq)]
pub(crate) enum EntryFault {
    Wrong,
    Memory,
}

/// The number of two bytes at a place.
pub(crate) fn half_at(bytes: &[u8], at: usize) -> u16
    requires { at + 2 ≤ length bytes.now }
    ensures { to_be_bytes w16 result ≡ take 2 (drop at bytes.now) }
{
    u16::from_be_bytes([bytes[at], bytes[at + 1]])
}

/// The number of four bytes at a place.
pub(crate) fn word_at(bytes: &[u8], at: usize) -> u32
    requires { at + 4 ≤ length bytes.now }
    ensures { to_be_bytes w32 result ≡ take 4 (drop at bytes.now) }
{
    u32::from_be_bytes([bytes[at], bytes[at + 1], bytes[at + 2], bytes[at + 3]])
}

// How many bytes of an advance come before its records.
pub(crate) const ADVANCE_HEAD: usize = 10;
// How many bytes of a table's entry come before its definition.
const TABLE_HEAD: usize = 4;
// How many bytes a stop has.
const STOP_LEN: usize = 6;

// A definition that can't be read makes its entry wrong.
fn of_table(fault: TdfFault) -> EntryFault
    ensures { result ≡ EntryFault.Wrong → fault ≡ TdfFault.Memory → ⊥ }
{
    match fault {
        TdfFault::Memory => EntryFault::Memory,
        _ => EntryFault::Wrong,
    }
}

fn read_table(alloc: Global, body: &[u8]) -> Result<(u8, TableNo, Table), EntryFault>
    requires { 0 < length body.now }
    ensures read { IfOk result (λ r. (d : _) × IsTable d × (r.2 ≡ view_of d)
        × (drop 1 body.now ≡ r.0 ∷ (entry.half r.1.0 ++ table_bytes d))) }
    ensures ranges { IfOk result (λ r. (r.0 < 2 ^ 8) × (r.1.0 < 2 ^ 16)) }
    ensures wrong { IfErr result (λ fault. fault ≡ EntryFault.Wrong → (station number : ℕ) (d : _)
        → IsTable d
        → drop 1 body.now ≡ station ∷ (entry.half number ++ table_bytes d) → ⊥) }
{
    if body.len() < TABLE_HEAD {
        return Err(EntryFault::Wrong);
    }
    match Table::read(alloc, &body[TABLE_HEAD..]) {
        Ok(table) => Ok((body[1], TableNo(half_at(body, 2)), table)),
        Err(fault) => Err(of_table(fault)),
    }
}

/// Reads an advance, whose first byte was seen.
pub(crate) fn read_advance(body: &[u8]) -> Option<(TableId, Advance)>
    requires { 0 < length body.now }
    ensures read { IfSome result (λ r. drop 1 body.now
        ≡ drop 1 (entry.change_bytes (entry.Advanced r.0.0 (inside.seen_advance r.1)))) }
    ensures wrong { result ≡ None → (id : ℕ) (a : _)
        → drop 1 body.now ≡ drop 1 (entry.change_bytes (entry.Advanced id a)) → ⊥ }
{
    if body.len() < ADVANCE_HEAD {
        return None;
    }
    let advance = Advance {
        form: body[3],
        first: RecNo(word_at(body, 4)),
        count: half_at(body, 8),
        bytes: &body[ADVANCE_HEAD..],
    };
    Some((TableId(half_at(body, 1)), advance))
}

fn read_stop(body: &[u8]) -> Option<(TableId, Stop)>
    requires { 0 < length body.now }
    ensures read { IfSome result (λ r. drop 1 body.now
        ≡ drop 1 (entry.change_bytes (entry.Stopped r.0.0 r.1))) }
    ensures wrong { result ≡ None → (id : ℕ) (stop : _) → inside.IsSpelled (entry.Stopped id stop)
        → drop 1 body.now ≡ drop 1 (entry.change_bytes (entry.Stopped id stop)) → ⊥ }
{
    if body.len() != STOP_LEN {
        return None;
    }
    let signature = half_at(body, 4);
    let told = match body[3] {
        0 if signature == 0 => None,
        1 => Some(signature),
        _ => return None,
    };
    Some((TableId(half_at(body, 1)), Stop { told }))
}

/// Reads the body of an entry after the plan. Takes memory.
pub(crate) fn read_change(alloc: Global, body: &[u8]) -> Result<Change, EntryFault>
    ensures read { IfOk result (λ change. (said : _) × inside.Says change said × inside.IsSpelled said
        × (body.now ≡ entry.change_bytes said)) }
    ensures wrong { IfErr result (λ fault. fault ≡ EntryFault.Wrong → (said : _) → inside.IsSpelled said
        → body.now ≡ entry.change_bytes said → ⊥) }
{
    if body.len() == 0 {
        return Err(EntryFault::Wrong);
    }
    match body[0] {
        TABLE => match read_table(alloc, body) {
            Err(fault) => Err(fault),
            Ok((station, number, table)) => Ok(Change::Add {
                station,
                number,
                table,
            }),
        },
        ADVANCE => match read_advance(body) {
            None => Err(EntryFault::Wrong),
            Some((id, advance)) => Ok(Change::Advance { id, advance }),
        },
        STOP => match read_stop(body) {
            None => Err(EntryFault::Wrong),
            Some((id, stop)) => Ok(Change::Stop { id, stop }),
        },
        _ => Err(EntryFault::Wrong),
    }
}
