//! Rows that are read of worked entries, over ranges that begin and end inside gaps.
ghost use Rattle.std.specs.Option.{ForSome};
ghost use Rattle.pb_archive.specs.Reader.{HasRows};

use super::*;
use crate::tests::{PLAN, TABLE, TIMED, file_of};
use pb_base::{RecNo, TableId};
use pb_io::{Disk, MemDisk};
use std::alloc::Global;
use std::test::Fail;

// Two records with a time in table 1, after gaps up to 3; and then gaps up to 9, in two entries.
const RUN: &[u8] =
    b"\x41\x00\x01\x01\x00\x00\x00\x03\x00\x02\x00\x00\x00\x07\x00\x00\x00\x09\xAA\xBB\xCC\xDD";

const GAP: &[u8] = b"\x41\x00\x01\x00\x00\x00\x00\x07\x00\x00";

const FURTHER_GAP: &[u8] = b"\x41\x00\x01\x00\x00\x00\x00\x09\x00\x00";
// The last number that a record may have, in table 0.
const LAST: &[u8] =
    b"\x41\x00\x00\x00\xFF\xFF\xFF\xFE\x00\x01\x00\x00\x00\x08\x00\x00\x00\x00\xCC\xDD";

// What is said of a row: its first number, the one after its last, and of a kept record its second and its first byte.
type Said = (u32, u32, Option<(i32, u8)>);

fn said(row: Row) -> Said {
    match row {
        Row::Gap { from, to } => (from.0, to.0, None),
        Row::Kept(view) => {
            let first = view.bytes.first().copied().unwrap_or(0);
            (
                view.number.0,
                view.number.0.saturating_add(1),
                Some((view.time.sec, first)),
            )
        }
    }
}

// All rows that are still to come.
fn rest_of<D: Disk>(alloc: Global, rows: &mut Rows, disk: &mut D) -> Result<Vec<Said>, ArchiveFault>
    requires { ForSome (D.view disk.old).file (HasRows rows.old) }
{
    let mut found = Vec::new(alloc);
    loop {
        match rows.next(disk) {
            Ok(true) => {}
            Ok(false) => return Ok(found),
            Err(fault) => return Err(fault),
        }
        if found.push(said(rows.row())).is_err() {
            return Err(ArchiveFault::Memory);
        }
    }
}

// The rows of a range of a table; no archive where there is no such range.
fn rows_of(
    alloc: Global,
    file: &[u8],
    id: u16,
    from: u32,
    to: u32,
) -> Result<Vec<Said>, ArchiveFault> {
    let Ok(mut disk) = MemDisk::new(alloc, file, &[]) else {
        return Err(ArchiveFault::Memory);
    };
    let archive = Archive::open(alloc, &mut disk)?;
    let Some(table) = archive.table(TableId(id)) else {
        return Err(ArchiveFault::NotCreated);
    };
    if from > to || to > table.front.0 {
        return Err(ArchiveFault::NotCreated);
    }
    let mut rows = archive.read(alloc, TableId(id), RecNo(from), RecNo(to))?;
    rest_of(alloc, &mut rows, &mut disk)
}

// Whether a range of a table has these rows.
fn has(alloc: Global, file: &[u8], range: (u16, u32, u32), wanted: &[Said]) -> bool {
    let (id, from, to) = range;
    rows_of(alloc, file, id, from, to).is_ok_and(|rows| rows.as_slice() == wanted)
}

#[test]
fn gaps_are_whole_within_a_range(rt: HostRuntime) -> Result<(), Fail> {
    let alloc = rt.alloc();
    let (file, _) = file_of(alloc, &[PLAN, TABLE, TIMED, RUN, GAP, LAST, FURTHER_GAP])?;
    let kept = [(3, 4, Some((7, 0xAA))), (4, 5, Some((17, 0xCC)))];
    assert!(rt;
        has(
            alloc,
            &file,
            (1, 0, 9),
            &[(0, 3, None), kept[0], kept[1], (5, 9, None)]
        )
    );
    assert!(rt;
        has(
            alloc,
            &file,
            (1, 1, 8),
            &[(1, 3, None), kept[0], kept[1], (5, 8, None)]
        )
    );
    assert!(rt; has(alloc, &file, (1, 4, 5), &[kept[1]]));
    assert!(rt; has(alloc, &file, (1, 6, 6), &[]));
    assert!(rt; has(alloc, &file, (1, 7, 9), &[(7, 9, None)]));
    let last = (4_294_967_294, 4_294_967_295, Some((8, 0xCC)));
    assert!(rt;
        has(
            alloc,
            &file,
            (0, 0, 4_294_967_295),
            &[(0, 4_294_967_294, None), last]
        )
    );
    assert!(rt;
        has(
            alloc,
            &file,
            (0, 4_294_967_290, 4_294_967_294),
            &[(4_294_967_290, 4_294_967_294, None)]
        )
    );
    Ok(())
}
