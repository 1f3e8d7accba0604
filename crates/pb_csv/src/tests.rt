//! Exports of one table, whose text was worked by hand.
use super::*;
use pb_archive::Archive;
use pb_base::{Memory, RecNo, TableId};
use pb_io::{MemDisk, MemSink};
use std::alloc::Global;
use std::test::Fail;

// An archive of one station with a table of two values FP2 named V, and six bytes of ASCII named `a,b`. Its records 0 and 1
// are gaps, record 2 is kept, and 3 and 4 are gaps.
const FILE: &[u8] = b"\xA5PBKARC1\
    \x5A\x00\x00\x00\x0C\x50\x0F\xFE\x00\x0A\x01\x00\x0A\x00\x00a\x00\
    \x5A\x00\x00\x00\x48\x54\x00\x00\x01T\x00\x00\x00\x00\x0A\x0E\
    \x00\x00\x00\x00\x00\x00\x00\x00\x00\x00\x00\x00\x00\x00\x00\x00\
    \x07V\x00\x00\x00\x00\x00\x00\x00\x00\x01\x00\x00\x00\x02\x00\x00\x00\x00\
    \x0Ba,b\x00\x00\x00\x00\x00\x00\x00\x00\x01\x00\x00\x00\x06\x00\x00\x00\x06\x00\x00\x00\x00\x00\
    \x5A\x00\x00\x00\x1C\x41\x00\x00\x00\x00\x00\x00\x02\x00\x01\
    \x00\x00\x00\x07\x00\x00\x00\x09\x40\x01\x9F\xFEx,\"\x0A\\\x00\
    \x5A\x00\x00\x00\x0A\x41\x00\x00\x00\x00\x00\x00\x05\x00\x00\
    \x00";

const NAMES: &[u8] = b"record,time,V(1),V(2),\"a,b\"\n";

const ALL: &[u8] = b"record,time,V(1),V(2),\"a,b\"\n\
    0-1,gap,,,\n\
    2,1990-01-01 00:00:07.000000009,0.01,NAN,\"x,\"\"\\x0A\\\\\"\n\
    3-4,gap,,,\n";

// How an export of a range ends, and what it writes, where these calls of the disk and of the sink fail; none where the
// archive isn't opened, or has no such range.
fn outcome(
    alloc: Global,
    range: (u32, u32),
    reads: &[u64],
    writes: &[u64],
) -> Result<Option<(Result<(), ExportFault>, MemSink)>, Memory> {
    let mut disk = MemDisk::new(alloc, FILE, reads)?;
    let mut out = MemSink::new(alloc, writes)?;
    let (from, to) = range;
    let Ok(archive) = Archive::open(alloc, &mut disk) else {
        return Ok(None);
    };
    let Some(table) = archive.table(TableId(0)) else {
        return Ok(None);
    };
    if from > to || to > table.front.0 {
        return Ok(None);
    }
    let result = export(
        alloc,
        &archive,
        &mut disk,
        TableId(0),
        RecNo(from),
        RecNo(to),
        &mut out,
    );
    Ok(Some((result, out)))
}

// Whether an export of a range writes this text.
fn prints(alloc: Global, range: (u32, u32), text: &[u8]) -> Result<bool, Memory> {
    match outcome(alloc, range, &[], &[])? {
        Some((ended, out)) => Ok(ended == Ok(()) && out.bytes() == text),
        None => Ok(false),
    }
}

#[test]
fn ranges_are_printed(rt: HostRuntime) -> Result<(), Fail> {
    let alloc = rt.alloc();
    assert!(rt; prints(alloc, (0, 5), ALL)?);
    assert!(rt; prints(alloc, (2, 2), NAMES)?);
    let inside = b"record,time,V(1),V(2),\"a,b\"\n\
        1-1,gap,,,\n\
        2,1990-01-01 00:00:07.000000009,0.01,NAN,\"x,\"\"\\x0A\\\\\"\n\
        3-3,gap,,,\n";
    assert!(rt; prints(alloc, (1, 4), inside)?);
    assert!(rt; outcome(alloc, (0, 6), &[], &[])?.is_none());
    Ok(())
}

// Of exports in each of which another disk call fails: how many print the names alone and a fault, and how many all.
fn ends(alloc: Global) -> Result<(u32, u32), Memory> {
    let mut cut_off = 0u32;
    let mut whole = 0u32;
    for call in 0..12 {
        match outcome(alloc, (0, 5), &[call], &[])? {
            None => {}
            Some((Err(fault), out)) => {
                if fault == ExportFault::DiskFault && out.bytes() == NAMES {
                    cut_off = cut_off.saturating_add(1);
                }
            }
            Some((Ok(()), out)) => {
                if out.bytes() == ALL {
                    whole = whole.saturating_add(1);
                }
            }
        }
    }
    Ok((cut_off, whole))
}

// Whether an export whose first write fails writes nothing and says so.
fn is_cut_off(alloc: Global) -> Result<bool, Memory> {
    match outcome(alloc, (0, 5), &[], &[0])? {
        Some((ended, out)) => Ok(ended == Err(ExportFault::WriteFault) && out.bytes().is_empty()),
        None => Ok(false),
    }
}

#[test]
fn each_failed_call_is_reported(rt: HostRuntime) -> Result<(), Fail> {
    let alloc = rt.alloc();
    let (cut_off, whole) = ends(alloc)?;
    assert_eq!(rt; cut_off, 1);
    assert!(rt; whole > 0);
    assert!(rt; is_cut_off(alloc)?);
    Ok(())
}
