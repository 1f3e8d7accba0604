//! Changes that are written, the disk calls of which fail in turn, and the limits of an archive.
ghost use Rattle.std.specs.Prelude.{false, IfOk};
ghost use Rattle.pb_archive.specs.Opened.{IsOpen};
ghost use Rattle.pb_archive.specs.Refusals.{NeedsOpening};

use super::*;
use crate::entry::Advance;
use crate::tests::{PLAN, TABLE, TIMED, file_of, push_entry, said};
use pb_base::{RecNo, TableId, TableNo};
use pb_io::{Disk, MemDisk};
use pb_tdf::Table;
use std::alloc::Global;
use std::test::Fail;

// A change, by what its call is given.
#[derive(Clone, Copy)]
enum Step<'a> {
    Add(u8, u16, &'a [u8]),
    Advance(u16, u8, u32, u16, &'a [u8]),
    Stop(u16, Option<u16>),
}

// Makes a change where its call may be made, and says `NotCreated` where it may not.
fn make<D: Disk>(
    alloc: Global,
    archive: &mut Archive,
    disk: &mut D,
    step: Step,
) -> Result<(), ArchiveFault>
    requires opened { NeedsOpening archive.old false → IsOpen archive.old (D.view disk.old) }
    ensures opened { NeedsOpening archive.new false → IsOpen archive.new (D.view disk.new) }
{
    match step {
        Step::Add(station, number, bytes) => {
            let Ok(table) = Table::read(alloc, bytes) else {
                return Err(ArchiveFault::NotCreated);
            };
            let number = TableNo(number);
            if station >= archive.plan().count()
                || table.layout().is_err()
                || !archive.register.is_new(station, number)
            {
                return Err(ArchiveFault::NotCreated);
            }
            archive.add_table(disk, station, number, table)?;
            Ok(())
        }
        Step::Advance(id, form, first, count, bytes) => {
            let first = RecNo(first);
            let advance = Advance {
                form,
                first,
                count,
                bytes,
            };
            if !archive.register.can_advance(TableId(id), &advance) {
                return Err(ArchiveFault::NotCreated);
            }
            archive.advance(disk, TableId(id), form, first, count, bytes)
        }
        Step::Stop(id, told) => {
            if id >= archive.tables() {
                return Err(ArchiveFault::NotCreated);
            }
            archive.stop(disk, TableId(id), told)
        }
    }
}

// The changes of a station's two tables: gaps and a record up to the last number of the one, a run and gaps of the other.
fn steps() -> [Step<'static>; 8] {
    [
        Step::Add(0, 1, &TABLE[4..]),
        Step::Add(0, 2, &TIMED[4..]),
        Step::Advance(0, 0, 2, 1, b"\x00\x00\x00\x07\x00\x00\x00\x09\xAA\xBB"),
        Step::Advance(
            1,
            1,
            3,
            2,
            b"\x00\x00\x00\x07\x00\x00\x00\x09\xAA\xBB\xCC\xDD",
        ),
        Step::Advance(1, 0, 7, 0, b""),
        Step::Advance(
            0,
            0,
            4_294_967_294,
            1,
            b"\x00\x00\x00\x08\x00\x00\x00\x00\xCC\xDD",
        ),
        Step::Stop(0, Some(0x8A5F)),
        Step::Stop(1, None),
    ]
}

// Their entries.
fn bodies() -> [&'static [u8]; 9] {
    [
        PLAN,
        TABLE,
        TIMED,
        b"\x41\x00\x00\x00\x00\x00\x00\x02\x00\x01\x00\x00\x00\x07\x00\x00\x00\x09\xAA\xBB",
        b"\x41\x00\x01\x01\x00\x00\x00\x03\x00\x02\x00\x00\x00\x07\x00\x00\x00\x09\xAA\xBB\xCC\xDD",
        b"\x41\x00\x01\x00\x00\x00\x00\x07\x00\x00",
        b"\x41\x00\x00\x00\xFF\xFF\xFF\xFE\x00\x01\x00\x00\x00\x08\x00\x00\x00\x00\xCC\xDD",
        b"\x53\x00\x00\x01\x8A\x5F",
        b"\x53\x00\x01\x00\x00\x00",
    ]
}

// A front, how many of the numbers below it are gaps, and the stop.
type Said = Option<(u32, u32, Option<Stop>)>;

// What is said of both tables before the first step, and after each.
fn states() -> [(Said, Said); 9] {
    let told = Some(Stop { told: Some(0x8A5F) });
    let untold = Some(Stop { told: None });
    let last = 4_294_967_295;
    [
        (None, None),
        (Some((0, 0, None)), None),
        (Some((0, 0, None)), Some((0, 0, None))),
        (Some((3, 2, None)), Some((0, 0, None))),
        (Some((3, 2, None)), Some((5, 3, None))),
        (Some((3, 2, None)), Some((7, 5, None))),
        (Some((last, last - 2, None)), Some((7, 5, None))),
        (Some((last, last - 2, told)), Some((7, 5, None))),
        (Some((last, last - 2, told)), Some((7, 5, untold))),
    ]
}

// How many steps an archive has behind it.
fn done(archive: &Archive) -> Option<usize> {
    let state = (said(archive, 0), said(archive, 1));
    states().iter().position(|known| *known == state)
}

// Makes the archive where there is none, and opens it. `init` makes it exactly where an opening finds none, else it says
// that it is there; a wrong answer is `Exists`.
fn begin<D: Disk>(alloc: Global, disk: &mut D) -> Result<Archive, ArchiveFault>
    ensures opened { IfOk result (λ a. IsOpen a (D.view disk.new)) }
{
    let there = match Archive::open(alloc, disk) {
        Ok(_) => true,
        Err(ArchiveFault::NotCreated) => false,
        Err(fault) => return Err(fault),
    };
    let Ok(plan) = Plan::read(alloc, b"self 4094 via 10\nstation 10 0 a\n") else {
        return Err(ArchiveFault::Memory);
    };
    match init(alloc, disk, &plan) {
        Ok(()) => {
            if there {
                return Err(ArchiveFault::Exists);
            }
        }
        Err(ArchiveFault::Exists) => {
            if !there {
                return Err(ArchiveFault::Exists);
            }
        }
        Err(fault) => return Err(fault),
    }
    Archive::open(alloc, disk)
}

// Where a run began and ended, by the number of steps that were made, and its fault.
type Ran = (usize, usize, Option<ArchiveFault>);

// Makes an archive, or goes on with it, and makes the steps that it lacks.
fn run<D: Disk>(alloc: Global, disk: &mut D) -> Ran {
    let mut archive = match begin(alloc, disk) {
        Ok(archive) => archive,
        Err(fault) => return (0, 0, Some(fault)),
    };
    let Some(from) = done(&archive) else {
        return (0, 0, Some(ArchiveFault::NotCreated));
    };
    for (at, step) in steps().iter().enumerate().skip(from) {
        match make(alloc, &mut archive, disk, *step) {
            Ok(()) => {}
            Err(fault) => return (from, at, Some(fault)),
        }
    }
    (from, steps().len(), None)
}

// Each disk call fails in turn. What the next run finds is what was made, or one step more, and it ends with the same file.
#[test]
fn a_change_that_fails_is_made_or_not(rt: HostRuntime) -> Result<(), Fail> {
    let alloc = rt.alloc();
    let (whole, _) = file_of(alloc, &bodies())?;
    let mut last = 0;
    for call in 0..200 {
        let mut disk = MemDisk::new(alloc, &[], &[call])?;
        let (_, made, fault) = run(alloc, &mut disk);
        assert!(rt; made >= last && made - last <= 1);
        last = made;
        if made < 8 {
            assert_eq!(rt; fault, Some(ArchiveFault::DiskFault));
            let mut again = MemDisk::new(alloc, disk.bytes(), &[])?;
            let (from, ended, fault) = run(alloc, &mut again);
            assert!(rt; from == made || from == made + 1);
            assert_eq!(rt; (ended, fault), (8, None));
            assert_eq!(rt; again.bytes(), whole.as_slice());
        } else {
            assert_eq!(rt; fault, None);
            assert_eq!(rt; disk.bytes(), whole.as_slice());
        }
    }
    assert_eq!(rt; last, 8);
    Ok(())
}

// The entry of the table with this number.
fn numbered(alloc: Global, number: u16) -> Result<Vec<u8>, Fail> {
    let mut body = Vec::from_slice(alloc, TABLE)?;
    body.truncate(2);
    body.extend_from_slice(&number.to_be_bytes())?;
    body.extend_from_slice(&TABLE[4..])?;
    Ok(body)
}

// How many tables an archive has, and what the call is answered that adds one more.
fn one_more<D: Disk>(
    alloc: Global,
    disk: &mut D,
) -> Result<(u16, Option<ArchiveFault>), ArchiveFault> {
    let mut archive = Archive::open(alloc, disk)?;
    let count = archive.tables();
    let further = make(alloc, &mut archive, disk, Step::Add(0, 1024, &TABLE[4..]));
    Ok((count, further.err()))
}

// 1,024 tables are read, and one more is added neither to them nor by its entry.
#[test]
fn an_archive_has_at_most_1024_tables(rt: HostRuntime) -> Result<(), Fail> {
    let alloc = rt.alloc();
    let (mut file, _) = file_of(alloc, &[PLAN])?;
    file.pop();
    for number in 0..1024 {
        push_entry(&mut file, &numbered(alloc, number)?)?;
    }
    let gate = file.len() as u64;
    file.push(0)?;
    let mut disk = MemDisk::new(alloc, &file, &[])?;
    assert_eq!(rt;
        one_more(alloc, &mut disk),
        Ok((1024, Some(ArchiveFault::TooMany)))
    );
    assert_eq!(rt; disk.bytes(), file.as_slice());
    file.pop();
    push_entry(&mut file, &numbered(alloc, 1024)?)?;
    file.push(0)?;
    let mut disk = MemDisk::new(alloc, &file, &[])?;
    let fault = Archive::open(alloc, &mut disk).err();
    assert_eq!(rt; fault, Some(ArchiveFault::Format { at: gate }));
    Ok(())
}
