//! `export` over archives in memory, whose texts were worked by hand.
use crate::tests::ran_over;
use pb_io::{MemDisk, MemSite};
use pb_tool::Status;
use std::alloc::Global;
use std::test::Fail;

// Entries: plans of station 10, named a and n.
const PLAN_A: &[u8] = b"\x50\x0F\xFE\x00\x0A\x01\x00\x0A\x00\x00a\x00";

const PLAN_N: &[u8] = b"\x50\x0F\xFE\x00\x01\x01\x00\x0A\x00\x00n\x00";

// Its table 1: T of events, with one value V, of which records 0, 1 and 10 are kept and 2 to 9 are a gap.
const EVENTS: &[u8] =
    b"\x54\x00\x00\x01T\x00\x00\x00\x00\x0A\x0E\x00\x00\x00\x00\x00\x00\x00\x00\x00\x00\x00\x00\x00\x00\x00\x00\
    \x07V\x00\x00\x00\x00\x00\x00\x00\x00\x01\x00\x00\x00\x01\x00\x00\x00\x00\x00";

const FIRST_TWO: &[u8] =
    b"\x41\x00\x00\x00\x00\x00\x00\x00\x00\x02\x00\x00\x00\x00\x00\x00\x00\x00\x40\x00\x00\x00\x00\x01\x00\x00\x00\x00\x40\x0A";

const TENTH: &[u8] =
    b"\x41\x00\x00\x00\x00\x00\x00\x0A\x00\x01\x00\x00\x00\x0A\x00\x00\x00\x00\x40\x64";

// Its table 1: Hour, each hour, with three values V, of which records 0 and 1 are kept.
const HOURS: &[u8] =
    b"\x54\x00\x00\x01Hour\x00\x00\x00\x03\xE8\x0E\x00\x00\x00\x00\x00\x00\x00\x00\x00\x00\x0E\x10\x00\x00\x00\x00\
    \x07V\x00\x00\x00\x00\x00\x00\x00\x00\x01\x00\x00\x00\x03\x00\x00\x00\x00\x00";

const TWO_HOURS: &[u8] =
    b"\x41\x00\x00\x01\x00\x00\x00\x00\x00\x02\x00\x00\x00\x00\x00\x00\x00\x00\x40\x00\x40\x01\x40\x02\x40\x0A\x40\x0B\x40\x0C";

// Its table 1: T of events, with six bytes of text named `a,b`, of which records 0 and 1 are a gap, 2 is kept, and 3 and 4 are
// a gap.
const TEXTS: &[u8] =
    b"\x54\x00\x00\x01T\x00\x00\x00\x00\x0A\x0E\x00\x00\x00\x00\x00\x00\x00\x00\x00\x00\x00\x00\x00\x00\x00\x00\
    \x0Ba,b\x00\x00\x00\x00\x00\x00\x00\x00\x01\x00\x00\x00\x06\x00\x00\x00\x06\x00\x00\x00\x00\x00";

const QUOTED: &[u8] =
    b"\x41\x00\x00\x00\x00\x00\x00\x02\x00\x01\x00\x00\x00\x07\x00\x00\x00\x09x,\"\x0A\\\x00";

const TO_FIVE: &[u8] = b"\x41\x00\x00\x00\x00\x00\x00\x05\x00\x00";

// Its table 1: T of events, with a field of each type of which records are collected.
const TYPES: [(u8, u8); 26] = [
    (1, 1),
    (2, 1),
    (3, 1),
    (4, 1),
    (5, 1),
    (6, 1),
    (7, 1),
    (8, 1),
    (9, 1),
    (10, 1),
    (11, 5),
    (12, 1),
    (13, 1),
    (14, 1),
    (15, 1),
    (17, 1),
    (18, 1),
    (19, 1),
    (20, 1),
    (21, 1),
    (22, 1),
    (23, 1),
    (24, 1),
    (25, 1),
    (27, 1),
    (28, 1),
];

const EACH_TYPE: &[u8] = b"\x41\x00\x00\x00\x00\x00\x00\x00\x00\x01\x3B\x9A\xCA\x00\x1D\xCD\x65\x00\
    \xFF\x01\x00\xFF\xFF\xFF\xFF\x80\xFF\xFE\x80\x00\x00\x00\x49\x29\x00\x01\x0A\xFF\x3F\x80\x00\x00\x02\
    A \\\x00B\x3B\x9A\xCA\x00\x01\x02\x03\x04\x05\x06\xFF\xFF\xFF\xFF\x1D\xCD\x65\x00\xA1\xB2\xC3\x0F\
    \x00\x01\x02\x03\x04\x05\x06\x07\xAB\xCD\xDE\xAD\xBE\xEF\x00\x00\x01\x23\x45\x67\
    \x89\xAB\xCD\xEF\x01\x23\x45\x67\xFF\x00\xFF\x00\x10\x20\x30\x40\x50\x60\x70\x80\x7F\x80\x00\x00\x00\x01";

// The file of these entries.
fn file_of(alloc: Global, bodies: &[&[u8]]) -> Result<Vec<u8>, Fail> {
    let mut file = Vec::from_slice(alloc, b"\xA5PBKARC1")?;
    for body in bodies {
        let len = u32::try_from(body.len()).ok().ok_or("a short body")?;
        file.push(0x5A)?;
        file.extend_from_slice(&len.to_be_bytes())?;
        file.extend_from_slice(body)?;
    }
    file.push(0)?;
    Ok(file)
}

fn site_over(alloc: Global, file: &[u8], fails: &[u64]) -> Result<MemSite, Fail> {
    Ok(MemSite::new(alloc, MemDisk::new(alloc, file, fails)?, &[])?)
}

// The words after the first two, the status, and what is printed.
type Row<'a> = (&'a [&'a str], Status, &'a [u8]);

// Runs a command over a site, where the writes with these numbers fail.
fn ran(
    alloc: Global,
    site: &mut MemSite,
    given: &[&str],
    fails: &[u64],
) -> Result<(Status, Vec<u8>), Fail> {
    let mut words = Vec::new(alloc);
    words.push("-")?;
    words.push("-")?;
    for word in given {
        words.push(*word)?;
    }
    ran_over(alloc, &words, site, (&[], 1, &[]), fails)
}

// The first of these commands over an archive of these entries that doesn't end as its row says.
fn first_wrong(alloc: Global, bodies: &[&[u8]], rows: &[Row]) -> Result<Option<usize>, Fail> {
    let file = file_of(alloc, bodies)?;
    let mut site = site_over(alloc, &file, &[])?;
    first_wrong_over(alloc, &mut site, rows)
}

// The same over any site.
fn first_wrong_over(
    alloc: Global,
    site: &mut MemSite,
    rows: &[Row],
) -> Result<Option<usize>, Fail> {
    for (place, (given, status, text)) in rows.iter().enumerate() {
        let (ended, written) = ran(alloc, site, given, &[])?;
        if ended != *status || written.as_slice() != *text {
            return Ok(Some(place));
        }
    }
    Ok(None)
}

#[test]
fn prints_what_scripts_collect(rt: HostRuntime) -> Result<(), Fail> {
    let alloc = rt.alloc();
    let hours: &[Row] = &[(
        &["export", "n", "Hour", "0", "2"],
        Status::Done,
        b"record,time,V(1),V(2),V(3)\n\
            0,1990-01-01 00:00:00,0.00,0.01,0.02\n\
            1,1990-01-01 01:00:00,0.10,0.11,0.12\n",
    )];
    assert_eq!(rt;
        first_wrong(alloc, &[PLAN_N, HOURS, TWO_HOURS], hours)?,
        None
    );
    let events: &[Row] = &[
        (
            &["export", "a", "T", "1", "4"],
            Status::Done,
            b"record,time,V\n1,1990-01-01 00:00:01,0.10\n2-3,gap,\n",
        ),
        (
            &["export", "a", "T"],
            Status::Done,
            b"record,time,V\n\
                0,1990-01-01 00:00:00,0.00\n\
                1,1990-01-01 00:00:01,0.10\n\
                2-9,gap,\n\
                10,1990-01-01 00:00:10,1.00\n",
        ),
    ];
    assert_eq!(rt;
        first_wrong(alloc, &[PLAN_A, EVENTS, FIRST_TWO, TENTH], events)?,
        None
    );
    Ok(())
}

// A reply with the records 0 and 1 of the table of events.
const TWO: &[u8] =
    b"\xBD\xAF\xFE\x10\x0A\x1F\xFE\x00\x0A\x89\x01\x00\x00\x01\x00\x00\x00\x00\x00\x02\
    \x00\x00\x00\x07\x00\x00\x00\x09\xAA\xBB\x00\x00\x00\x07\x00\x00\x00\x09\xAA\xBB\x00\xB0\x3F\xBD";

#[test]
fn prints_what_a_round_kept(rt: HostRuntime) -> Result<(), Fail> {
    let alloc = rt.alloc();
    let file = file_of(alloc, &[PLAN_A, EVENTS])?;
    let mut site = site_over(alloc, &file, &[])?;
    site.hears(TWO)?;
    let rows: &[Row] = &[
        (&["collect"], Status::Done, b"a T 0 2 gap 0 asked 1 done\n"),
        (
            &["export", "a", "T"],
            Status::Done,
            b"record,time,V\n\
                0,1990-01-01 00:00:07.000000009,-274.7\n\
                1,1990-01-01 00:00:07.000000009,-274.7\n",
        ),
    ];
    assert_eq!(rt; first_wrong_over(alloc, &mut site, rows)?, None);
    Ok(())
}

#[test]
fn cuts_ranges(rt: HostRuntime) -> Result<(), Fail> {
    let rows: &[Row] = &[
        (
            &["export", "a", "T", "0", "4294967295"],
            Status::Done,
            b"record,time,\"a,b\"\n\
                0-1,gap,\n\
                2,1990-01-01 00:00:07.000000009,\"x,\"\"\\x0A\\\\\"\n\
                3-4,gap,\n",
        ),
        (
            &["export", "a", "T", "1", "4"],
            Status::Done,
            b"record,time,\"a,b\"\n\
                1-1,gap,\n\
                2,1990-01-01 00:00:07.000000009,\"x,\"\"\\x0A\\\\\"\n\
                3-3,gap,\n",
        ),
        (
            &["export", "a", "T", "2", "2"],
            Status::Done,
            b"record,time,\"a,b\"\n",
        ),
        (
            &["export", "a", "T", "5", "9"],
            Status::Done,
            b"record,time,\"a,b\"\n",
        ),
        (
            &["export", "a", "T", "4294967295", "4294967295"],
            Status::Done,
            b"record,time,\"a,b\"\n",
        ),
        (&["check"], Status::Done, b"a T front 5 kept 1 gap 4\n"),
    ];
    assert_eq!(rt;
        first_wrong(rt.alloc(), &[PLAN_A, TEXTS, QUOTED, TO_FIVE], rows)?,
        None
    );
    Ok(())
}

// The entry of the table of `TYPES`.
fn types(alloc: Global) -> Result<Vec<u8>, Fail> {
    let mut entry = Vec::from_slice(alloc, b"\x54\x00\x00\x01T\x00\x00\x00\x00\x0A\x0E")?;
    entry.extend_from_slice(&[0; 16])?;
    for (kind, dimension) in TYPES {
        entry.extend_from_slice(&[kind, b'V', 0, 0, 0, 0, 0, 0, 0, 0, 1, 0, 0, 0, dimension])?;
        entry.extend_from_slice(&[0; 4])?;
    }
    entry.push(0)?;
    Ok(entry)
}

#[test]
fn prints_each_type(rt: HostRuntime) -> Result<(), Fail> {
    let alloc = rt.alloc();
    let types = types(alloc)?;
    let rows: &[Row] = &[(
        &["export", "a", "T", "0", "1"],
        Status::Done,
        b"record,time,V,V,V,V,V,V,V,V,V,V,V,V,V,V,V,V,V,V,V,V,V,V,V,V,V,V\n\
            0,2021-09-09 01:46:40.500000000,255,256,4294967295,-128,-2,-2147483648,23.45,00010AFF,3F800000,true,A \\\\,\
            2021-09-09 01:46:40,010203040506,1989-12-31 23:59:59.500000000,A1B2C3,0F,0001020304050607,ABCD,DEADBEEF,\
            0000,01234567,89ABCDEF01234567,FF00FF00,1020304050607080,7F80,00000001\n",
    )];
    assert_eq!(rt;
        first_wrong(alloc, &[PLAN_A, &types, EACH_TYPE], rows)?,
        None
    );
    Ok(())
}

#[test]
fn refuses_names_and_archives(rt: HostRuntime) -> Result<(), Fail> {
    let alloc = rt.alloc();
    let unknown = b"pakbus: unknown name\n";
    let rows: &[Row] = &[
        (&["export", "b", "T"], Status::Unknown, unknown),
        (&["export", "a", "U"], Status::Unknown, unknown),
        (&["export", "a", ""], Status::Unknown, unknown),
        (&["export", "", "T", "0", "1"], Status::Unknown, unknown),
        (&["export", "a", "T"], Status::Done, b"record,time,V\n"),
    ];
    assert_eq!(rt; first_wrong(alloc, &[PLAN_A, EVENTS], rows)?, None);
    let empty: &[Row] = &[(
        &["export", "a", "T"],
        Status::NotCreated,
        b"pakbus: no archive\n",
    )];
    assert_eq!(rt; first_wrong(alloc, &[], empty)?, None);
    let broken: &[Row] = &[(
        &["export", "a", "T"],
        Status::Format,
        b"pakbus: format at byte 25\n",
    )];
    assert_eq!(rt; first_wrong(alloc, &[PLAN_A, TO_FIVE], broken)?, None);
    Ok(())
}

#[test]
fn refuses_numbers(rt: HostRuntime) -> Result<(), Fail> {
    let words: [&[&str]; 8] = [
        &["export", "a"],
        &["export", "a", "T", "0"],
        &["export", "a", "T", "0", "1", "2"],
        &["export", "a", "T", "5", "2"],
        &["export", "a", "T", "0", "4294967296"],
        &["export", "a", "T", "00", "1"],
        &["export", "a", "T", "0", "+1"],
        &["export", "a", "T", "", "1"],
    ];
    let mut rows: Vec<Row> = Vec::new(rt.alloc());
    for given in words {
        rows.push((given, Status::Usage, b"pakbus: usage\n"))?;
    }
    assert_eq!(rt; first_wrong(rt.alloc(), &[PLAN_A, EVENTS], &rows)?, None);
    Ok(())
}

// An entry that keeps this many records of one value, from this number on.
fn records(alloc: Global, first: u32, count: u16) -> Result<Vec<u8>, Fail> {
    let mut entry = Vec::from_slice(alloc, b"\x41\x00\x00\x00")?;
    entry.extend_from_slice(&first.to_be_bytes())?;
    entry.extend_from_slice(&count.to_be_bytes())?;
    for _ in 0..count {
        entry.extend_from_slice(&[0, 0, 0, 1, 0, 0, 0, 0, 0x40, 1])?;
    }
    Ok(entry)
}

// A file of 8,000 records, which is longer than what is read at once.
fn long_file(alloc: Global) -> Result<Vec<u8>, Fail> {
    let mut entries = Vec::new(alloc);
    for k in 0..8u32 {
        entries.push(records(alloc, 1000 * k, 1000)?)?;
    }
    let mut bodies: Vec<&[u8]> = Vec::new(alloc);
    bodies.push(PLAN_A)?;
    bodies.push(EVENTS)?;
    for entry in &entries {
        bodies.push(entry)?;
    }
    file_of(alloc, &bodies)
}

// The text of its records.
fn long_text(alloc: Global) -> Result<Vec<u8>, Fail> {
    let mut text = Vec::from_slice(alloc, b"record,time,V\n")?;
    for number in 0..8000u32 {
        let line = format!(in alloc; "{number},1990-01-01 00:00:01,0.01\n")?;
        text.extend_from_slice(line.as_bytes())?;
    }
    Ok(text)
}

const EXPORT: &[&str] = &["export", "a", "T"];

// Whether an export over this site ends so and prints this text.
fn prints(
    alloc: Global,
    site: &mut MemSite,
    fails: &[u64],
    status: Status,
    text: &[u8],
) -> Result<bool, Fail> {
    let (ended, written) = ran(alloc, site, EXPORT, fails)?;
    Ok(ended == status && written.as_slice() == text)
}

// Whether an export whose disk call of this number fails prints so many bytes of the text and the closing line, and the next
// one all of it.
fn breaks_off(
    alloc: Global,
    file: &[u8],
    text: &[u8],
    call: u64,
    printed: usize,
) -> Result<bool, Fail> {
    let mut site = site_over(alloc, file, &[call])?;
    let mut wanted = Vec::from_slice(alloc, text.get(..printed).ok_or("a prefix")?)?;
    wanted.extend_from_slice(b"pakbus: disk fault\n")?;
    let first = prints(alloc, &mut site, &[], Status::DiskFault, &wanted)?;
    let second = prints(alloc, &mut site, &[], Status::Done, text)?;
    Ok(first && second)
}

#[test]
fn closes_after_whole_lines(rt: HostRuntime) -> Result<(), Fail> {
    let alloc = rt.alloc();
    let file = long_file(alloc)?;
    let text = long_text(alloc)?;
    // The opening makes six calls. The first 65,536 bytes of the file hold 6,000 records.
    for (call, printed) in [
        (0, 0),
        (1, 0),
        (2, 0),
        (3, 0),
        (4, 0),
        (5, 0),
        (6, 14),
        (7, 178_904),
    ] {
        assert!(rt; breaks_off(alloc, &file, &text, call, printed)?);
    }
    let mut site = site_over(alloc, &file, &[8])?;
    assert!(rt; prints(alloc, &mut site, &[], Status::Done, &text)?);
    Ok(())
}

// How much an export whose write of this number fails printed; none where that isn't the front of the text.
fn before_failed_write(
    alloc: Global,
    file: &[u8],
    text: &[u8],
    write: u64,
) -> Result<Option<usize>, Fail> {
    let mut site = site_over(alloc, file, &[])?;
    let (status, written) = ran(alloc, &mut site, EXPORT, &[write])?;
    if status == Status::WriteFault && text.starts_with(&written) {
        return Ok(Some(written.len()));
    }
    Ok(None)
}

#[test]
fn ends_at_a_failed_write(rt: HostRuntime) -> Result<(), Fail> {
    let alloc = rt.alloc();
    let file = long_file(alloc)?;
    let text = long_text(alloc)?;
    // Lines are written by pages of 65,536 bytes, 4 of them.
    let mut least = 0;
    for write in 0..4 {
        let printed = before_failed_write(alloc, &file, &text, write)?.ok_or("a prefix")?;
        assert!(rt; least <= printed);
        least = printed.saturating_add(1);
    }
    let mut site = site_over(alloc, &file, &[])?;
    assert!(rt; prints(alloc, &mut site, &[4], Status::Done, &text)?);
    // A disk fault whose closing line can't be written.
    let mut site = site_over(alloc, &file, &[7])?;
    assert!(rt;
        prints(
            alloc,
            &mut site,
            &[3],
            Status::WriteFault,
            text.get(..178_904).ok_or("a prefix")?
        )?
    );
    Ok(())
}
