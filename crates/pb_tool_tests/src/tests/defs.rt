//! `defs` over a site in memory, with files of table definitions that were worked by hand.
use crate::tests::ran_over;
use pb_frame::{FRAME_MAX, frame_into};
use pb_io::{MemDisk, MemSite};
use pb_tool::Status;
use std::alloc::Global;
use std::test::Fail;

// Archives of 4094 by way of 1, without tables: of station 10, named a; and of station 11, named b, besides.
const NO_TABLE: &[u8] =
    b"\xA5\x50\x42\x4B\x41\x52\x43\x31\x5A\x00\x00\x00\x0C\x50\x0F\xFE\x00\x01\x01\x00\x0A\x00\x00\x61\x00\x00";

const TWO_STATIONS: &[u8] =
    b"\xA5\x50\x42\x4B\x41\x52\x43\x31\x5A\x00\x00\x00\x12\x50\x0F\xFE\x00\x01\x02\x00\x0A\x00\x00\x61\x00\x00\x0B\x00\x00\x62\x00\x00";

// A file without tables. A table's bytes after its name: ten records of a value of type FP2; eleven of them; and ten of a
// text of any length.
const VERSION: &[u8] = b"\x01";

const TEN: &[u8] =
    b"\x00\x00\x00\x00\x0A\x0E\x00\x00\x00\x00\x00\x00\x00\x00\x00\x00\x00\x00\x00\x00\x00\x00\x07\x56\x00\x00\x00\x00\x00\x00\x00\x00\x01\x00\x00\x00\x01\x00\x00\x00\x00\x00";

const ELEVEN: &[u8] =
    b"\x00\x00\x00\x00\x0B\x0E\x00\x00\x00\x00\x00\x00\x00\x00\x00\x00\x00\x00\x00\x00\x00\x00\x07\x56\x00\x00\x00\x00\x00\x00\x00\x00\x01\x00\x00\x00\x01\x00\x00\x00\x00\x00";

const ANY_TEXT: &[u8] =
    b"\x00\x00\x00\x00\x0A\x0E\x00\x00\x00\x00\x00\x00\x00\x00\x00\x00\x00\x00\x00\x00\x00\x00\x10\x56\x00\x00\x00\x00\x00\x00\x00\x00\x01\x00\x00\x00\x01\x00\x00\x00\x00\x00";

// The requests of station 10 for its file from 0 on, and from 44 on.
const ASK: &[u8] =
    b"\xBD\xA0\x01\x5F\xFE\x10\x0A\x0F\xFE\x1D\x01\x00\x00\x2E\x54\x44\x46\x00\x00\x00\x00\x00\x00\x03\x84\xBC\xDD\x27\xBD";

const ASK_44: &[u8] =
    b"\xBD\xA0\x01\x5F\xFE\x10\x0A\x0F\xFE\x1D\x02\x00\x00\x2E\x54\x44\x46\x00\x00\x00\x00\x00\x2C\x03\x84\xC1\xA8\xBD";

const QUIET: &[u8] = b"";

// The words after the first two, the status, and what is printed.
type Row<'a> = (&'a str, Status, &'a [u8]);

// Runs a command, and compares how it ends.
fn ends(alloc: Global, site: &mut MemSite, row: Row) -> Result<bool, Fail> {
    let (status, written) = ran_over(alloc, &["-", "-", row.0], site, (&[], 1, &[]), &[])?;
    Ok(status == row.1 && written.as_slice() == row.2)
}

// A site with this file, which fails at the calls of the disk and of the link with these numbers.
fn site_of(alloc: Global, file: &[u8], fails: (&[u64], &[u64])) -> Result<MemSite, Fail> {
    Ok(MemSite::new(alloc, MemDisk::new(alloc, file, fails.0)?, fails.1)?)
}

// The frame of a station's reply to the upload command of this transaction: a response code, and the file's bytes from a
// place on.
fn reply(
    alloc: Global,
    node: u8,
    tran: u8,
    resp: u8,
    at: usize,
    bytes: &[u8],
) -> Result<Vec<u8>, Fail> {
    let mut content = Vec::from_slice(alloc, b"\xAF\xFE\x90\x01\x1F\xFE\x00")?;
    content.extend_from_slice(&[node, 0x9D, tran, resp])?;
    content.extend_from_slice(&u32::try_from(at).ok().ok_or("a place")?.to_be_bytes())?;
    content.extend_from_slice(bytes)?;
    let content = content.as_slice();
    if content.len() < 8 || content.len() > 1008 {
        return Ok(Vec::new(alloc));
    }
    let mut out = [0; FRAME_MAX];
    let len = frame_into(content, &mut out).ok().ok_or("room")?;
    Ok(Vec::from_slice(alloc, out.get(..len).ok_or("a frame")?)?)
}

// The site hears a station's replies to the requests for this file, the first of which has this transaction.
fn serves(alloc: Global, site: &mut MemSite, node: u8, first: u8, file: &[u8]) -> Result<(), Fail> {
    let mut tran = first;
    let mut at = 0;
    for piece in file.chunks(900) {
        site.hears(&reply(alloc, node, tran, 0, at, piece)?)?;
        tran = tran.wrapping_add(1);
        at = at.saturating_add(piece.len());
    }
    site.hears(&reply(alloc, node, tran, 0, at, &[])?)?;
    Ok(())
}

// A file with these tables, each a name and what comes after it.
fn file_of(alloc: Global, tables: &[(&[u8], &[u8])]) -> Result<Vec<u8>, Fail> {
    let mut file = Vec::from_slice(alloc, VERSION)?;
    for (name, rest) in tables {
        file.extend_from_slice(name)?;
        file.extend_from_slice(rest)?;
    }
    Ok(file)
}

// Whether `defs` over an archive of station 10 ends so, where the station serves this file.
fn defines(
    alloc: Global,
    archive: &[u8],
    file: &[u8],
    status: Status,
    text: &[u8],
) -> Result<bool, Fail> {
    let mut site = site_of(alloc, archive, (&[], &[]))?;
    serves(alloc, &mut site, 10, 1, file)?;
    ends(alloc, &mut site, ("defs", status, text))
}

#[test]
fn adds_the_tables_of_a_file_once(rt: HostRuntime) -> Result<(), Fail> {
    let alloc = rt.alloc();
    let file = file_of(alloc, &[(b"T", TEN)])?;
    let mut site = site_of(alloc, NO_TABLE, (&[], &[]))?;
    for row in [
        ("defs", Status::Done, b"a T 1 8A5F added\n".as_slice()),
        ("defs", Status::Done, b"a T 1 8A5F same\n"),
        ("check", Status::Done, b"a T front 0 kept 0 gap 0\n"),
    ] {
        serves(alloc, &mut site, 10, 1, &file)?;
        assert!(rt; ends(alloc, &mut site, row)?);
    }
    assert_eq!(rt; site.sent(0), Some(ASK));
    assert_eq!(rt; site.sent(1), Some(ASK_44));
    assert_eq!(rt; site.sent(4), None);
    Ok(())
}

#[test]
fn joins_the_pieces_of_a_file(rt: HostRuntime) -> Result<(), Fail> {
    let alloc = rt.alloc();
    // Names that make files of 900, 901 and 1,800 bytes.
    let table: [(usize, &[u8]); 3] = [
        (857, b" 1 8167 added\n"),
        (858, b" 1 8038 added\n"),
        (1757, b" 1 25BC added\n"),
    ];
    for (len, rest) in table {
        let name = vec![in alloc; b'N'; len]?;
        let file = file_of(alloc, &[(&name, TEN)])?;
        let mut text = Vec::from_slice(alloc, b"a ")?;
        text.extend_from_slice(&name)?;
        text.extend_from_slice(rest)?;
        assert!(rt; defines(alloc, NO_TABLE, &file, Status::Done, &text)?);
    }
    Ok(())
}

#[test]
fn says_where_a_file_is_bad(rt: HostRuntime) -> Result<(), Fail> {
    let alloc = rt.alloc();
    assert!(rt; defines(alloc, NO_TABLE, VERSION, Status::Done, b"")?);
    let table: [(&[u8], &[u8]); 4] = [
        (b"", b"a - bad definitions at 0\n"),
        (b"\x02", b"a - bad definitions at 0\n"),
        (b"\x01T", b"a - bad definitions at 1\n"),
        (b"\x01T\x00\x00\x00\x0A", b"a - bad definitions at 3\n"),
    ];
    for (file, text) in table {
        assert!(rt; defines(alloc, NO_TABLE, file, Status::Incomplete, text)?);
    }
    Ok(())
}

// A file of so many tables of 60,000 bytes, and of one more that passes the most bytes of a file within its field's
// description.
fn long_file(alloc: Global) -> Result<Vec<u8>, Fail> {
    let mut file = Vec::from_slice(alloc, VERSION)?;
    let name = vec![in alloc; b'N'; 59_958]?;
    for _ in 0..4 {
        file.extend_from_slice(&name)?;
        file.extend_from_slice(TEN)?;
    }
    file.extend_from_slice(name.get(..22_100).ok_or("a name")?)?;
    file.extend_from_slice(TEN.get(..28).ok_or("a field")?)?;
    file.extend_from_slice(name.get(..100).ok_or("a description")?)?;
    file.push(0)?;
    file.extend_from_slice(name.get(..900).ok_or("more")?)?;
    Ok(file)
}

#[test]
fn gives_up_a_file_that_is_too_long(rt: HostRuntime) -> Result<(), Fail> {
    let alloc = rt.alloc();
    let file = long_file(alloc)?;
    assert!(rt; file.len() > 263_000);
    let mut site = site_of(alloc, NO_TABLE, (&[], &[]))?;
    serves(alloc, &mut site, 10, 1, &file)?;
    let row: Row = (
        "defs",
        Status::Incomplete,
        b"a - bad definitions at 262144\n",
    );
    assert!(rt; ends(alloc, &mut site, row)?);
    // The request after the one with which the bytes were too many isn't made.
    assert!(rt; site.sent(291).is_some());
    assert_eq!(rt; site.sent(292), None);
    Ok(())
}

#[test]
fn stops_a_redefined_table_once(rt: HostRuntime) -> Result<(), Fail> {
    let alloc = rt.alloc();
    let ten = file_of(alloc, &[(b"T", TEN), (b"U", TEN)])?;
    let eleven = file_of(alloc, &[(b"T", ELEVEN), (b"U", TEN)])?;
    let mut site = site_of(alloc, NO_TABLE, (&[], &[]))?;
    serves(alloc, &mut site, 10, 1, &ten)?;
    let added: Row = (
        "defs",
        Status::Done,
        b"a T 1 8A5F added\na U 2 1972 added\n",
    );
    assert!(rt; ends(alloc, &mut site, added)?);
    for _ in 0..2 {
        serves(alloc, &mut site, 10, 1, &eleven)?;
        let redefined: Row = (
            "defs",
            Status::Incomplete,
            b"a T 1 41FD redefined 8A5F\na U 2 1972 same\n",
        );
        assert!(rt; ends(alloc, &mut site, redefined)?);
        let check: Row = (
            "check",
            Status::Done,
            b"a T front 0 kept 0 gap 0 stopped\na U front 0 kept 0 gap 0\n",
        );
        assert!(rt; ends(alloc, &mut site, check)?);
    }
    // The stop stays where the station has the first signature again.
    serves(alloc, &mut site, 10, 1, &ten)?;
    let same: Row = ("defs", Status::Done, b"a T 1 8A5F same\na U 2 1972 same\n");
    assert!(rt; ends(alloc, &mut site, same)?);
    Ok(())
}

#[test]
fn names_a_table_with_a_text_of_any_length(rt: HostRuntime) -> Result<(), Fail> {
    let alloc = rt.alloc();
    let file = file_of(alloc, &[(b"T", ANY_TEXT), (b"U", TEN)])?;
    let text = b"a T 1 F09E not collected text\na U 2 1972 added\n";
    assert!(rt; defines(alloc, NO_TABLE, &file, Status::Done, text)?);
    Ok(())
}

// An archive of station 10 with so many tables, numbered from this number on.
fn archive_with(alloc: Global, first: u16, count: u16) -> Result<Vec<u8>, Fail> {
    let mut file = Vec::from_slice(alloc, NO_TABLE.get(..25).ok_or("a plan")?)?;
    for n in 0..count {
        file.extend_from_slice(b"\x5A\x00\x00\x00\x2F\x54\x00")?;
        file.extend_from_slice(&first.saturating_add(n).to_be_bytes())?;
        file.push(b'T')?;
        file.extend_from_slice(TEN)?;
    }
    file.push(0)?;
    Ok(file)
}

#[test]
fn adds_no_more_than_1024_tables(rt: HostRuntime) -> Result<(), Fail> {
    let alloc = rt.alloc();
    let file = file_of(alloc, &[(b"T", TEN), (b"U", TEN)])?;
    let archive = archive_with(alloc, 3, 1023)?;
    let text = b"a T 1 8A5F added\na U 2 1972 not collected full\n";
    assert!(rt; defines(alloc, &archive, &file, Status::Incomplete, text)?);
    let archive = archive_with(alloc, 2, 1024)?;
    let text = b"a T 1 8A5F not collected full\na U 2 1972 redefined 8A5F\n";
    assert!(rt; defines(alloc, &archive, &file, Status::Incomplete, text)?);
    Ok(())
}

#[test]
fn passes_over_replies_from_another_place(rt: HostRuntime) -> Result<(), Fail> {
    let alloc = rt.alloc();
    let file = file_of(alloc, &[(b"T", TEN)])?;
    let mut site = site_of(alloc, NO_TABLE, (&[], &[]))?;
    // From another place, of another transaction, and from another station.
    site.hears(&reply(alloc, 10, 1, 0, 900, ELEVEN)?)?;
    site.hears(&reply(alloc, 10, 2, 0, 0, ELEVEN)?)?;
    site.hears(&reply(alloc, 11, 1, 0, 0, ELEVEN)?)?;
    site.hears(&reply(alloc, 10, 1, 0, 0, &file)?)?;
    site.hears(&reply(alloc, 10, 2, 0, 0, ELEVEN)?)?;
    site.hears(&reply(alloc, 10, 2, 0, file.len(), &[])?)?;
    let row: Row = ("defs", Status::Done, b"a T 1 8A5F added\n");
    assert!(rt; ends(alloc, &mut site, row)?);
    Ok(())
}

#[test]
fn goes_on_after_a_silent_station(rt: HostRuntime) -> Result<(), Fail> {
    let alloc = rt.alloc();
    let file = file_of(alloc, &[(b"T", TEN)])?;
    let mut site = site_of(alloc, TWO_STATIONS, (&[], &[]))?;
    for _ in 0..15 {
        site.hears(QUIET)?;
    }
    serves(alloc, &mut site, 11, 2, &file)?;
    let row: Row = (
        "defs",
        Status::Incomplete,
        b"a - no answer\nb T 1 8A5F added\n",
    );
    assert!(rt; ends(alloc, &mut site, row)?);
    // The first station refuses, and the second one's file isn't delivered.
    let mut site = site_of(alloc, TWO_STATIONS, (&[], &[]))?;
    site.hears(&reply(alloc, 10, 1, 13, 0, &[])?)?;
    site.hears(
        b"\xBD\xAF\xFE\x90\x0B\x0F\xFE\x00\x0B\x81\x05\x02\x10\x0B\x0F\xFE\x1D\x02\x00\x93\xFE\xBD",
    )?;
    let row: Row = (
        "defs",
        Status::Incomplete,
        b"a - refused 13\nb - undelivered 2\n",
    );
    assert!(rt; ends(alloc, &mut site, row)?);
    Ok(())
}

// Definitions of two tables are read while the disk call of this number fails, then again, and what is there then; the
// status of the first time.
fn outlives(alloc: Global, call: u64) -> Result<(Status, bool), Fail> {
    let file = file_of(alloc, &[(b"T", TEN), (b"U", TEN)])?;
    let mut site = site_of(alloc, NO_TABLE, (&[call], &[]))?;
    serves(alloc, &mut site, 10, 1, &file)?;
    let (first, _) = ran_over(alloc, &["-", "-", "defs"], &mut site, (&[], 1, &[]), &[])?;
    if site.sent(0).is_some() {
        serves(alloc, &mut site, 10, 1, &file)?;
    }
    let (second, _) = ran_over(alloc, &["-", "-", "defs"], &mut site, (&[], 1, &[]), &[])?;
    let text = b"a T front 0 kept 0 gap 0\na U front 0 kept 0 gap 0\n";
    let kept = ends(alloc, &mut site, ("check", Status::Done, text))?;
    Ok((first, second == Status::Done && kept))
}

#[test]
fn outlives_each_failed_disk_call(rt: HostRuntime) -> Result<(), Fail> {
    // The first call that isn't one of the first time.
    let mut end = 64;
    for call in 0..64 {
        if call < end {
            let (first, kept) = outlives(rt.alloc(), call)?;
            if first == Status::Done {
                end = call;
            } else {
                assert!(rt; first == Status::DiskFault && kept, "{call}");
            }
        }
    }
    assert!(rt; 10 < end && end < 64, "{end}");
    Ok(())
}

#[test]
fn stops_at_a_failed_link_call(rt: HostRuntime) -> Result<(), Fail> {
    let alloc = rt.alloc();
    let file = file_of(alloc, &[(b"T", TEN)])?;
    let mut site = site_of(alloc, TWO_STATIONS, (&[], &[5]))?;
    serves(alloc, &mut site, 10, 1, &file)?;
    for row in [
        (
            "defs",
            Status::LinkFault,
            b"a T 1 8A5F added\npakbus: link fault\n".as_slice(),
        ),
        ("check", Status::Done, b"a T front 0 kept 0 gap 0\n"),
    ] {
        assert!(rt; ends(alloc, &mut site, row)?);
    }
    let mut site = site_of(alloc, b"", (&[], &[]))?;
    assert!(rt;
        ends(
            alloc,
            &mut site,
            ("defs", Status::NotCreated, b"pakbus: no archive\n")
        )?
    );
    Ok(())
}
