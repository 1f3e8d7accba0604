//! Plans and entries with each rule broken, and what is counted of worked entries.
use super::*;
use pb_base::TableId;
use pb_io::MemDisk;
use std::alloc::{AllocError, Global};
use std::test::Fail;

// The line of a text that is no plan.
fn refused_line(alloc: Global, text: &[u8]) -> Option<u32> {
    match Plan::read(alloc, text) {
        Err(PlanFault::Line(line)) => Some(line),
        _ => None,
    }
}

#[test]
fn a_plan_is_read(rt: HostRuntime) -> Result<(), Fail> {
    let text = b"self 4094 via 1\nstation 10 0 a\nstation 4093 65535 North_Peak-2\n";
    let plan = Plan::read(rt.alloc(), text).ok().ok_or("a plan")?;
    assert_eq!(rt;
        (plan.me().get(), plan.via().get(), plan.count()),
        (4094, 1, 2)
    );
    let second = plan.station(1).ok_or("a station")?;
    assert_eq!(rt; (second.addr.get(), second.code), (4093, 65535));
    assert_eq!(rt; second.name.bytes(), b"North_Peak-2".as_slice());
    assert!(rt; plan.station(2).is_none());
    Ok(())
}

// Each text breaks one rule; its line by hand.
#[test]
fn other_texts_are_refused_at_their_lines(rt: HostRuntime) -> Result<(), Fail> {
    let alloc = rt.alloc();
    for (text, line) in [
        (b"".as_slice(), 1),
        (b"self 0 via 1\nstation 10 0 a\n", 1),
        (b"self 4095 via 1\nstation 10 0 a\n", 1),
        (b"self 4094 via 4095\nstation 10 0 a\n", 1),
        (b"self 4094 via 0\nstation 10 0 a\n", 1),
        (b"\nself 4094 via 1\nstation 10 0 a\n", 1),
        (b"self 04094 via 1\nstation 10 0 a\n", 1),
        (b"self +94 via 1\nstation 10 0 a\n", 1),
        (b"self 4094  via 1\nstation 10 0 a\n", 1),
        (b"self 4094 via 1", 1),
        (b"self 4094 via 1 \nstation 10 0 a\n", 1),
        (b"self 4094 via 1\n", 2),
        (b"self 4094 via 1\n\n", 2),
        (b"self 4094 via 1\nstation 4094 0 a\n", 2),
        (b"self 4094 via 1\nstation 0 0 a\n", 2),
        (b"self 4094 via 1\nstation 4095 0 a\n", 2),
        (b"self 4094 via 1\nstation 010 0 a\n", 2),
        (b"self 4094 via 1\nstation 10 00 a\n", 2),
        (b"self 4094 via 1\nstation 10 0 \xC3\xA9\n", 2),
        (b"self 4094 via 1\nstation 10 65536 a\n", 2),
        (b"self 4094 via 1\nstation 10 0 \n", 2),
        (b"self 4094 via 1\nstation 10 0 a b\n", 2),
        (b"self 4094 via 1\nstation 10 0 a.b\n", 2),
        (
            b"self 4094 via 1\nstation 10 0 123456789012345678901234567890123\n",
            2,
        ),
        (b"self 4094 via 1\nstation 10 0 a", 2),
        (b"self 4094 via 1\nstation 10 0 a\nstation 10 0 b\n", 3),
        (b"self 4094 via 1\nstation 10 0 a\nstation 11 0 a\n", 3),
        (b"self 4094 via 1\nstation 10 0 a\nself 4094 via 1\n", 3),
    ] {
        assert_eq!(rt; refused_line(alloc, text), Some(line));
    }
    // 16,384 bytes and one more, each of one long line after the first
    for len in [16_368, 16_369] {
        let mut text = Vec::new(alloc);
        text.extend_from_slice(b"self 4094 via 1\n")?;
        text.extend_from_slice(&vec![in alloc; b'a'; len]?)?;
        assert_eq!(rt; refused_line(alloc, &text), Some(2));
    }
    Ok(())
}

// A plan has 64 stations at most; the 65th is the 66th line.
#[test]
fn a_plan_has_at_most_64_stations(rt: HostRuntime) -> Result<(), Fail> {
    let alloc = rt.alloc();
    let mut text = String::from_str(alloc, "self 4094 via 1\n")?;
    for number in 1..65 {
        text.push_str(&format!(in alloc; "station {number} 0 s{number}\n")?)?;
    }
    let plan = Plan::read(alloc, text.as_bytes()).ok().ok_or("a plan")?;
    assert_eq!(rt; plan.count(), 64);
    text.push_str("station 65 0 s65\n")?;
    assert_eq!(rt; refused_line(alloc, text.as_bytes()), Some(66));
    Ok(())
}

// A plan of one station: own address 4094, through node 10, and station 10 with code 0 and name a.
pub(crate) const PLAN: &[u8] = b"\x50\x0F\xFE\x00\x0A\x01\x00\x0A\x00\x00a\x00";
// Table 1 of station 0: an event table T of 10 records, with one value V of two bytes.
pub(crate) const TABLE: &[u8] =
    b"\x54\x00\x00\x01T\x00\x00\x00\x00\x0A\x0E\x00\x00\x00\x00\x00\x00\x00\x00\x00\x00\x00\x00\x00\x00\x00\x00\x07V\x00\x00\x00\x00\x00\x00\x00\x00\x01\x00\x00\x00\x01\x00\x00\x00\x00\x00";
// Table 2 of station 0: the same with an interval of 10 seconds.
pub(crate) const TIMED: &[u8] =
    b"\x54\x00\x00\x02T\x00\x00\x00\x00\x0A\x0E\x00\x00\x00\x00\x00\x00\x00\x00\x00\x00\x00\x0A\x00\x00\x00\x00\x07V\x00\x00\x00\x00\x00\x00\x00\x00\x01\x00\x00\x00\x01\x00\x00\x00\x00\x00";
// Gaps up to 2, and a content in record 2 of table 0.
const KEPT: &[u8] =
    b"\x41\x00\x00\x00\x00\x00\x00\x02\x00\x01\x00\x00\x00\x07\x00\x00\x00\x09\xAA\xBB";

const STOP: &[u8] = b"\x53\x00\x00\x01\x8A\x5F";

// Adds an entry with its gate open.
pub(crate) fn push_entry(file: &mut Vec<u8>, body: &[u8]) -> Result<(), AllocError> {
    file.extend_from_slice(&[
        0x5A,
        0,
        0,
        (body.len() / 256 % 256) as u8,
        (body.len() % 256) as u8,
    ])?;
    file.extend_from_slice(body)
}

// A journal with these bodies, and the place of the last one's gate.
pub(crate) fn file_of(alloc: Global, bodies: &[&[u8]]) -> Result<(Vec<u8>, u64), AllocError> {
    let mut file = Vec::new(alloc);
    file.extend_from_slice(b"\xA5PBKARC1")?;
    let mut gate = 8;
    for body in bodies {
        gate = file.len() as u64;
        push_entry(&mut file, body)?;
    }
    file.push(0)?;
    Ok((file, gate))
}

// The refusal of the archive with these bodies, and the place of the last one's gate.
fn refusal_of(alloc: Global, bodies: &[&[u8]]) -> Result<(Option<ArchiveFault>, u64), Fail> {
    let (file, gate) = file_of(alloc, bodies)?;
    let mut disk = MemDisk::new(alloc, &file, &[])?;
    let fault = Archive::open(alloc, &mut disk).err();
    Ok((fault, gate))
}

#[test]
fn a_first_entry_is_refused_at_its_gate(rt: HostRuntime) -> Result<(), Fail> {
    let alloc = rt.alloc();
    for body in [
        TABLE,
        KEPT,
        STOP,
        b"!".as_slice(),
        b"\x50",
        b"\x50\x00\x00\x00\x0A\x01\x00\x0A\x00\x00a\x00",
        b"\x50\x0F\xFF\x00\x0A\x01\x00\x0A\x00\x00a\x00",
        b"\x50\x0F\xFE\x00\x00\x01\x00\x0A\x00\x00a\x00",
        b"\x50\x0F\xFE\x00\x0A\x00",
        b"\x50\x0F\xFE\x00\x0A\x01\x0F\xFE\x00\x00a\x00",
        b"\x50\x0F\xFE\x00\x0A\x01\x00\x0A\x00\x00\x00",
        b"\x50\x0F\xFE\x00\x0A\x01\x00\x0A\x00\x00a b\x00",
        b"\x50\x0F\xFE\x00\x0A\x01\x00\x0A\x00\x00a",
        b"\x50\x0F\xFE\x00\x0A\x01\x00\x0A\x00\x00a\x00\x00",
        b"\x50\x0F\xFE\x00\x0A\x02\x00\x0A\x00\x00a\x00",
        b"\x50\x0F\xFE\x00\x0A\x02\x00\x0A\x00\x00a\x00\x00\x0A\x00\x00b\x00",
        b"\x50\x0F\xFE\x00\x0A\x02\x00\x0A\x00\x00a\x00\x00\x0B\x00\x00a\x00",
    ] {
        let refused = refusal_of(alloc, &[body])?;
        assert_eq!(rt; refused, (Some(ArchiveFault::Format { at: 8 }), 8));
    }
    assert_eq!(rt; refusal_of(alloc, &[])?.0, Some(ArchiveFault::NotCreated));
    assert_eq!(rt; refusal_of(alloc, &[PLAN])?.0, None);
    Ok(())
}

// After the plan, an event table, an interval table and a record of the event table, one entry that breaks a rule.
#[test]
fn a_further_entry_is_refused_at_its_gate(rt: HostRuntime) -> Result<(), Fail> {
    let alloc = rt.alloc();
    for body in [
        PLAN,
        TABLE,
        b"\x42".as_slice(),
        b"\x54\x01\x00\x03T\x00\x00\x00\x00\x0A\x0E\x00\x00\x00\x00\x00\x00\x00\x00\x00\x00\x00\x00\x00\x00\x00\x00\x07V\x00\x00\x00\x00\x00\x00\x00\x00\x01\x00\x00\x00\x01\x00\x00\x00\x00\x00",
        b"\x54\x00\x00\x03T\x00\x00\x00\x00\x0A\x0E\x00\x00\x00\x00\x00\x00\x00\x00\x00\x00\x00\x00\x00\x00\x00\x00\x10V\x00\x00\x00\x00\x00\x00\x00\x00\x01\x00\x00\x00\x01\x00\x00\x00\x00\x00",
        b"\x54\x00\x00\x03T\x00\x00\x00\x00\x0A\x0E",
        b"\x54\x00\x00",
        b"\x41\x00\x02\x00\x00\x00\x00\x09\x00\x00",
        b"\x41\x00\x00\x02\x00\x00\x00\x09\x00\x00",
        b"\x41\x00\x00\x00\x00\x00\x00\x03\x00\x00",
        b"\x41\x00\x00\x00\x00\x00\x00\x02\x00\x02",
        b"\x41\x00\x00\x00\x00\x00\x00\x03\x00\x01\x00\x00\x00\x07\x00\x00\x00\x09\xAA",
        b"\x41\x00\x00\x00\x00\x00\x00\x03\x00\x01\x00\x00\x00\x07\x00\x00\x00\x09\xAA\xBB\xCC",
        b"\x41\x00\x00\x00\x00\x00\x00\x03\x00\x02\x00\x00\x00\x07\x00\x00\x00\x09\xAA\xBB",
        b"\x41\x00\x00\x00\xFF\xFF\xFF\xFF\x00\x01\x00\x00\x00\x07\x00\x00\x00\x09\xAA\xBB",
        b"\x41\x00\x00\x01\x00\x00\x00\x03\x00\x01\x00\x00\x00\x07\x00\x00\x00\x09\xAA\xBB",
        b"\x41\x00\x01\x01\x00\x00\x00\x03\x00\x00",
        b"\x41\x00\x01\x01\x00\x00\x00\x03\x00\x02\x00\x00\x00\x07\x3B\x9A\xCA\x00\xAA\xBB\xCC\xDD",
        b"\x41\x00\x01\x01\x00\x00\x00\x03\x00\x02\x7F\xFF\xFF\xFF\x00\x00\x00\x00\xAA\xBB\xCC\xDD",
        b"\x41\x00\x00\x00\x00\x00\x00\x03\x00",
        b"\x53\x00\x02\x00\x00\x00",
        b"\x53\x00\x00\x02\x00\x00",
        b"\x53\x00\x00\x00\x00\x01",
        b"\x53\x00\x00\x01\x8A",
        b"\x53\x00\x00\x01\x8A\x5F\x00",
    ] {
        let (fault, gate) = refusal_of(alloc, &[PLAN, TABLE, TIMED, KEPT, body])?;
        assert_eq!(rt; fault, Some(ArchiveFault::Format { at: gate }));
    }
    for body in [STOP, KEPT] {
        let (fault, gate) = refusal_of(alloc, &[PLAN, TABLE, STOP, body])?;
        assert_eq!(rt; fault, Some(ArchiveFault::Format { at: gate }));
    }
    Ok(())
}

// What is said of a table: its front, how many of its numbers are gaps, and what its stop told.
pub(crate) fn said(archive: &Archive, id: u16) -> Option<(u32, u32, Option<Stop>)> {
    let table = archive.table(TableId(id))?;
    Some((table.front.0, table.gaps, table.stop))
}

// Two records with a time in table 1, gaps up to the last number but one of table 0 and a record in that, and a stop.
#[test]
fn fronts_and_gaps_are_counted(rt: HostRuntime) -> Result<(), Fail> {
    let alloc = rt.alloc();
    let timed =
        b"\x41\x00\x01\x01\x00\x00\x00\x03\x00\x02\x00\x00\x00\x07\x00\x00\x00\x09\xAA\xBB\xCC\xDD";
    let last = b"\x41\x00\x00\x00\xFF\xFF\xFF\xFE\x00\x01\x00\x00\x00\x07\x00\x00\x00\x09\xAA\xBB";
    let (file, _) = file_of(
        alloc,
        &[
            PLAN,
            TABLE,
            TIMED,
            KEPT,
            timed.as_slice(),
            last.as_slice(),
            STOP,
        ],
    )?;
    let mut disk = MemDisk::new(alloc, &file, &[])?;
    let archive = Archive::open(alloc, &mut disk).ok().ok_or("an archive")?;
    assert_eq!(rt; archive.tables(), 2);
    let stop = Stop { told: Some(0x8A5F) };
    assert_eq!(rt;
        said(&archive, 0),
        Some((4_294_967_295, 4_294_967_293, Some(stop)))
    );
    assert_eq!(rt; said(&archive, 1), Some((5, 3, None)));
    assert_eq!(rt; said(&archive, 2), None);
    assert_eq!(rt; archive.find(b"a", b"T"), Some(TableId(0)));
    assert_eq!(rt; archive.find(b"a", b"U"), None);
    assert_eq!(rt; archive.find(b"b", b"T"), None);
    Ok(())
}
