//! Worked bytes, files that are cut or torn, and calls that fail.
ghost use Rattle.std.specs.Prelude.{◌<◌, ◌+◌, ◌≤◌, length};

use super::*;
use pb_io::{Disk, MemDisk};
use std::alloc::{AllocError, Global};
use std::test::Fail;

// A created journal without entries.
const CREATED: [u8; 9] = [0xA5, 0x50, 0x42, 0x4B, 0x41, 0x52, 0x43, 0x31, 0x00];
// One with the entry that makes a gap up to 7 in table 0.
const ONE: [u8; 24] = [
    0xA5, 0x50, 0x42, 0x4B, 0x41, 0x52, 0x43, 0x31, 0x5A, 0x00, 0x00, 0x00, 0x0A, 0x41, 0x00, 0x00,
    0x00, 0x00, 0x00, 0x00, 0x07, 0x00, 0x00, 0x00,
];
// The body of that entry in two parts.
const HEAD: [u8; 4] = [0x41, 0x00, 0x00, 0x00];

const REST: [u8; 6] = [0x00, 0x00, 0x00, 0x07, 0x00, 0x00];

// Adds an entry to the journal on a disk.
fn add<D: Disk>(alloc: Global, disk: &mut D, head: &[u8], rest: &[u8]) -> Result<(), JournalFault>
    requires some { 0 < length head.now }
    requires few { length head.now + length rest.now ≤ 65535 }
{
    let mut journal = Journal::open(alloc, disk)?;
    journal.append(disk, head, rest)?;
    Ok(())
}

// Adds an entry twice to one journal, and answers both.
fn append_twice<D: Disk>(
    alloc: Global,
    disk: &mut D,
) -> (Result<(), JournalFault>, Result<(), JournalFault>) {
    match Journal::open(alloc, disk) {
        Ok(mut journal) => {
            let first = journal.append(disk, &HEAD, &REST);
            let second = journal.append(disk, &HEAD, &REST);
            (first, second)
        }
        Err(fault) => (Err(fault), Err(fault)),
    }
}

// The bodies of the journal on a disk, one after the other.
fn listed<D: Disk>(alloc: Global, disk: &mut D) -> Result<Vec<u8>, JournalFault> {
    let journal = Journal::open(alloc, disk)?;
    let mut entries = Entries::start(alloc)?;
    let mut all = Vec::new(alloc);
    while entries.next(&journal, disk)? {
        all.extend_from_slice(entries.body())
            .map_err(|_| JournalFault::Memory)?;
    }
    Ok(all)
}

// Reads the first entry, and the second one from its place on.
fn second<D: Disk>(alloc: Global, disk: &mut D) -> Result<Option<(u64, usize, u64)>, JournalFault> {
    let journal = Journal::open(alloc, disk)?;
    let mut first = Entries::start(alloc)?;
    if !first.next(&journal, disk)? {
        return Ok(None);
    }
    let mut after = Entries::at(alloc, &journal, first.place())?;
    if !after.next(&journal, disk)? {
        return Ok(None);
    }
    Ok(Some((first.place(), after.body().len(), after.place())))
}

// What is listed of a file with these bytes.
fn listed_of(alloc: Global, bytes: &[u8]) -> Result<Vec<u8>, JournalFault> {
    let mut disk = MemDisk::new(alloc, bytes, &[])?;
    listed(alloc, &mut disk)
}

#[test]
fn entries_are_as_written(rt: HostRuntime) -> Result<(), Fail> {
    let alloc = rt.alloc();
    let mut disk = MemDisk::new(alloc, &[], &[])?;
    assert_eq!(rt; create(&mut disk), Ok(()));
    assert_eq!(rt; disk.bytes(), CREATED.as_slice());
    assert_eq!(rt; create(&mut disk), Err(JournalFault::Exists));
    assert_eq!(rt; add(alloc, &mut disk, &HEAD, &REST), Ok(()));
    assert_eq!(rt; disk.bytes(), ONE.as_slice());
    assert_eq!(rt; add(alloc, &mut disk, b"!", &[]), Ok(()));
    assert_eq!(rt; second(alloc, &mut disk), Ok(Some((23, 1, 29))));
    let all = listed(alloc, &mut disk);
    assert!(rt; all.is_ok_and(|all| all.len() == 11 && all.ends_with(&[7, 0, 0, 0x21])));
    Ok(())
}

// By hand: too short up to 8 bytes; at 9 the gate is the last byte and closed; then the entry passes the end.
#[test]
fn a_cut_file_is_refused_at_its_place(rt: HostRuntime) -> Result<(), Fail> {
    let alloc = rt.alloc();
    for len in 0..ONE.len() + 1 {
        let mut disk = MemDisk::new(alloc, &ONE[..len], &[])?;
        let fault = Journal::open(alloc, &mut disk).err();
        let wanted = match len {
            0..=8 => Some(JournalFault::NotCreated),
            9 | 24 => None,
            _ => Some(JournalFault::Format { at: 9 }),
        };
        assert_eq!(rt; fault, wanted);
        assert_eq!(rt;
            disk.bytes(),
            if len == 9 {
                CREATED.as_slice()
            } else {
                &ONE[..len]
            }
        );
    }
    Ok(())
}

#[test]
fn other_files_are_refused(rt: HostRuntime) -> Result<(), Fail> {
    let alloc = rt.alloc();
    for (bytes, wanted) in [
        (b"AAAAAAAAAA".as_slice(), JournalFault::Format { at: 0 }),
        (b"AAAAAAAAA", JournalFault::NotCreated),
        (b"\xA5PBKARC2\x00", JournalFault::Format { at: 7 }),
        (
            b"\xA5PBKARC1\x5A\x00\x00\x00\x00\x00",
            JournalFault::Format { at: 9 },
        ),
        (
            b"\xA5PBKARC1\x5A\x00\x01\x00\x01\x41\x00",
            JournalFault::Format { at: 9 },
        ),
        (
            b"\xA5PBKARC1\x5A\x00\x00\x00\x01\x41\x5A\x00\x00\x00\x01\x42",
            JournalFault::Format { at: 15 },
        ),
    ] {
        assert_eq!(rt; listed_of(alloc, bytes).err(), Some(wanted));
    }
    Ok(())
}

// Whether a file holds no journal, or one without entries.
fn holds_nothing(alloc: Global, bytes: &[u8]) -> bool {
    match listed_of(alloc, bytes) {
        Ok(all) => all.is_empty(),
        Err(fault) => fault == JournalFault::NotCreated,
    }
}

// Each call of a creation fails in turn; there are 9 over an empty file, and 11 where it has to be cut.
#[test]
fn a_creation_that_fails_leaves_no_entries(rt: HostRuntime) -> Result<(), Fail> {
    let alloc = rt.alloc();
    for (bytes, calls) in [(b"".as_slice(), 9), (b"old", 11)] {
        for call in 0..calls {
            let mut disk = MemDisk::new(alloc, bytes, &[call])?;
            assert_eq!(rt; create(&mut disk), Err(JournalFault::DiskFault));
            assert!(rt; holds_nothing(alloc, disk.bytes()));
        }
        let mut disk = MemDisk::new(alloc, bytes, &[calls])?;
        assert_eq!(rt; create(&mut disk), Ok(()));
        assert_eq!(rt; disk.bytes(), CREATED.as_slice());
    }
    Ok(())
}

// An opening of a file at rest makes 3 calls, of which one changes, and an append 7: four writes, a sync, the gate, a sync.
#[test]
fn an_append_that_fails_leaves_the_old_list_or_the_new_one(rt: HostRuntime) -> Result<(), Fail> {
    let alloc = rt.alloc();
    for call in 3..10 {
        let mut disk = MemDisk::new(alloc, &CREATED, &[call])?;
        assert_eq!(rt;
            append_twice(alloc, &mut disk),
            (Err(JournalFault::DiskFault), Err(JournalFault::MustReopen))
        );
        let listed = listed_of(alloc, disk.bytes());
        assert!(rt; listed.is_ok_and(|all| all.len() == if call == 9 { 10 } else { 0 }));
    }
    let mut disk = MemDisk::new(alloc, &CREATED, &[10])?;
    assert_eq!(rt;
        append_twice(alloc, &mut disk),
        (Ok(()), Err(JournalFault::DiskFault))
    );
    Ok(())
}

// Each call of an opening that recovers fails in turn; the list is the same.
#[test]
fn an_opening_that_fails_leaves_the_list(rt: HostRuntime) -> Result<(), Fail> {
    let alloc = rt.alloc();
    let mut bytes = [0x37; 30];
    bytes[..24].copy_from_slice(&ONE);
    for call in 0..8 {
        let mut disk = MemDisk::new(alloc, &bytes, &[call])?;
        let fault = Journal::open(alloc, &mut disk).err();
        assert_eq!(rt;
            fault,
            if call < 7 {
                Some(JournalFault::DiskFault)
            } else {
                None
            }
        );
        assert!(rt; listed_of(alloc, disk.bytes()).is_ok_and(|all| all.len() == 10));
    }
    Ok(())
}

// What a crash may leave of a creation: any bytes after a first one of 00 up to any length, and then any first byte.
#[test]
fn a_torn_creation_has_no_entries(rt: HostRuntime) -> Result<(), Fail> {
    let alloc = rt.alloc();
    for image in [[0x00; 9], [0x5A; 9], [0x37; 9], CREATED] {
        let mut bytes = image;
        bytes[0] = 0x00;
        for len in 0..CREATED.len() + 1 {
            let fault = listed_of(alloc, &bytes[..len]).err();
            assert_eq!(rt; fault, Some(JournalFault::NotCreated));
        }
        let mut bytes = CREATED;
        bytes[0] = image[0];
        assert!(rt; holds_nothing(alloc, &bytes));
    }
    Ok(())
}

// What a crash may leave of an append: any bytes after the closed gate up to any length, and then any gate.
#[test]
fn a_torn_append_opens_again(rt: HostRuntime) -> Result<(), Fail> {
    let alloc = rt.alloc();
    for image in [[0x00; 24], [0x5A; 24], [0x37; 24], ONE] {
        let mut bytes = image;
        bytes[..9].copy_from_slice(&CREATED);
        for len in CREATED.len()..ONE.len() + 1 {
            let mut disk = MemDisk::new(alloc, &bytes[..len], &[])?;
            assert!(rt; listed(alloc, &mut disk).is_ok_and(|all| all.is_empty()));
            assert_eq!(rt; disk.bytes(), CREATED.as_slice());
        }
        let gate = image[8];
        let mut bytes = ONE;
        bytes[8] = gate;
        assert!(rt; listed_of(alloc, &bytes).is_ok_and(|all| all.is_empty() == (gate != 0x5A)));
    }
    Ok(())
}

#[test]
fn the_longest_body_is_read_whole(rt: HostRuntime) -> Result<(), Fail> {
    let alloc = rt.alloc();
    let body = vec![in alloc; 0x5A; 65_534]?;
    let mut disk = MemDisk::new(alloc, &CREATED, &[])?;
    for _ in 0..3 {
        assert_eq!(rt; add(alloc, &mut disk, b"!", &body), Ok(()));
    }
    let listed = listed(alloc, &mut disk);
    assert!(rt; listed.is_ok_and(|all| all.len() == 3 * 65_535 && all[65_535] == b'!'));
    Ok(())
}

// The first entry ends just before, at and just after the 65,536 bytes that are read at once.
#[test]
fn entries_at_the_windows_edge_are_read_whole(rt: HostRuntime) -> Result<(), Fail> {
    let alloc = rt.alloc();
    for len in 65_516..65_526 {
        let body = vec![in alloc; 0x5A; len]?;
        let mut disk = MemDisk::new(alloc, &CREATED, &[])?;
        assert_eq!(rt; add(alloc, &mut disk, &body, &[]), Ok(()));
        assert_eq!(rt; add(alloc, &mut disk, b"!", &[]), Ok(()));
        let end = 13 + len as u64;
        assert_eq!(rt; second(alloc, &mut disk), Ok(Some((end, 1, end + 6))));
    }
    Ok(())
}
