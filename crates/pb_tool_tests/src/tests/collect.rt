//! `collect` over a site in memory, with frames that were worked by hand.
use crate::tests::ran_over;
use pb_io::{MemDisk, MemSite};
use pb_tool::Status;
use std::alloc::Global;
use std::test::Fail;

// Archives of station 10, named a, at address 4094: with table 1, T, of events of one value; with its records 0 and 1 kept
// besides; with table 2, U, besides; and with T as a table of an hour's interval alone.
const ONE_TABLE: &[u8] =
    b"\xA5\x50\x42\x4B\x41\x52\x43\x31\x5A\x00\x00\x00\x0C\x50\x0F\xFE\x00\x0A\x01\x00\x0A\x00\x00\x61\x00\
    \x5A\x00\x00\x00\x2F\x54\x00\x00\x01\x54\x00\x00\x00\x00\x0A\x0E\x00\x00\x00\x00\x00\x00\x00\x00\x00\x00\x00\x00\x00\x00\x00\x00\x07\x56\x00\x00\x00\x00\x00\x00\x00\x00\x01\x00\x00\x00\x01\x00\x00\x00\x00\x00\
    \x00";

const KEPT_2: &[u8] =
    b"\xA5\x50\x42\x4B\x41\x52\x43\x31\x5A\x00\x00\x00\x0C\x50\x0F\xFE\x00\x0A\x01\x00\x0A\x00\x00\x61\x00\
    \x5A\x00\x00\x00\x2F\x54\x00\x00\x01\x54\x00\x00\x00\x00\x0A\x0E\x00\x00\x00\x00\x00\x00\x00\x00\x00\x00\x00\x00\x00\x00\x00\x00\x07\x56\x00\x00\x00\x00\x00\x00\x00\x00\x01\x00\x00\x00\x01\x00\x00\x00\x00\x00\
    \x5A\x00\x00\x00\x1E\x41\x00\x00\x00\x00\x00\x00\x00\x00\x02\x00\x00\x00\x07\x00\x00\x00\x09\xAA\xBB\x00\x00\x00\x07\x00\x00\x00\x09\xAA\xBB\
    \x00";

const TWO_TABLES: &[u8] =
    b"\xA5\x50\x42\x4B\x41\x52\x43\x31\x5A\x00\x00\x00\x0C\x50\x0F\xFE\x00\x0A\x01\x00\x0A\x00\x00\x61\x00\
    \x5A\x00\x00\x00\x2F\x54\x00\x00\x01\x54\x00\x00\x00\x00\x0A\x0E\x00\x00\x00\x00\x00\x00\x00\x00\x00\x00\x00\x00\x00\x00\x00\x00\x07\x56\x00\x00\x00\x00\x00\x00\x00\x00\x01\x00\x00\x00\x01\x00\x00\x00\x00\x00\
    \x5A\x00\x00\x00\x2F\x54\x00\x00\x02\x55\x00\x00\x00\x00\x0A\x0E\x00\x00\x00\x00\x00\x00\x00\x00\x00\x00\x00\x00\x00\x00\x00\x00\x07\x56\x00\x00\x00\x00\x00\x00\x00\x00\x01\x00\x00\x00\x01\x00\x00\x00\x00\x00\
    \x00";

const HOURLY: &[u8] =
    b"\xA5\x50\x42\x4B\x41\x52\x43\x31\x5A\x00\x00\x00\x0C\x50\x0F\xFE\x00\x0A\x01\x00\x0A\x00\x00\x61\x00\
    \x5A\x00\x00\x00\x2F\x54\x00\x00\x01\x54\x00\x00\x00\x00\x0A\x0E\x00\x00\x00\x00\x00\x00\x00\x00\x00\x00\x0E\x10\x00\x00\x00\x00\x07\x56\x00\x00\x00\x00\x00\x00\x00\x00\x01\x00\x00\x00\x01\x00\x00\x00\x00\x00\
    \x00";

// The request for the records of T from 0 on.
const ASK: &[u8] =
    b"\xBD\xA0\x0A\x5F\xFE\x10\x0A\x0F\xFE\x09\x01\x00\x00\x04\x00\x01\x8A\x5F\x00\x00\x00\x00\x00\x00\x01\x9D\xBD";

// Replies without records; with records 8 and 9; with records 0 and 1, also where more follows; with record 2.
const EMPTY: &[u8] = b"\xBD\xAF\xFE\x10\x0A\x1F\xFE\x00\x0A\x89\x01\x00\x00\x43\x13\xBD";

const EMPTY_2: &[u8] = b"\xBD\xAF\xFE\x10\x0A\x1F\xFE\x00\x0A\x89\x02\x00\x00\x37\x0E\xBD";

const COUNT_0: &[u8] =
    b"\xBD\xAF\xFE\x10\x0A\x1F\xFE\x00\x0A\x89\x01\x00\x00\x01\x00\x00\x00\x00\x00\x00\x00\x2C\xE1\xBD";

const GAP: &[u8] =
    b"\xBD\xAF\xFE\x10\x0A\x1F\xFE\x00\x0A\x89\x01\x00\x00\x01\x00\x00\x00\x08\x00\x02\x00\x00\x00\x07\x00\x00\x00\x09\xAA\xBB\x00\x00\x00\x07\x00\x00\x00\x09\xAA\xBB\x00\x00\x2D\xBD";

const TWO: &[u8] =
    b"\xBD\xAF\xFE\x10\x0A\x1F\xFE\x00\x0A\x89\x01\x00\x00\x01\x00\x00\x00\x00\x00\x02\x00\x00\x00\x07\x00\x00\x00\x09\xAA\xBB\x00\x00\x00\x07\x00\x00\x00\x09\xAA\xBB\x00\xB0\x3F\xBD";

const TWO_MORE: &[u8] =
    b"\xBD\xAF\xFE\x10\x0A\x1F\xFE\x00\x0A\x89\x01\x00\x00\x01\x00\x00\x00\x00\x00\x02\x00\x00\x00\x07\x00\x00\x00\x09\xAA\xBB\x00\x00\x00\x07\x00\x00\x00\x09\xAA\xBB\x01\xAE\x3E\xBD";

const NEXT: &[u8] =
    b"\xBD\xAF\xFE\x10\x0A\x1F\xFE\x00\x0A\x89\x01\x00\x00\x01\x00\x00\x00\x02\x00\x01\x00\x00\x00\x07\x00\x00\x00\x09\xAA\xBB\x00\xF8\x0D\xBD";

// A please-wait of 7 seconds, a delivery failure, and replies with response codes 1 and 7.
const WAIT_7: &[u8] = b"\xBD\xAF\xFE\x10\x0A\x1F\xFE\x00\x0A\xA1\x01\x09\x00\x07\x95\x5A\xBD";

const LOST: &[u8] =
    b"\xBD\xAF\xFE\x90\x0A\x0F\xFE\x00\x0A\x81\x05\x02\x10\x0A\x0F\xFE\x09\x01\x00\x85\x90\xBD";

const REFUSED: &[u8] = b"\xBD\xAF\xFE\x10\x0A\x1F\xFE\x00\x0A\x89\x01\x01\x11\x1D\xBD";

const OTHER_SIGNATURE: &[u8] = b"\xBD\xAF\xFE\x10\x0A\x1F\xFE\x00\x0A\x89\x01\x07\x05\x17\xBD";

// Record 0 in four parts, and in two.
const PART_1: &[u8] =
    b"\xBD\xAF\xFE\x10\x0A\x1F\xFE\x00\x0A\x89\x01\x00\x00\x01\x00\x00\x00\x00\x80\x00\x00\x00\x00\x00\x00\x01\x35\x06\xBD";

const PART_2: &[u8] =
    b"\xBD\xAF\xFE\x10\x0A\x1F\xFE\x00\x0A\x89\x02\x00\x00\x01\x00\x00\x00\x00\x80\x00\x00\x03\x07\x00\x00\x01\xC4\x56\xBD";

const PART_3: &[u8] =
    b"\xBD\xAF\xFE\x10\x0A\x1F\xFE\x00\x0A\x89\x03\x00\x00\x01\x00\x00\x00\x00\x80\x00\x00\x06\x00\x09\xAA\x01\x70\x9F\xBD";

const PART_4: &[u8] =
    b"\xBD\xAF\xFE\x10\x0A\x1F\xFE\x00\x0A\x89\x04\x00\x00\x01\x00\x00\x00\x00\x80\x00\x00\x09\xBB\x00\xE5\x70\xBD";

const HALF_1: &[u8] =
    b"\xBD\xAF\xFE\x10\x0A\x1F\xFE\x00\x0A\x89\x01\x00\x00\x01\x00\x00\x00\x00\x80\x00\x00\x00\x00\x00\x00\x07\x00\x01\xCD\x52\xBD";

const HALF_2: &[u8] =
    b"\xBD\xAF\xFE\x10\x0A\x1F\xFE\x00\x0A\x89\x02\x00\x00\x01\x00\x00\x00\x00\x80\x00\x00\x05\x00\x00\x09\xAA\xBB\x00\x5B\x49\xBD";

const QUIET: &[u8] = b"";

// The words after the first two, the status, and what is printed.
type Row<'a> = (&'a [&'a str], Status, &'a [u8]);

const ROUND: &[&str] = &["collect"];

// Runs a command, and compares how it ends.
fn ends(alloc: Global, site: &mut MemSite, row: Row) -> Result<bool, Fail> {
    let mut words = Vec::new(alloc);
    words.push("-")?;
    words.push("-")?;
    for word in row.0 {
        words.push(*word)?;
    }
    let (status, written) = ran_over(alloc, &words, site, (&[], 1, &[]), &[])?;
    Ok(status == row.1 && written.as_slice() == row.2)
}

// The first command over one site that doesn't end as its row says. The site has this file, hears these chunks, an empty one
// as a quiet tick, and fails at the calls of the disk and of the link with these numbers.
fn first_wrong(
    alloc: Global,
    file: &[u8],
    fails: (&[u64], &[u64]),
    chunks: &[&[u8]],
    rows: &[Row],
) -> Result<Option<usize>, Fail> {
    let mut site = MemSite::new(alloc, MemDisk::new(alloc, file, fails.0)?, fails.1)?;
    for chunk in chunks {
        site.hears(chunk)?;
    }
    for (place, row) in rows.iter().enumerate() {
        if !ends(alloc, &mut site, *row)? {
            return Ok(Some(place));
        }
    }
    Ok(None)
}

// Whether one round over this file that hears these chunks ends so.
fn collects(
    alloc: Global,
    file: &[u8],
    chunks: &[&[u8]],
    status: Status,
    text: &[u8],
) -> Result<bool, Fail> {
    let wrong = first_wrong(alloc, file, (&[], &[]), chunks, &[(ROUND, status, text)])?;
    Ok(wrong.is_none())
}

#[test]
fn asks_a_table_that_has_nothing_new(rt: HostRuntime) -> Result<(), Fail> {
    let alloc = rt.alloc();
    for reply in [EMPTY, COUNT_0] {
        let mut site = MemSite::new(alloc, MemDisk::new(alloc, ONE_TABLE, &[])?, &[])?;
        site.hears(reply)?;
        let row: Row = (ROUND, Status::Done, b"a T 0 0 gap 0 asked 1 done\n");
        assert!(rt; ends(alloc, &mut site, row)?);
        assert_eq!(rt; site.sent(0), Some(ASK));
        assert_eq!(rt; site.sent(1), None);
    }
    Ok(())
}

#[test]
fn collects_what_is_new(rt: HostRuntime) -> Result<(), Fail> {
    let table: [(&[u8], &[&[u8]], &[u8]); 5] = [
        (ONE_TABLE, &[GAP], b"a T 0 10 gap 8 asked 1 done\n"),
        // A late reply that begins below the front is passed over.
        (KEPT_2, &[TWO, NEXT], b"a T 2 3 gap 0 asked 1 done\n"),
        (
            ONE_TABLE,
            &[
                WAIT_7, QUIET, QUIET, QUIET, QUIET, QUIET, QUIET, QUIET, QUIET, QUIET, QUIET,
                QUIET, TWO,
            ],
            b"a T 0 2 gap 0 asked 1 done\n",
        ),
        // The third part comes only when it is asked for again.
        (
            ONE_TABLE,
            &[
                PART_1, PART_2, QUIET, QUIET, QUIET, QUIET, QUIET, PART_3, PART_4,
            ],
            b"a T 0 1 gap 0 asked 4 done\n",
        ),
        (HOURLY, &[HALF_1, HALF_2], b"a T 0 1 gap 0 asked 2 done\n"),
    ];
    for (file, chunks, text) in table {
        assert!(rt; collects(rt.alloc(), file, chunks, Status::Done, text)?);
    }
    Ok(())
}

#[test]
fn says_why_a_table_ended(rt: HostRuntime) -> Result<(), Fail> {
    let table: [(&[&[u8]], &[u8]); 4] = [
        (&[], b"a T 0 0 gap 0 asked 1 no answer\n"),
        (&[LOST], b"a T 0 0 gap 0 asked 1 undelivered 2\n"),
        (&[REFUSED], b"a T 0 0 gap 0 asked 1 refused 1\n"),
        (
            &[OTHER_SIGNATURE],
            b"a T 0 0 gap 0 asked 1 redefined 8A5F -\n",
        ),
    ];
    for (chunks, text) in table {
        assert!(rt; collects(rt.alloc(), ONE_TABLE, chunks, Status::Incomplete, text)?);
    }
    Ok(())
}

#[test]
fn goes_on_from_round_to_round(rt: HostRuntime) -> Result<(), Fail> {
    let stops: &[Row] = &[
        (
            ROUND,
            Status::Incomplete,
            b"a T 0 0 gap 0 asked 1 redefined 8A5F -\n",
        ),
        (
            ROUND,
            Status::Incomplete,
            b"a T 0 0 gap 0 asked 0 redefined 8A5F -\n",
        ),
        (
            &["check"],
            Status::Done,
            b"a T front 0 kept 0 gap 0 stopped\n",
        ),
    ];
    let stopped = first_wrong(rt.alloc(), ONE_TABLE, (&[], &[]), &[OTHER_SIGNATURE], stops)?;
    assert_eq!(rt; stopped, None);
    let spends: &[Row] = &[
        (
            &["collect", "1"],
            Status::Incomplete,
            b"a T 0 2 gap 0 asked 1 budget\n",
        ),
        (ROUND, Status::Done, b"a T 2 2 gap 0 asked 1 done\n"),
    ];
    let spent = first_wrong(
        rt.alloc(),
        ONE_TABLE,
        (&[], &[]),
        &[TWO_MORE, EMPTY],
        spends,
    )?;
    assert_eq!(rt; spent, None);
    Ok(())
}

#[test]
fn collects_each_table(rt: HostRuntime) -> Result<(), Fail> {
    let quiet: [&[u8]; 15] = [QUIET; 15];
    let mut chunks = Vec::from_slice(rt.alloc(), &quiet)?;
    chunks.push(EMPTY_2)?;
    let text = b"a T 0 0 gap 0 asked 1 no answer\na U 0 0 gap 0 asked 1 done\n";
    assert!(rt; collects(rt.alloc(), TWO_TABLES, &chunks, Status::Incomplete, text)?);
    // The request of the second table fails.
    let rows: &[Row] = &[
        (
            ROUND,
            Status::LinkFault,
            b"a T 0 2 gap 0 asked 1 done\npakbus: link fault\n",
        ),
        (
            &["check"],
            Status::Done,
            b"a T front 2 kept 2 gap 0\na U front 0 kept 0 gap 0\n",
        ),
    ];
    assert_eq!(rt;
        first_wrong(rt.alloc(), TWO_TABLES, (&[], &[2]), &[TWO], rows)?,
        None
    );
    Ok(())
}

// How many rounds are made, one after another, where a disk call fails.
const ROUNDS: usize = 9;

// How many of these rounds end with a disk fault where the disk's call of this number fails; `None` where another one isn't
// done, or where not both records are kept at the end.
fn outlives(alloc: Global, call: u64) -> Result<Option<u32>, Fail> {
    let mut site = MemSite::new(alloc, MemDisk::new(alloc, ONE_TABLE, &[call])?, &[])?;
    site.hears(TWO)?;
    site.hears(TWO)?;
    for _ in 0..ROUNDS {
        site.hears(EMPTY)?;
    }
    let mut faults: u32 = 0;
    for _ in 0..ROUNDS {
        match ran_over(alloc, &["-", "-", "collect"], &mut site, (&[], 1, &[]), &[])?.0 {
            Status::Done => {}
            Status::DiskFault => faults = faults.saturating_add(1),
            _ => return Ok(None),
        }
    }
    let check: Row = (&["check"], Status::Done, b"a T front 2 kept 2 gap 0\n");
    let kept = ends(alloc, &mut site, check)?;
    Ok(if kept { Some(faults) } else { None })
}

#[test]
fn outlives_each_disk_fault(rt: HostRuntime) -> Result<(), Fail> {
    for call in 1..=40 {
        assert_eq!(rt; (call, outlives(rt.alloc(), call)?), (call, Some(1)));
    }
    Ok(())
}

#[test]
fn refuses_an_empty_disk(rt: HostRuntime) -> Result<(), Fail> {
    assert!(rt;
        collects(
            rt.alloc(),
            b"",
            &[],
            Status::NotCreated,
            b"pakbus: no archive\n"
        )?
    );
    Ok(())
}

#[test]
fn refuses_budgets_out_of_range(rt: HostRuntime) -> Result<(), Fail> {
    for budget in ["0", "1000001", "01", "x"] {
        let row: Row = (&["collect", budget], Status::Usage, b"pakbus: usage\n");
        assert_eq!(rt;
            first_wrong(rt.alloc(), ONE_TABLE, (&[], &[]), &[], &[row])?,
            None
        );
    }
    Ok(())
}
