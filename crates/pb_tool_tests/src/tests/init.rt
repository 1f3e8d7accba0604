//! Tests of `init` and `check`, over archives in memory.
use crate::tests::ran_over;
use pb_io::{MemDisk, MemSite};
use pb_tool::Status;
use std::alloc::Global;
use std::test::Fail;

const PLAN: &[u8] = b"self 4094 via 1\nstation 10 0 north\n";

// A command, its input, its status, and what it prints.
type Row<'a> = (&'a str, &'a [u8], Status, &'a [u8]);

// The first of these commands, over one file in memory of whose disk calls some fail, that doesn't end and print as its
// row says.
fn first_wrong(
    alloc: Global,
    file: &[u8],
    fails: &[u64],
    rows: &[Row],
) -> Result<Option<usize>, Fail> {
    let mut site = MemSite::new(alloc, MemDisk::new(alloc, file, fails)?, &[])?;
    for (place, (name, input, status, text)) in rows.iter().enumerate() {
        let words = ["-", "-", *name];
        let (ended, written) = ran_over(alloc, &words, &mut site, (input, 7, &[]), &[])?;
        if ended != *status || written.as_slice() != *text {
            return Ok(Some(place));
        }
    }
    Ok(None)
}

#[test]
fn makes_an_archive_and_checks_it(rt: HostRuntime) -> Result<(), Fail> {
    let rows: &[Row] = &[
        ("check", b"", Status::NotCreated, b"pakbus: no archive\n"),
        ("init", PLAN, Status::Done, b""),
        ("init", PLAN, Status::Exists, b"pakbus: archive exists\n"),
        ("check", b"", Status::Done, b""),
    ];
    assert_eq!(rt; first_wrong(rt.alloc(), &[], &[], rows)?, None);
    Ok(())
}

#[test]
fn refuses_plans_and_files(rt: HostRuntime) -> Result<(), Fail> {
    let no_journal: &[Row] = &[
        ("check", b"", Status::Format, b"pakbus: format at byte 0\n"),
        ("init", PLAN, Status::Format, b"pakbus: format at byte 0\n"),
    ];
    assert_eq!(rt;
        first_wrong(rt.alloc(), b"AAAAAAAAAA", &[], no_journal)?,
        None
    );
    let no_plan: &[Row] = &[
        (
            "init",
            b"self 4094 via 1\n",
            Status::Format,
            b"pakbus: format at line 2\n",
        ),
        ("init", PLAN, Status::DiskFault, b"pakbus: disk fault\n"),
    ];
    assert_eq!(rt; first_wrong(rt.alloc(), &[], &[2], no_plan)?, None);
    Ok(())
}

#[test]
fn refuses_a_plan_that_is_too_long(rt: HostRuntime) -> Result<(), Fail> {
    let most = vec![in rt.alloc(); b' '; 16_384]?;
    let one_more = vec![in rt.alloc(); b' '; 16_385]?;
    let rows: &[Row] = &[
        ("init", &most, Status::Format, b"pakbus: format at line 1\n"),
        (
            "init",
            &one_more,
            Status::Format,
            b"pakbus: format at byte 16384\n",
        ),
    ];
    assert_eq!(rt; first_wrong(rt.alloc(), &[], &[], rows)?, None);
    Ok(())
}
