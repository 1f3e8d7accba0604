//! How commands are run in tests, and the words that name none.
ghost use Rattle.std.specs.Prelude.{◌≤◌};

mod collect;
mod defs;
mod export;
mod init;
mod ping;
mod serve;
mod show;

use pb_io::{MemDisk, MemSink, MemSite, MemSource};
use pb_tool::{Status, run};
use std::alloc::{AllocError, Global};
use std::test::Fail;

// The words of a command line.
pub fn words_of(alloc: Global, words: &[&str]) -> Result<Vec<String>, AllocError> {
    let mut all = Vec::new(alloc);
    for word in words {
        all.push(String::from_str(alloc, word)?)?;
    }
    Ok(all)
}

// Runs words over the forms in memory. A helper of its own, so that no test carries the clauses of `run`.
pub fn status_of(
    alloc: Global,
    words: &[String],
    site: &mut MemSite,
    source: &mut MemSource,
    sink: &mut MemSink,
) -> Status {
    run(alloc, words, site, source, sink)
}

// Runs words over a site and an input in memory; the reads and writes whose numbers are given fail.
pub fn ran_over(
    alloc: Global,
    words: &[&str],
    site: &mut MemSite,
    input: (&[u8], usize, &[u64]),
    write_fails: &[u64],
) -> Result<(Status, Vec<u8>), Fail>
    requires { 1 ≤ input.1 }
{
    let words = words_of(alloc, words)?;
    let mut source = MemSource::new(alloc, input.0, input.1, input.2)?;
    let mut sink = MemSink::new(alloc, write_fails)?;
    let status = status_of(alloc, &words, site, &mut source, &mut sink);
    Ok((status, Vec::from_slice(alloc, sink.bytes())?))
}

// Runs words over an input in memory; the reads and writes whose numbers are given fail.
pub fn ran(
    alloc: Global,
    words: &[&str],
    input: (&[u8], usize, &[u64]),
    write_fails: &[u64],
) -> Result<(Status, Vec<u8>), Fail>
    requires { 1 ≤ input.1 }
{
    let mut site = MemSite::new(alloc, MemDisk::new(alloc, &[], &[])?, &[])?;
    ran_over(alloc, words, &mut site, input, write_fails)
}

// The frame of a packet of four bytes.
pub const RING: &[u8] = b"\xBD\x90\x01\x0F\xFE\x71\xD2\xBD";

#[test]
fn refuses_words_that_are_not_listed(rt: HostRuntime) -> Result<(), Fail> {
    let table: [&[&str]; 6] = [
        &["-"],
        &["-", "-"],
        &["-", "-", "show", "x"],
        &["-", "-", "collect", "0"],
        &["-", "-", "export", "a", "T", "5", "2"],
        &["-", "-", "ping", "7", "7"],
    ];
    for words in table {
        let (status, written) = ran(rt.alloc(), words, (RING, 8, &[]), &[])?;
        assert_eq!(rt; written.as_slice(), b"pakbus: usage\n".as_slice());
        assert_eq!(rt; status, Status::Usage);
    }
    let (status, _) = ran(rt.alloc(), &["-"], (RING, 8, &[]), &[0])?;
    assert_eq!(rt; status, Status::WriteFault);
    Ok(())
}
