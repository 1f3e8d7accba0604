//! `serve` over a site in memory.
use crate::tests::ran_over;
use pb_io::{MemDisk, MemSite};
use pb_tool::Status;
use std::alloc::Global;
use std::test::Fail;

// A station with one table.
const SCRIPT: &[u8] = b"self 4094\nstation a 10 0\ntable a T 10 0 fp2 1\n";

// A collect of all records of its table, and the reply of a station that has none.
const COLLECT: &[u8] =
    b"\xBD\xA0\x0A\x5F\xFE\x10\x0A\x0F\xFE\x09\x01\x00\x00\x04\x00\x01\x8A\x5F\x00\x00\x00\x00\x00\x00\x01\x9D\xBD";

const REPLY: &[u8] = b"\xBD\xAF\xFE\x10\x0A\x1F\xFE\x00\x0A\x89\x01\x00\x00\x43\x13\xBD";

// The end of a run: its status, what it printed, and how many replies it sent.
type End<'a> = (Status, &'a [u8], usize);

// A site that hears these chunks; an empty one is a quiet tick.
fn site(alloc: Global, fails: &[u64], chunks: &[&[u8]]) -> Result<MemSite, Fail> {
    let mut site = MemSite::new(alloc, MemDisk::new(alloc, &[], &[])?, fails)?;
    for chunk in chunks {
        site.hears(chunk)?;
    }
    Ok(site)
}

// How many replies a site has sent, up to ten; none where it has sent anything else.
fn replies(site: &MemSite) -> Option<usize> {
    for n in 0..10 {
        match site.sent(n) {
            None => return Some(n),
            Some(REPLY) => {}
            Some(_) => return None,
        }
    }
    None
}

// Serves so many frames of a script, and compares how that ends.
fn ends(
    alloc: Global,
    frames: &str,
    script: &[u8],
    mut site: MemSite,
    end: End,
) -> Result<bool, Fail> {
    let words = ["-", "-", "serve", frames];
    let (status, written) = ran_over(alloc, &words, &mut site, (script, 4096, &[]), &[])?;
    Ok((status, written.as_slice(), replies(&site)) == (end.0, end.1, Some(end.2)))
}

#[test]
fn answers_a_collect(rt: HostRuntime) -> Result<(), Fail> {
    let alloc = rt.alloc();
    let done = (Status::Done, b"".as_slice(), 1);
    assert!(rt;
        ends(
            alloc,
            "1",
            SCRIPT,
            site(alloc, &[], &[COLLECT, COLLECT])?,
            done
        )?
    );
    let twice = (Status::Done, b"".as_slice(), 2);
    assert!(rt;
        ends(
            alloc,
            "2",
            SCRIPT,
            site(alloc, &[], &[COLLECT, COLLECT])?,
            twice
        )?
    );
    let fault = (Status::LinkFault, b"pakbus: link fault\n".as_slice(), 0);
    assert!(rt; ends(alloc, "1", SCRIPT, site(alloc, &[1], &[COLLECT])?, fault)?);
    Ok(())
}

// A site at which so many ticks are quiet before a collect is heard.
fn late(alloc: Global, ticks: usize) -> Result<MemSite, Fail> {
    let mut site = site(alloc, &[], &[])?;
    for _ in 0..ticks {
        site.hears(&[])?;
    }
    site.hears(COLLECT)?;
    Ok(site)
}

#[test]
fn waits_for_600_ticks(rt: HostRuntime) -> Result<(), Fail> {
    let alloc = rt.alloc();
    let done = (Status::Done, b"".as_slice(), 1);
    assert!(rt; ends(alloc, "1", SCRIPT, late(alloc, 599)?, done)?);
    let idle = (Status::Incomplete, b"idle\n".as_slice(), 0);
    assert!(rt; ends(alloc, "1", SCRIPT, late(alloc, 600)?, idle)?);
    Ok(())
}

// A site at which so many bytes that are no frame are heard before a collect.
fn noisy(alloc: Global, bytes: usize) -> Result<MemSite, Fail> {
    let mut noise = Vec::new(alloc);
    noise.resize(bytes, 0)?;
    noise.extend_from_slice(COLLECT)?;
    site(alloc, &[], &[&noise])
}

#[test]
fn ends_at_a_flood(rt: HostRuntime) -> Result<(), Fail> {
    let alloc = rt.alloc();
    let done = (Status::Done, b"".as_slice(), 1);
    assert!(rt;
        ends(
            alloc,
            "1",
            SCRIPT,
            noisy(alloc, 1_048_576 - COLLECT.len())?,
            done
        )?
    );
    let flooded = (Status::Incomplete, b"flooded\n".as_slice(), 0);
    assert!(rt;
        ends(
            alloc,
            "1",
            SCRIPT,
            noisy(alloc, 1_048_577 - COLLECT.len())?,
            flooded
        )?
    );
    Ok(())
}

// A script of 1,048,576 bytes.
fn longest(alloc: Global) -> Result<Vec<u8>, Fail> {
    let mut text = Vec::from_slice(alloc, SCRIPT)?;
    for _ in 0..87_371 {
        text.extend_from_slice(b"store a T 0\n")?;
    }
    for _ in 0..6 {
        text.extend_from_slice(b"store a T 10\n")?;
    }
    Ok(text)
}

#[test]
fn refuses_scripts(rt: HostRuntime) -> Result<(), Fail> {
    let alloc = rt.alloc();
    let line = (Status::Format, b"pakbus: format at line 4\n".as_slice(), 0);
    let text: &[u8] = b"self 4094\nstation a 10 0\ntable a T 10 0 fp2 1\ndefs\n";
    assert!(rt; ends(alloc, "1", text, site(alloc, &[], &[COLLECT])?, line)?);
    let mut text = longest(alloc)?;
    assert_eq!(rt; text.len(), 1_048_576);
    let idle = (Status::Incomplete, b"idle\n".as_slice(), 0);
    assert!(rt; ends(alloc, "1", &text, site(alloc, &[], &[])?, idle)?);
    text.push(b'\n')?;
    let byte = (
        Status::Format,
        b"pakbus: format at byte 1048576\n".as_slice(),
        0,
    );
    assert!(rt; ends(alloc, "1", &text, site(alloc, &[], &[])?, byte)?);
    Ok(())
}
