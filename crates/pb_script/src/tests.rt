//! Scripts with each rule broken, and the definition file of one.
use crate::{SCRIPT_TEXT_MAX, Script, ScriptFault};
use std::alloc::Global;
use std::test::Fail;

/// The table `T`: 10 events of one FP2 value.
const EVENTS: &[u8] =
    b"\x01T\x00\x00\x00\x00\x0A\x0E\x00\x00\x00\x00\x00\x00\x00\x00\x00\x00\x00\x00\x00\x00\x00\x00\x07V\x00\x00\x00\x00\x00\x00\x00\x00\x01\x00\x00\x00\x01\x00\x00\x00\x00\x00";

// The line at which a text is refused; 0 where it isn't.
fn refused(alloc: Global, text: &[u8]) -> Option<u32> {
    if text.len() > SCRIPT_TEXT_MAX {
        return None;
    }
    match Script::read_served(alloc, text) {
        Ok(_) => Some(0),
        Err(ScriptFault::Line(line)) => Some(line),
        Err(ScriptFault::Memory) => None,
    }
}

// Whether each text, after these first lines, is refused at its line.
fn all_refused(alloc: Global, first: &[u8], cases: &[(&[u8], u32)]) -> Result<bool, Fail> {
    for (more, line) in cases {
        let mut text = Vec::from_slice(alloc, first)?;
        text.extend_from_slice(more)?;
        if refused(alloc, &text) != Some(*line) {
            return Ok(false);
        }
    }
    Ok(true)
}

#[test]
fn reads_the_head(rt: HostRuntime) -> Result<(), Fail> {
    let cases: &[(&[u8], u32)] = &[
        (b"", 1),
        (b"self 0\n", 1),
        (b"self 4095\n", 1),
        (b"self 4094", 1),
        (b"self 04094\n", 1),
        (b"self 4094\n", 2),
        (b"self 4094\nstation a 4094 0\n", 2),
        (b"self 4094\nstation a 4095 0\n", 2),
        (b"self 4094\nstation a 10 65536\n", 2),
        (b"self 4094\nstation a.b 10 0\n", 2),
        (b"self 4094\nstation  10 0\n", 2),
        (b"self 4094\nstation a 10 0\nstation b 11 0\n", 3),
        (b"self 4094\nrouter 1\nstation a 10 0\n", 2),
        (b"self 4094\nstation a 10 65535\n", 0),
    ];
    assert!(rt; all_refused(rt.alloc(), b"", cases)?);
    Ok(())
}

#[test]
fn reads_tables(rt: HostRuntime) -> Result<(), Fail> {
    let cases: &[(&[u8], u32)] = &[
        (b"table a T 10 0 fp2 1\n", 0),
        (b"table b T 10 0 fp2 1\n", 3),
        (b"table a T 0 0 fp2 1\n", 3),
        (b"table a T 10 2000000 fp2 1\n", 0),
        (b"table a T 10 2000001 fp2 1\n", 3),
        (b"table a T 10 0 fp4 1\n", 3),
        (b"table a T 10 0 fp2 0\n", 3),
        (b"table a T 10 0 fp2 8192\n", 0),
        (b"table a T 10 0 fp2 8193\n", 3),
        (b"table a T 10 0 ascii 16384\n", 0),
        (b"table a T 10 0 ascii 16385\n", 3),
        (b"table a T 10 0 fp2 1 \n", 3),
        (b"table a T 10 0 fp2 1", 3),
        (b"table a T 10 0 fp2 1\ntable a T 10 0 fp2 1\n", 4),
        // The rings hold 67,108,864 bytes, and with one record more too many.
        (b"table a T 4194304 0 ascii 8\n", 0),
        (b"table a T 4194305 0 ascii 8\n", 3),
        (b"table a T 4194303 0 ascii 8\ntable a U 1 0 ascii 8\n", 0),
        (b"table a T 4194303 0 ascii 8\ntable a U 2 0 ascii 8\n", 4),
    ];
    assert!(rt; all_refused(rt.alloc(), b"self 4094\nstation a 10 0\n", cases)?);
    Ok(())
}

#[test]
fn reads_stores(rt: HostRuntime) -> Result<(), Fail> {
    let cases: &[(&[u8], u32)] = &[
        (b"store a T 0\nstore a T 5\nstore a E 1\n", 0),
        (b"store a U 1\n", 5),
        (b"store b T 1\n", 5),
        (b"store a T 01\n", 5),
        (b"store a T 1", 5),
        (b"store a T 1\ncollect\n", 6),
        (b"store a T 0\ntable a V 10 0 fp2 1\n", 6),
        // A million records, and of a table of 3,600 seconds those whose last time is below 2^31.
        (b"store a E 1000000\n", 0),
        (b"store a E 1000001\n", 5),
        (b"store a E 999999\nstore a E 2\n", 6),
        (b"store a T 596524\n", 0),
        (b"store a T 596525\n", 5),
    ];
    let first: &[u8] =
        b"self 4094\nstation a 10 0\ntable a T 10 3600 fp2 1\ntable a E 10 0 fp2 1\n";
    assert!(rt; all_refused(rt.alloc(), first, cases)?);
    Ok(())
}

#[test]
fn has_a_definition_file(rt: HostRuntime) -> Result<(), Fail> {
    let text: &[u8] = b"self 4094\nstation a 10 7\ntable a T 10 0 fp2 1\nstore a T 3\n";
    assert!(rt; text.len() <= SCRIPT_TEXT_MAX);
    let script = Script::read_served(rt.alloc(), text)?;
    assert_eq!(rt; script.tdf(), EVENTS);
    assert_eq!(rt; (script.addr().get(), script.code()), (10, 7));
    assert!(rt; script.station(rt.alloc()).is_ok());
    Ok(())
}
