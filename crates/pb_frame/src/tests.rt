//! Tests of frames, whole and damaged.
ghost use Rattle.std.specs.Prelude.{◌≡◌, ℕ, ◌+◌, ◌^◌, ◌<◌, ◌≤◌, length};

use super::*;
use std::test::Fail;

/// What was heard of a stream: the verdicts with the places of their pieces, the first bytes of the last content, and
/// the open piece.
#[derive(Clone, Copy, Debug, PartialEq, Eq)]
struct Record {
    verdicts: [(u64, Heard); 2],
    count: usize,
    content: [u8; 4],
    open: Option<u64>,
}

const NONE: [u8; 4] = [0; 4];

const EMPTY: (u64, Heard) = (0, Heard::Nothing);

const NOTHING: Record = Record {
    verdicts: [EMPTY, EMPTY],
    count: 0,
    content: NONE,
    open: None,
};

fn one(piece: u64, heard: Heard, content: [u8; 4]) -> Record {
    Record {
        verdicts: [(piece, heard), EMPTY],
        count: 1,
        content,
        open: None,
    }
}

// Takes a front of `bytes`, by `push` alone or as a caller does.
fn step(unframer: &mut Unframer, bytes: &[u8], pushes: bool, record: &mut Record) -> usize
    requires some { 0 < length bytes.now }
    requires count { unframer.old.count + length bytes.now ≤ 2 ^ 62 }
    ensures some { 0 < result }
    ensures front { result ≤ length bytes.now }
    ensures count { unframer.new.count ≡ unframer.old.count + result }
{
    let taken = if pushes {
        0
    } else {
        unframer.take_plain(bytes)
    };
    if taken == bytes.len() {
        return taken;
    }
    let heard = unframer.push(bytes[taken]);
    if heard != Heard::Nothing && record.count < 2 {
        record.verdicts[record.count] = (unframer.piece(), heard);
        record.count += 1;
    }
    if let Heard::Body { .. } = heard {
        let content = unframer.content();
        record.content = [content[0], content[1], content[2], content[3]];
    }
    taken + 1
}

// Hears a stream in pieces of `size` bytes; where that is 0, byte by byte through `push`.
fn hear(stream: &[u8], size: usize) -> Record
    requires stream { length stream.now ≤ 4096 }
    requires size { size ≤ 12 }
{
    let mut record = NOTHING;
    let mut unframer = Unframer::new();
    let width = size.max(1);
    let mut at = 0;
    while at < stream.len() {
        let end = (at / width * width + width).min(stream.len());
        at += step(&mut unframer, &stream[at..end], size == 0, &mut record);
    }
    if unframer.pending() {
        record.open = Some(unframer.piece());
    }
    record
}

fn bad(at: u64, why: Why) -> Heard {
    Heard::Bad { at, why }
}

#[test]
fn worked_values(rt: HostRuntime) {
    assert_eq!(rt; signature(&[], START), 0xAAAA);
    assert_eq!(rt; signature(&[0x90, 0x01, 0x0F, 0xFE], START), 0x332E);
    assert_eq!(rt; nullifier(0xAAAA), [0x01, 0x56]);
    let content = [0x90, 0x01, 0x0F, 0xFE];
    let wrong = [0xBD, 0x90, 0xBC, 0x41, 0x0F, 0xFE, 0x71, 0xD2, 0xBD];
    let two = [0xBD, 0xBC, 0xBD, 0x90, 0x01, 0x0F, 0xFE, 0x71, 0xD2, 0xBD];
    let unsigned = [0xBD, 0x90, 0x01, 0x0F, 0xFE, 0x71, 0xD3, 0xBD];
    let second = one(3, Heard::Body { at: 3 }, content);
    let both = [(1, bad(2, Why::Quote)), second.verdicts[0]];
    let mut long = [0x01; 1013];
    long[0] = FLAG;
    long[1012] = FLAG;
    for size in 0..13 {
        assert_eq!(rt; hear(&wrong, size), one(1, bad(3, Why::Quote), NONE));
        assert_eq!(rt;
            hear(&two, size),
            Record {
                verdicts: both,
                count: 2,
                ..second
            }
        );
        assert_eq!(rt; hear(&unsigned, size), one(1, bad(7, Why::Signature), NONE));
        assert_eq!(rt; hear(&long, size), one(1, bad(1011, Why::Long), NONE));
        assert_eq!(rt;
            hear(&[0xBD, 0x90], size),
            Record {
                open: Some(1),
                ..NOTHING
            }
        );
        for n in 1..10 {
            let mut stream = [0x01; 11];
            stream[0] = FLAG;
            stream[n + 1] = FLAG;
            let why = if n == 6 { Why::Signature } else { Why::Short };
            let heard = bad(n as u64 + 1, why);
            assert_eq!(rt; hear(&stream[..n + 2], size), one(1, heard, NONE));
        }
    }
}

#[test]
fn longest_frame(rt: HostRuntime) -> Result<(), Fail> {
    let content = [FLAG; 1008];
    let mut out = [0; FRAME_MAX];
    let size = frame_into(&content, &mut out).ok().ok_or("no room")?;
    for width in 0..13 {
        let body = Heard::Body { at: 1 };
        assert_eq!(rt; hear(&out[..size], width), one(1, body, [FLAG; 4]));
    }
    assert!(rt; frame_into(&content, &mut out[..size - 1]).is_err());
    Ok(())
}
