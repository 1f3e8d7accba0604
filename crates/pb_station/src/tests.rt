//! A station that is asked by hand. It has the address 10, and 4094 asks.
ghost use Rattle.std.specs.Prelude.{◌≤◌, IfSome};
ghost use Rattle.pb_packet.specs.Packet.{FitsHeader};

use crate::{Answered, Station, StationFault};
use pb_base::{NodeId, Nsec, TableNo};
use pb_packet::{Header, LinkState, Phys};
use pb_tdf::TdfFault;
use std::alloc::Global;
use std::test::*;

/// The table `T`: 10 events of one FP2 value. Its signature is 8A5F, that of the file 2428.
pub(crate) const EVENTS: &[u8] =
    b"\x01T\x00\x00\x00\x00\x0A\x0E\x00\x00\x00\x00\x00\x00\x00\x00\x00\x00\x00\x00\x00\x00\x00\x00\x07V\x00\x00\x00\x00\x00\x00\x00\x00\x01\x00\x00\x00\x01\x00\x00\x00\x00\x00";

/// The table `A`: 2 events of one text of 1024 bytes; the dimension is at byte 37.
pub(crate) const TEXTS: &[u8; 44] =
    b"\x01A\x00\x00\x00\x00\x02\x0E\x00\x00\x00\x00\x00\x00\x00\x00\x00\x00\x00\x00\x00\x00\x00\x00\x0BV\x00\x00\x00\x00\x00\x00\x00\x00\x01\x00\x00\x04\x00\x00\x00\x00\x00\x00";

const CTRL_HEAD: [u8; 8] = [0xAF, 0xFE, 0x90, 0x0A, 0x0F, 0xFE, 0x00, 0x0A];

pub(crate) const BMP5_HEAD: [u8; 8] = [0xAF, 0xFE, 0x10, 0x0A, 0x1F, 0xFE, 0x00, 0x0A];

/// A message of a protocol, and the message of its reply.
pub(crate) type Case<'a> = (u8, &'a [u8], &'a [u8]);

pub(crate) fn station(alloc: Global, code: u16, definitions: &[u8]) -> Option<Station> {
    Station::new(alloc, NodeId::new(10)?, code, definitions).ok()
}

/// A header to a node.
pub(crate) fn header(dst: u16, proto: u8) -> Option<Header>
    requires { proto ≤ 15 }
    ensures { IfSome result FitsHeader }
{
    let me = NodeId::new(4094)?;
    let dst = NodeId::new(dst)?;
    Some(Header {
        phys: Phys {
            state: LinkState::Ready,
            dst,
            more: 1,
            priority: 1,
            src: me,
        },
        proto,
        dst,
        hops: 0,
        src: me,
    })
}

/// The station answers with a packet of this head and message.
fn says(station: &mut Station, proto: u8, message: &[u8], head: &[u8], expected: &[u8]) -> bool {
    if proto > 15 {
        return false;
    }
    let Some(header) = header(10, proto) else {
        return false;
    };
    let mut out = [0x55; 1008];
    match station.answer(&header, message, &mut out) {
        Answered::Reply(len) => len >= 8 && &out[..8] == head && &out[8..len] == expected,
        _ => false,
    }
}

/// Each BMP5 message has its reply, or each PakCtrl message has; a failure's head is that of PakCtrl.
pub(crate) fn all_say(station: &mut Station, head: &[u8], cases: &[Case]) -> bool {
    for (proto, message, expected) in cases {
        if !says(station, *proto, message, head, expected) {
            return false;
        }
    }
    true
}

/// What the station answers to a message to a node, where nothing is written.
fn quiet(station: &mut Station, dst: u16, proto: u8, message: &[u8]) -> Option<Answered> {
    if proto > 15 {
        return None;
    }
    let header = header(dst, proto)?;
    let mut out = [0x55; 1008];
    let answered = station.answer(&header, message, &mut out);
    if out != [0x55; 1008] {
        return None;
    }
    Some(answered)
}

/// Stores the record of this number in the first table: so many bytes of the letter, each interval so many seconds.
pub(crate) fn put(station: &mut Station, n: u8, seconds: u8, bytes: &[u8]) -> bool {
    let time = Nsec {
        sec: i32::from(n) * i32::from(seconds),
        nano: 0,
    };
    if !station.takes(TableNo(1), bytes.len()) {
        return false;
    }
    station.store(TableNo(1), time, bytes).is_ok()
}

pub(crate) fn put_events(station: &mut Station, from: u8, to: u8) -> bool {
    for n in from..to {
        if !put(station, n, 1, &[0x40, n]) {
            return false;
        }
    }
    true
}

#[test]
fn commands_are_answered(rt: HostRuntime) -> Result<(), Fail> {
    let mut station = station(rt.alloc(), 0, EVENTS).ok_or("a station")?;
    let ctrl: [Case; 8] = [
        (0, b"\x09\x07\x01\x03\x00\x3C", b"\x89\x07\x00\x02\x07\x08"),
        // Failures: unknown protocol, unknown message, malformed; with the header's words and eight bytes.
        (
            2,
            b"\x09\x07\x01\x02\x03\x04\x05\x06\x07\x08",
            b"\x81\x07\x02\x20\x0A\x0F\xFE\x09\x07\x01\x02\x03\x04\x05\x06",
        ),
        (
            0,
            b"\x55\x07\x01",
            b"\x81\x07\x04\x00\x0A\x0F\xFE\x55\x07\x01",
        ),
        (1, b"\x55\x07", b"\x81\x07\x04\x10\x0A\x0F\xFE\x55\x07"),
        (
            0,
            b"\x09\x07\x01",
            b"\x81\x07\x05\x00\x0A\x0F\xFE\x09\x07\x01",
        ),
        (
            1,
            b"\x18\x07\x00",
            b"\x81\x07\x05\x10\x0A\x0F\xFE\x18\x07\x00",
        ),
        (0, b"\x09", b"\x81\x00\x05\x00\x0A\x0F\xFE\x09"),
        (1, b"", b"\x81\x00\x05\x10\x0A\x0F\xFE"),
    ];
    assert_eq!(rt; all_say(&mut station, &CTRL_HEAD, &ctrl), true);
    let bmp5: [Case; 5] = [
        (
            1,
            b"\x09\x01\x00\x00\x04\x00\x01\x8A\x5F\x00\x00\x00\x00\x00\x00",
            b"\x89\x01\x00\x00",
        ),
        (
            1,
            b"\x18\x05\x00\x00",
            b"\x98\x05\x00sim.1\x00\x00\x0010\x00\x00\x01\x00\x24\x28\x00\x00\x00\x00\x00\x00\x00\x00\x00",
        ),
        // The clock is read, adjusted by 5.9 s, and by 0.2 s.
        (
            1,
            b"\x17\x06\x00\x00\x00\x00\x00\x05\x35\xA4\xE9\x00",
            b"\x97\x06\x00\x00\x00\x00\x00\x00\x00\x00\x00",
        ),
        (
            1,
            b"\x17\x06\x00\x00\x00\x00\x00\x00\x0B\xEB\xC2\x00",
            b"\x97\x06\x00\x00\x00\x00\x05\x35\xA4\xE9\x00",
        ),
        (
            1,
            b"\x17\x06\x00\x00\xFF\xFF\xFF\xFF\x00\x00\x00\x00",
            b"\x97\x06\x00\x00\x00\x00\x06\x05\xF5\xE1\x00",
        ),
    ];
    assert_eq!(rt; all_say(&mut station, &BMP5_HEAD, &bmp5), true);
    // Past its range the clock stays.
    station.set_clock(Nsec {
        sec: i32::MAX,
        nano: 0,
    });
    let stays: [Case; 3] = [
        (
            1,
            b"\x17\x06\x00\x00\x00\x00\x00\x01\x00\x00\x00\x00",
            b"\x97\x06\x02",
        ),
        (
            1,
            b"\x17\x06\x00\x00\x00\x00\x00\x00\xFF\xFF\xFF\xFF",
            b"\x97\x06\x02",
        ),
        (
            1,
            b"\x17\x06\x00\x00\x00\x00\x00\x00\x00\x00\x00\x00",
            b"\x97\x06\x00\x7F\xFF\xFF\xFF\x00\x00\x00\x00",
        ),
    ];
    assert_eq!(rt; all_say(&mut station, &BMP5_HEAD, &stays), true);
    Ok(())
}

#[test]
fn some_messages_are_heard_in_silence(rt: HostRuntime) -> Result<(), Fail> {
    let mut station = station(rt.alloc(), 0, EVENTS).ok_or("a station")?;
    let silent: [(u16, u8, &[u8]); 9] = [
        (10, 0, b"\x89\x07\x00\x02\x07\x08"),
        (10, 0, b"\x0D\x07"),
        (10, 0, b"\x0E\x07"),
        (10, 0, b"\x81\x07\x04\x00\x0A\x0F\xFE"),
        (10, 1, b"\x97\x06\x02"),
        (10, 1, b"\xA1\x06\x09\x00\x05"),
        (4095, 0, b"\x09\x07\x00\x02\x07\x08"),
        (4095, 1, b"\x55"),
        (4095, 9, b"\x17\x06\x00\x00\x00\x00\x00\x01\x00\x00\x00\x00"),
    ];
    for (dst, proto, message) in &silent {
        assert_eq!(rt;
            quiet(&mut station, *dst, *proto, message),
            Some(Answered::Silent)
        );
    }
    assert_eq!(rt;
        quiet(&mut station, 11, 0, b"\x09\x07\x00\x02\x07\x08"),
        Some(Answered::NotMine)
    );
    // What is sent to all sets nothing.
    assert_eq!(rt;
        quiet(
            &mut station,
            4095,
            0,
            b"\x10\x07\x00\x00\x00\x05\x00\x02\x12\x34"
        ),
        Some(Answered::Silent)
    );
    let hello: [Case; 1] = [(
        0,
        b"\x0F\x07\x00\x00\x00\x05",
        b"\x8F\x07\x00\x00\x00\x05\x00\x02\x00\x00",
    )];
    assert_eq!(rt; all_say(&mut station, &CTRL_HEAD, &hello), true);
    Ok(())
}

#[test]
fn settings_are_given_and_set(rt: HostRuntime) -> Result<(), Fail> {
    let mut station = station(rt.alloc(), 0, EVENTS).ok_or("a station")?;
    let long = b"\x10\x07\x00\x00\x00\x03\x00\x21abcdefghijklmnopqrstuvwxyz0123456";
    let cases: [Case; 10] = [
        (
            0,
            b"\x0F\x07\x00\x00\x00\x00",
            b"\x8F\x07\x00\x00\x00\x01\x00\x05sim.1\x00\x02\x00\x04\x00\x00\x00\x0A\x00\x03\x00\x00\x00\x04\x00\x02\x00\x0A\x00\x05\x00\x02\x00\x00",
        ),
        (0, b"\x0F\x07\x00\x00\x00\x06", b"\x8F\x07\x00\x00"),
        (0, b"\x10\x07\x00\x00", b"\x90\x07\x00\x00\x00"),
        (
            0,
            b"\x10\x07\x00\x00\x00\x03\x00\x05north",
            b"\x90\x07\x00\x00\x00",
        ),
        (0, long, b"\x90\x07\x01\x00\x03"),
        // The name is set, the address can't be, and the code that follows isn't.
        (
            0,
            b"\x10\x07\x00\x00\x00\x03\x00\x02ab\x00\x04\x00\x02\x00\x0B\x00\x05\x00\x02\x00\x01",
            b"\x90\x07\x01\x00\x04",
        ),
        (
            0,
            b"\x0F\x07\x00\x00\x00\x03",
            b"\x8F\x07\x00\x00\x00\x03\x00\x02ab\x00\x04\x00\x02\x00\x0A\x00\x05\x00\x02\x00\x00",
        ),
        (
            0,
            b"\x10\x07\x00\x00\x00\x05\x00\x01\x07",
            b"\x90\x07\x01\x00\x05",
        ),
        // A code that is set counts at once.
        (
            0,
            b"\x10\x07\x00\x00\x00\x05\x00\x02\x12\x34",
            b"\x90\x07\x00\x00\x00",
        ),
        (
            0,
            b"\x10\x07\x00\x00\x00\x05\x00\x02\x00\x00",
            b"\x90\x07\x01\x00\x00",
        ),
    ];
    assert_eq!(rt; all_say(&mut station, &CTRL_HEAD, &cases), true);
    let coded: [Case; 2] = [
        (0, b"\x0F\x07\x12\x35\x00\x05", b"\x8F\x07\x01\x00"),
        (
            0,
            b"\x0F\x07\x12\x34\x00\x05",
            b"\x8F\x07\x00\x00\x00\x05\x00\x02\x12\x34",
        ),
    ];
    assert_eq!(rt; all_say(&mut station, &CTRL_HEAD, &coded), true);
    let refused: [Case; 5] = [
        (
            1,
            b"\x09\x01\x00\x00\x04\x00\x02\x00\x00\x00\x00\x00\x00\x00\x00",
            b"\x89\x01\x01",
        ),
        (
            1,
            b"\x17\x06\x00\x00\x00\x00\x00\x05\x00\x00\x00\x00",
            b"\x97\x06\x01",
        ),
        (1, b"\x18\x05\x00\x01", b"\x98\x05\x01"),
        (
            1,
            b"\x1C\x01\x00\x00.TDF\x00\x00\x00\x00\x00\x00\x00",
            b"\x9C\x01\x01",
        ),
        (
            1,
            b"\x1D\x01\x00\x00.TDF\x00\x00\x00\x00\x00\x00\x00\x0A",
            b"\x9D\x01\x01",
        ),
    ];
    assert_eq!(rt; all_say(&mut station, &BMP5_HEAD, &refused), true);
    Ok(())
}

/// Why no station is made of a file.
fn refusal(alloc: Global, definitions: &[u8]) -> Option<StationFault> {
    Station::new(alloc, NodeId::new(10)?, 0, definitions).err()
}

#[test]
fn stations_are_refused(rt: HostRuntime) -> Result<(), Fail> {
    let short = refusal(rt.alloc(), &EVENTS[..43]);
    assert_eq!(rt; short, Some(StationFault::Tdf(TdfFault::Short { at: 43 })));
    let mut file = *TEXTS;
    // A text of any length, and no records besides.
    file[6] = 0;
    assert_eq!(rt;
        refusal(rt.alloc(), &file),
        Some(StationFault::BadSize { table: TableNo(1) })
    );
    file[24] = 16;
    assert_eq!(rt;
        refusal(rt.alloc(), &file),
        Some(StationFault::Uncollectable { table: TableNo(1) })
    );
    // 65,536 contents of 1,024 bytes fill all rings.
    let mut file = *TEXTS;
    file[3..7].copy_from_slice(&[0, 1, 0, 0]);
    file[37..39].copy_from_slice(&[3, 0xF8]);
    assert_eq!(rt; refusal(rt.alloc(), &file), None);
    file[6] = 1;
    assert_eq!(rt;
        refusal(rt.alloc(), &file),
        Some(StationFault::BadSize { table: TableNo(1) })
    );
    Ok(())
}
