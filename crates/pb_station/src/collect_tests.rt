//! Collects whose replies are worked out by hand.
use crate::tests::{BMP5_HEAD, Case, EVENTS, TEXTS, all_say, header, put, put_events, station};
use crate::{Answered, Station};
use pb_frame::{START, signature};
use std::alloc::Global;
use std::test::*;

/// The table `I`: 4 records of one FP2 value, one each 10 seconds. Its signature is F317.
const INTERVALS: &[u8] =
    b"\x01I\x00\x00\x00\x00\x04\x0E\x00\x00\x00\x00\x00\x00\x00\x00\x00\x00\x00\x0A\x00\x00\x00\x00\x07V\x00\x00\x00\x00\x00\x00\x00\x00\x01\x00\x00\x00\x01\x00\x00\x00\x00\x00";

#[test]
fn each_mode_is_collected(rt: HostRuntime) -> Result<(), Fail> {
    let mut station = station(rt.alloc(), 0, EVENTS).ok_or("a station")?;
    // An empty table: nothing, whatever is asked. Then another table, another signature, and field numbers.
    let empty: [Case; 10] = [
        (
            1,
            b"\x09\x01\x00\x00\x03\x00\x01\x8A\x5F\x00\x00",
            b"\x89\x01\x00\x00",
        ),
        (
            1,
            b"\x09\x01\x00\x00\x04\x00\x01\x8A\x5F\x00\x00\x00\x05\x00\x00",
            b"\x89\x01\x00\x00",
        ),
        (
            1,
            b"\x09\x01\x00\x00\x05\x00\x01\x8A\x5F\x00\x00\x00\x05\x00\x00",
            b"\x89\x01\x00\x00",
        ),
        (
            1,
            b"\x09\x01\x00\x00\x06\x00\x01\x8A\x5F\x00\x00\x00\x00\x00\x00\x00\x09\x00\x00",
            b"\x89\x01\x00\x00",
        ),
        (
            1,
            b"\x09\x01\x00\x00\x07\x00\x01\x8A\x5F\x00\x00\x00\x00\x00\x00\x00\x00\x00\x00\x00\x63\x00\x00\x00\x00\x00\x00",
            b"\x89\x01\x00\x00",
        ),
        (
            1,
            b"\x09\x01\x00\x00\x08\x00\x01\x8A\x5F\x00\x00\x00\x00\x00\x00\x00\x00\x00\x00",
            b"\x89\x01\x00\x00",
        ),
        (
            1,
            b"\x09\x01\x00\x00\x03\x00\x00\x8A\x5F\x00\x00",
            b"\x89\x01\x07",
        ),
        (
            1,
            b"\x09\x01\x00\x00\x03\x00\x02\x8A\x5F\x00\x00",
            b"\x89\x01\x07",
        ),
        (
            1,
            b"\x09\x01\x00\x00\x03\x00\x01\x8A\x5E\x00\x01\x00\x00",
            b"\x89\x01\x07",
        ),
        (
            1,
            b"\x09\x01\x00\x00\x03\x00\x01\x8A\x5F\x00\x01\x00\x00",
            b"\x89\x01\x02",
        ),
    ];
    assert_eq!(rt; all_say(&mut station, &BMP5_HEAD, &empty), true);
    assert_eq!(rt; put_events(&mut station, 0, 3), true);
    // Three records: all, the newest, those up to a number, those of a range of times, and a part of each.
    let some: [Case; 8] = [
        (
            1,
            b"\x09\x01\x00\x00\x03\x00\x01\x8A\x5F\x00\x00",
            b"\x89\x01\x00\x00\x01\x00\x00\x00\x00\x00\x03\x00\x00\x00\x00\x00\x00\x00\x00\x40\x00\x00\x00\x00\x01\x00\x00\x00\x00\x40\x01\x00\x00\x00\x02\x00\x00\x00\x00\x40\x02\x00",
        ),
        (
            1,
            b"\x09\x01\x00\x00\x04\x00\x01\x8A\x5F\x00\x00\x00\x02\x00\x00",
            b"\x89\x01\x00\x00\x01\x00\x00\x00\x02\x00\x01\x00\x00\x00\x02\x00\x00\x00\x00\x40\x02\x00",
        ),
        (
            1,
            b"\x09\x01\x00\x00\x05\x00\x01\x8A\x5F\x00\x00\x00\x01\x00\x00",
            b"\x89\x01\x00\x00\x01\x00\x00\x00\x02\x00\x01\x00\x00\x00\x02\x00\x00\x00\x00\x40\x02\x00",
        ),
        (
            1,
            b"\x09\x01\x00\x00\x06\x00\x01\x8A\x5F\x00\x00\x00\x01\x00\x00\x00\x02\x00\x00",
            b"\x89\x01\x00\x00\x01\x00\x00\x00\x01\x00\x01\x00\x00\x00\x01\x00\x00\x00\x00\x40\x01\x00",
        ),
        (
            1,
            b"\x09\x01\x00\x00\x07\x00\x01\x8A\x5F\x00\x00\x00\x01\x00\x00\x00\x00\x00\x00\x00\x02\x00\x00\x00\x00\x00\x00",
            b"\x89\x01\x00\x00\x01\x00\x00\x00\x01\x00\x01\x00\x00\x00\x01\x00\x00\x00\x00\x40\x01\x00",
        ),
        (
            1,
            b"\x09\x01\x00\x00\x08\x00\x01\x8A\x5F\x00\x00\x00\x01\x00\x00\x00\x07\x00\x00",
            b"\x89\x01\x00\x00\x01\x00\x00\x00\x01\x80\x00\x00\x07\x00\x40\x01\x01",
        ),
        (
            1,
            b"\x09\x01\x00\x00\x08\x00\x01\x8A\x5F\x00\x00\x00\x02\x00\x00\x00\x09\x00\x00",
            b"\x89\x01\x00\x00\x01\x00\x00\x00\x02\x80\x00\x00\x09\x02\x00",
        ),
        (
            1,
            b"\x09\x01\x00\x00\x08\x00\x01\x8A\x5F\x00\x00\x00\x02\x00\x00\x00\x0A\x00\x00",
            b"\x89\x01\x02",
        ),
    ];
    assert_eq!(rt; all_say(&mut station, &BMP5_HEAD, &some), true);
    assert_eq!(rt; put_events(&mut station, 3, 12), true);
    // Twelve records, of which the first two are gone.
    let over: [Case; 5] = [
        (
            1,
            b"\x09\x01\x00\x00\x06\x00\x01\x8A\x5F\x00\x00\x00\x00\x00\x00\x00\x03\x00\x00",
            b"\x89\x01\x00\x00\x01\x00\x00\x00\x02\x00\x01\x00\x00\x00\x02\x00\x00\x00\x00\x40\x02\x00",
        ),
        (
            1,
            b"\x09\x01\x00\x00\x06\x00\x01\x8A\x5F\x00\x00\x00\x00\x00\x00\x00\x02\x00\x00",
            b"\x89\x01\x00\x00",
        ),
        (
            1,
            b"\x09\x01\x00\x00\x08\x00\x01\x8A\x5F\x00\x00\x00\x01\x00\x00\x00\x00\x00\x00",
            b"\x89\x01\x00\x01",
        ),
        (
            1,
            b"\x09\x01\x00\x00\x08\x00\x01\x8A\x5F\x00\x00\x00\x0C\x00\x00\x00\x00\x00\x00",
            b"\x89\x01\x00\x00",
        ),
        (
            1,
            b"\x09\x01\x00\x00\x05\x00\x01\x8A\x5F\x00\x00\x00\x01\x00\x00",
            b"\x89\x01\x00\x00\x01\x00\x00\x00\x0B\x00\x01\x00\x00\x00\x0B\x00\x00\x00\x00\x40\x0B\x00",
        ),
    ];
    assert_eq!(rt; all_say(&mut station, &BMP5_HEAD, &over), true);
    Ok(())
}

#[test]
fn records_of_intervals_have_one_time(rt: HostRuntime) -> Result<(), Fail> {
    let mut station = station(rt.alloc(), 0, INTERVALS).ok_or("a station")?;
    for n in 0..5u8 {
        assert_eq!(rt; put(&mut station, n, 10, &[0x40, n]), true);
    }
    let cases: [Case; 2] = [
        (
            1,
            b"\x09\x01\x00\x00\x04\x00\x01\xF3\x17\x00\x00\x00\x00\x00\x00",
            b"\x89\x01\x00\x00\x01\x00\x00\x00\x01\x00\x04\x00\x00\x00\x0A\x00\x00\x00\x00\x40\x01\x40\x02\x40\x03\x40\x04\x00",
        ),
        (
            1,
            b"\x09\x01\x00\x00\x07\x00\x01\xF3\x17\x00\x00\x00\x14\x00\x00\x00\x00\x00\x00\x00\x28\x00\x00\x00\x00\x00\x00",
            b"\x89\x01\x00\x00\x01\x00\x00\x00\x02\x00\x02\x00\x00\x00\x14\x00\x00\x00\x00\x40\x02\x40\x03\x00",
        ),
    ];
    assert_eq!(rt; all_say(&mut station, &BMP5_HEAD, &cases), true);
    Ok(())
}

/// A station with so many records of one text of so many bytes, and the table's signature.
fn texts(alloc: Global, dimension: u16, records: u8) -> Option<(Station, u16)> {
    let mut file = *TEXTS;
    file[6] = 20;
    file[37..39].copy_from_slice(&dimension.to_be_bytes());
    let mut station = station(alloc, 0, &file)?;
    let bytes = [b'x'; 1024];
    if dimension > 1024 {
        return None;
    }
    for n in 0..records {
        if !put(&mut station, n, 1, &bytes[..usize::from(dimension)]) {
            return None;
        }
    }
    Some((station, signature(&file[1..], START)))
}

/// What is sent to a command for records from one on, or for a part of it: how many bytes, the first 18, and the last.
fn sent(
    station: &mut Station,
    signature: u16,
    mode: u8,
    number: u8,
    offset: u16,
) -> Option<(usize, [u8; 18], u8)> {
    let [a, b] = signature.to_be_bytes();
    let [c, d] = offset.to_be_bytes();
    let from = [
        0x09, 1, 0, 0, mode, 0, 1, a, b, 0, 0, 0, number, 0, 0, c, d, 0, 0,
    ];
    let len = if mode == 8 { 19 } else { 15 };
    let message = &from[..len];
    let header = header(10, 1)?;
    let mut out = [0x55; 1008];
    let Answered::Reply(len) = station.answer(&header, message, &mut out) else {
        return None;
    };
    if len < 26 {
        return None;
    }
    let mut front = [0; 18];
    front.copy_from_slice(&out[8..26]);
    Some((len - 8, front, out[len - 1]))
}

#[test]
fn long_records_are_sent_in_parts(rt: HostRuntime) -> Result<(), Fail> {
    // A content of 960 bytes fills a reply, one of 961 bytes is sent in parts.
    let (mut station, sig) = texts(rt.alloc(), 952, 2).ok_or("texts")?;
    assert_eq!(rt;
        sent(&mut station, sig, 4, 0, 0),
        Some((
            972,
            *b"\x89\x01\x00\x00\x01\x00\x00\x00\x00\x00\x01\x00\x00\x00\x00\x00\x00\x00",
            1
        ))
    );
    assert_eq!(rt;
        sent(&mut station, sig, 4, 1, 0),
        Some((
            972,
            *b"\x89\x01\x00\x00\x01\x00\x00\x00\x01\x00\x01\x00\x00\x00\x01\x00\x00\x00",
            0
        ))
    );
    let (mut station, sig) = texts(rt.alloc(), 953, 2).ok_or("texts")?;
    assert_eq!(rt;
        sent(&mut station, sig, 4, 1, 0),
        Some((
            974,
            *b"\x89\x01\x00\x00\x01\x00\x00\x00\x01\x80\x00\x00\x00\x00\x00\x00\x01\x00",
            1
        ))
    );
    // The last byte of the first record, and of the newest.
    let [a, b] = sig.to_be_bytes();
    let first = [
        0x09, 1, 0, 0, 8, 0, 1, a, b, 0, 0, 0, 0, 0, 0, 0x03, 0xC0, 0, 0,
    ];
    let newest = [
        0x09, 1, 0, 0, 8, 0, 1, a, b, 0, 0, 0, 1, 0, 0, 0x03, 0xC0, 0, 0,
    ];
    let cases: [Case; 2] = [
        (
            1,
            &first,
            b"\x89\x01\x00\x00\x01\x00\x00\x00\x00\x80\x00\x03\xC0x\x01",
        ),
        (
            1,
            &newest,
            b"\x89\x01\x00\x00\x01\x00\x00\x00\x01\x80\x00\x03\xC0x\x00",
        ),
    ];
    assert_eq!(rt; all_say(&mut station, &BMP5_HEAD, &cases), true);
    Ok(())
}

#[test]
fn an_overwritten_ring_is_collected(rt: HostRuntime) -> Result<(), Fail> {
    let mut station = station(rt.alloc(), 0, EVENTS).ok_or("a station")?;
    assert_eq!(rt; put_events(&mut station, 0, 12), true);
    let held =
        b"\x89\x01\x00\x00\x01\x00\x00\x00\x02\x00\x0A\x00\x00\x00\x02\x00\x00\x00\x00\x40\x02\x00\x00\x00\x03\x00\x00\x00\x00\x40\x03\x00\x00\x00\x04\x00\x00\x00\x00\x40\x04\x00\x00\x00\x05\x00\x00\x00\x00\x40\x05\x00\x00\x00\x06\x00\x00\x00\x00\x40\x06\x00\x00\x00\x07\x00\x00\x00\x00\x40\x07\x00\x00\x00\x08\x00\x00\x00\x00\x40\x08\x00\x00\x00\x09\x00\x00\x00\x00\x40\x09\x00\x00\x00\x0A\x00\x00\x00\x00\x40\x0A\x00\x00\x00\x0B\x00\x00\x00\x00\x40\x0B\x00";
    // Of twelve records the first two are gone: all, those from a number on that is gone, the newest one and more than there
    // are, those of a range of times that begins before the oldest, and of one that ends there.
    let cases: [Case; 7] = [
        (1, b"\x09\x01\x00\x00\x03\x00\x01\x8A\x5F\x00\x00", held),
        (
            1,
            b"\x09\x01\x00\x00\x04\x00\x01\x8A\x5F\x00\x00\x00\x01\x00\x00",
            held,
        ),
        (
            1,
            b"\x09\x01\x00\x00\x04\x00\x01\x8A\x5F\x00\x00\x00\x0B\x00\x00",
            b"\x89\x01\x00\x00\x01\x00\x00\x00\x0B\x00\x01\x00\x00\x00\x0B\x00\x00\x00\x00\x40\x0B\x00",
        ),
        (
            1,
            b"\x09\x01\x00\x00\x05\x00\x01\x8A\x5F\x00\x00\x00\x0D\x00\x00",
            held,
        ),
        (
            1,
            b"\x09\x01\x00\x00\x07\x00\x01\x8A\x5F\x00\x00\x00\x00\x00\x00\x00\x00\x00\x00\x00\x04\x00\x00\x00\x00\x00\x00",
            b"\x89\x01\x00\x00\x01\x00\x00\x00\x02\x00\x02\x00\x00\x00\x02\x00\x00\x00\x00\x40\x02\x00\x00\x00\x03\x00\x00\x00\x00\x40\x03\x00",
        ),
        (
            1,
            b"\x09\x01\x00\x00\x07\x00\x01\x8A\x5F\x00\x00\x00\x00\x00\x00\x00\x00\x00\x00\x00\x02\x00\x00\x00\x00\x00\x00",
            b"\x89\x01\x00\x00",
        ),
        (
            1,
            b"\x09\x01\x00\x00\x08\x00\x01\x8A\x5F\x00\x00\x00\x02\x00\x00\x00\x08\x00\x00",
            b"\x89\x01\x00\x00\x01\x00\x00\x00\x02\x80\x00\x00\x08\x40\x02\x01",
        ),
    ];
    assert_eq!(rt; all_say(&mut station, &BMP5_HEAD, &cases), true);
    Ok(())
}

#[test]
fn records_fill_a_reply(rt: HostRuntime) -> Result<(), Fail> {
    // Ten contents of 96 bytes fill a reply; of 97 bytes nine have room.
    let (mut station, sig) = texts(rt.alloc(), 88, 11).ok_or("texts")?;
    assert_eq!(rt;
        sent(&mut station, sig, 4, 0, 0),
        Some((
            972,
            *b"\x89\x01\x00\x00\x01\x00\x00\x00\x00\x00\x0A\x00\x00\x00\x00\x00\x00\x00",
            1
        ))
    );
    assert_eq!(rt;
        sent(&mut station, sig, 4, 1, 0),
        Some((
            972,
            *b"\x89\x01\x00\x00\x01\x00\x00\x00\x01\x00\x0A\x00\x00\x00\x01\x00\x00\x00",
            0
        ))
    );
    let (mut station, sig) = texts(rt.alloc(), 89, 11).ok_or("texts")?;
    assert_eq!(rt;
        sent(&mut station, sig, 4, 1, 0),
        Some((
            885,
            *b"\x89\x01\x00\x00\x01\x00\x00\x00\x01\x00\x09\x00\x00\x00\x01\x00\x00\x00",
            1
        ))
    );
    // A content longer than a reply: 1,032 bytes in two parts.
    let (mut station, sig) = texts(rt.alloc(), 1024, 1).ok_or("texts")?;
    assert_eq!(rt;
        sent(&mut station, sig, 4, 0, 0),
        Some((
            974,
            *b"\x89\x01\x00\x00\x01\x00\x00\x00\x00\x80\x00\x00\x00\x00\x00\x00\x00\x00",
            1
        ))
    );
    assert_eq!(rt;
        sent(&mut station, sig, 8, 0, 960),
        Some((
            86,
            *b"\x89\x01\x00\x00\x01\x00\x00\x00\x00\x80\x00\x03\xC0xxxxx",
            0
        ))
    );
    Ok(())
}
