//! Messages in lines of `show`: one of each type, every key of it another, and what is wrong with others.
use crate::push_body;
use pb_io::{MemSink, Page};
use std::alloc::Global;
use std::test::Fail;

// A message's bytes, and its text.
type Row<'a> = (&'a [u8], &'a [u8]);

const CTRL: &[Row] = &[
    (
        b"\x09\x01\x02\x03\x04\x05",
        b"hello tran 1 router 2 metric 3 verify 1029",
    ),
    (
        b"\x89\x01\x02\x03\x04\x05\xFF",
        b"hello-reply tran 1 router 2 metric 3 verify 1029",
    ),
    (b"\x0D\x01", b"bye tran 1"),
    (b"\x0E\x01", b"hello-request tran 1"),
    (
        b"\x81\x01\x02\x34\x56\x78\x9A",
        b"failure tran 1 err 2 proto 3 dst 1110 hops 7 src 2202 carried -",
    ),
    (
        b"\x81\x01\x02\x34\x56\x78\x9A\x0B\x0C",
        b"failure tran 1 err 2 proto 3 dst 1110 hops 7 src 2202 carried 0B0C",
    ),
    (
        b"\x81\x01\x02\x34\x56\x78\x9A\x01\x02\x03\x04\x05\x06\x07\x08\x09",
        b"failure tran 1 err 2 proto 3 dst 1110 hops 7 src 2202 carried 0102030405060708",
    ),
    (
        b"\x0F\x01\x02\x03\x04\x05",
        b"get-settings tran 1 code 515 first 1029",
    ),
    (
        b"\x8F\x01\x02\x03\x00\x04\x00\x01\x05\x00\x06\x00\x00",
        b"get-settings-reply tran 1 outcome 2 more 3 settings 4:05,6:-",
    ),
    (
        b"\x8F\x01\x02\x03",
        b"get-settings-reply tran 1 outcome 2 more 3 settings -",
    ),
    (
        b"\x10\x01\x02\x03\x00\x04\x00\x02\x05\x06",
        b"set-settings tran 1 code 515 settings 4:0506",
    ),
    (
        b"\x90\x01\x02\x03\x04",
        b"set-settings-reply tran 1 outcome 2 number 772",
    ),
    (b"\x55\x05\x01", b"unknown 55 bytes 0501"),
    (b"\x55\x05", b"unknown 55 bytes 05"),
];

const BMP5: &[Row] = &[
    (
        b"\x09\x01\x02\x03\x03\x04\x05\x06\x07\x08\x09\x0A\x0B\x00\x00",
        b"collect tran 1 code 515 mode 3 table 1029 sig 0607 fields 2057,2571",
    ),
    (
        b"\x09\x01\x02\x03\x04\x04\x05\xA6\x07\x0A\x0B\x0C\x0D\x08\x09\x00\x00",
        b"collect tran 1 code 515 mode 4 table 1029 sig A607 p1 168496141 fields 2057",
    ),
    (
        b"\x09\x01\x02\x03\x05\x04\x05\x06\x07\x0A\x0B\x0C\x0D\x00\x00",
        b"collect tran 1 code 515 mode 5 table 1029 sig 0607 p1 168496141 fields -",
    ),
    (
        b"\x09\x01\x02\x03\x06\x04\x05\x06\x07\x0A\x0B\x0C\x0D\x0E\x0F\x10\x11\x00\x00",
        b"collect tran 1 code 515 mode 6 table 1029 sig 0607 p1 168496141 p2 235868177 fields -",
    ),
    (
        b"\x09\x01\x02\x03\x07\x04\x05\x06\x07\xFF\xFF\xFF\xFF\x00\x00\x00\x01\x12\x13\x14\x15\x16\x17\x18\x19\x00\x00",
        b"collect tran 1 code 515 mode 7 table 1029 sig 0607 p1 -1.1 p2 303240213.370612249 fields -",
    ),
    (
        b"\x09\x01\x02\x03\x08\x04\x05\x06\x07\x0A\x0B\x0C\x0D\x0E\x0F\x10\x11\x00\x00",
        b"collect tran 1 code 515 mode 8 table 1029 sig 0607 p1 168496141 p2 235868177 fields -",
    ),
    (
        b"\x89\x01\x00\x02\x03",
        b"collect-reply tran 1 resp 0 bytes 0203",
    ),
    (b"\x89\x01\x00", b"collect-reply tran 1 resp 0 bytes -"),
    (b"\x89\x01\x07\x02\x03", b"collect-reply tran 1 resp 7"),
    (
        b"\x17\x01\x02\x03\x0A\x0B\x0C\x0D\x0E\x0F\x10\x11",
        b"clock tran 1 code 515 adjust 168496141.235868177",
    ),
    (
        b"\x97\x01\x00\x00\x00\x00\x02\xFF\xFF\xFF\xFF",
        b"clock-reply tran 1 resp 0 time 2.-1",
    ),
    (b"\x97\x01\x01", b"clock-reply tran 1 resp 1"),
    (b"\x18\x01\x02\x03", b"stats tran 1 code 515"),
    (
        b"\x98\x01\x00a b\\\x00\x03\x045\x00\x00\x07p\x7F\x00\x09\x20\x0A\x0B\x0C\x0D\x0E\x0F\x10\x11ok\x00",
        b"stats-reply tran 1 resp 0 osver a\\x20b\\\\ ossig 772 serial 5 powerup - state 7 prog p\\x7F progsig 2336 time 168496141.235868177 result ok",
    ),
    (b"\x98\x01\x01", b"stats-reply tran 1 resp 1"),
    (
        b"\x1C\x01\x02\x03f\x00\x05\x06\x0A\x0B\x0C\x0D\x07\x08",
        b"download tran 1 code 515 name f attr 5 close 6 offset 168496141 bytes 0708",
    ),
    (
        b"\x9C\x01\x00\x0A\x0B\x0C\x0D",
        b"download-reply tran 1 resp 0 offset 168496141",
    ),
    (
        b"\x1D\x01\x02\x03.TDF\x00\x05\x0A\x0B\x0C\x0D\x06\x07",
        b"upload tran 1 code 515 name .TDF close 5 offset 168496141 swath 1543",
    ),
    (
        b"\x9D\x01\x00\x0A\x0B\x0C\x0D\x02\x03",
        b"upload-reply tran 1 resp 0 offset 168496141 bytes 0203",
    ),
    (b"\xA1\x01\x02\x03\x04", b"wait tran 1 kind 2 seconds 772"),
];

const OTHER: &[Row] = &[(b"\x09\x01", b"bytes 0901")];

const MALFORMED_CTRL: &[Row] = &[(b"\x10\x01\x02\x03\x00\x04\x00\x02\x05", b"malformed at 8")];

const MALFORMED_BMP5: &[Row] = &[
    (
        b"\x09\x01\x02\x03\x02\x04\x05\x06\x07\x00\x00",
        b"malformed at 4",
    ),
    (b"", b"malformed at 0"),
];

// What stands before the message in the line of a packet of piece 7 from node 4094 to node 1.
fn head(proto: u8) -> &'static [u8] {
    match proto {
        0x00 => b"7 ready 4094>1 more 2 pri 1 pakctrl 4094>1 hops 0 ",
        0x10 => b"7 ready 4094>1 more 2 pri 1 bmp5 4094>1 hops 0 ",
        _ => b"7 ready 4094>1 more 2 pri 1 proto3 4094>1 hops 0 ",
    }
}

// The line of that packet with this message, and whether it tells of damage.
fn shown(alloc: Global, proto: u8, message: &[u8]) -> Result<(MemSink, bool), Fail> {
    let mut content = Vec::new(alloc);
    content.extend_from_slice(&[0xA0, 0x01, 0x9F, 0xFE, proto, 0x01, 0x0F, 0xFE])?;
    content.extend_from_slice(message)?;
    let mut page = Page::new();
    let mut out = MemSink::new(alloc, &[])?;
    let size = content.len();
    let is_damaged = 8 <= size
        && size <= 1008
        && push_body(&mut page, 7, content.as_slice(), &mut out);
    let _ = page.flush(&mut out);
    Ok((out, is_damaged))
}

// The first of the messages of a protocol whose line isn't its text, or tells otherwise of damage.
fn first_wrong(
    alloc: Global,
    proto: u8,
    rows: &[Row],
    is_damaged: bool,
) -> Result<Option<usize>, Fail> {
    for (i, (message, text)) in rows.iter().enumerate() {
        let (out, told) = shown(alloc, proto, message)?;
        let line = out.bytes().strip_prefix(head(proto)).unwrap_or(&[]);
        if told != is_damaged || line.strip_suffix(b"\n") != Some(*text) {
            return Ok(Some(i));
        }
    }
    Ok(None)
}

#[test]
fn shows_each_message(rt: HostRuntime) -> Result<(), Fail> {
    let alloc = rt.alloc();
    assert_eq!(rt; first_wrong(alloc, 0x00, CTRL, false)?, None);
    assert_eq!(rt; first_wrong(alloc, 0x10, BMP5, false)?, None);
    assert_eq!(rt; first_wrong(alloc, 0x30, OTHER, false)?, None);
    assert_eq!(rt; first_wrong(alloc, 0x00, MALFORMED_CTRL, true)?, None);
    assert_eq!(rt; first_wrong(alloc, 0x10, MALFORMED_BMP5, true)?, None);
    Ok(())
}

#[test]
fn cuts_no_long_message(rt: HostRuntime) -> Result<(), Fail> {
    let (out, is_damaged) = shown(rt.alloc(), 0x30, &[0xAB; 1000])?;
    assert_eq!(rt; out.bytes().len(), 2056);
    assert_eq!(rt; out.bytes().ends_with(b"ABABAB\n"), true);
    assert_eq!(rt; is_damaged, false);
    Ok(())
}
