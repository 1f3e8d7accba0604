//! Files that are sent to a station and read from it.
use crate::tests::{BMP5_HEAD, Case, EVENTS, all_say, station};
use std::test::*;

#[test]
fn files_are_uploaded_and_downloaded(rt: HostRuntime) -> Result<(), Fail> {
    let mut station = station(rt.alloc(), 0, EVENTS).ok_or("a station")?;
    let cases: [Case; 19] = [
        (
            1,
            b"\x1D\x01\x00\x00.TDF\x00\x00\x00\x00\x00\x00\x00\x04",
            b"\x9D\x01\x00\x00\x00\x00\x00\x01T\x00\x00",
        ),
        (
            1,
            b"\x1D\x01\x00\x00.TDF\x00\x00\x00\x00\x00\x2A\x03\x84",
            b"\x9D\x01\x00\x00\x00\x00\x2A\x00\x00",
        ),
        (
            1,
            b"\x1D\x01\x00\x00.TDF\x00\x00\x00\x00\x00\x2C\x03\x84",
            b"\x9D\x01\x00\x00\x00\x00\x2C",
        ),
        (
            1,
            b"\x1D\x01\x00\x00a\x00\x00\x00\x00\x00\x00\x00\x0A",
            b"\x9D\x01\x0D",
        ),
        // No name, a name of 33 bytes, and a file that isn't there.
        (
            1,
            b"\x1C\x01\x00\x00\x00\x00\x00\x00\x00\x00\x00z",
            b"\x9C\x01\x0D",
        ),
        (
            1,
            b"\x1C\x01\x00\x00abcdefghijklmnopqrstuvwxyz0123456\x00\x00\x00\x00\x00\x00\x00z",
            b"\x9C\x01\x0D",
        ),
        (
            1,
            b"\x1C\x01\x00\x00a\x00\x00\x00\x00\x00\x00\x01z",
            b"\x9C\x01\x0D",
        ),
        (
            1,
            b"\x1C\x01\x00\x00.TDF\x00\x00\x00\x00\x00\x00\x00z",
            b"\x9C\x01\x01",
        ),
        (
            1,
            b"\x1C\x01\x00\x00a\x00\x00\x00\x00\x00\x00\x00xyz",
            b"\x9C\x01\x00\x00\x00\x00\x00",
        ),
        (
            1,
            b"\x1C\x01\x00\x00a\x00\x00\x00\x00\x00\x00\x02w",
            b"\x9C\x01\x0E",
        ),
        (
            1,
            b"\x1C\x01\x00\x00a\x00\x00\x00\x00\x00\x00\x03w",
            b"\x9C\x01\x00\x00\x00\x00\x03",
        ),
        (
            1,
            b"\x1D\x01\x00\x00a\x00\x00\x00\x00\x00\x01\x00\x0A",
            b"\x9D\x01\x00\x00\x00\x00\x01yzw",
        ),
        (
            1,
            b"\x1C\x01\x00\x00b\x00\x00\x00\x00\x00\x00\x00",
            b"\x9C\x01\x00\x00\x00\x00\x00",
        ),
        (
            1,
            b"\x1C\x01\x00\x00c\x00\x00\x00\x00\x00\x00\x00c",
            b"\x9C\x01\x00\x00\x00\x00\x00",
        ),
        (
            1,
            b"\x1C\x01\x00\x00d\x00\x00\x00\x00\x00\x00\x00d",
            b"\x9C\x01\x00\x00\x00\x00\x00",
        ),
        // A fifth file has no room; a file begins anew.
        (
            1,
            b"\x1C\x01\x00\x00e\x00\x00\x00\x00\x00\x00\x00e",
            b"\x9C\x01\x0E",
        ),
        (
            1,
            b"\x1C\x01\x00\x00a\x00\x00\x00\x00\x00\x00\x00n",
            b"\x9C\x01\x00\x00\x00\x00\x00",
        ),
        (
            1,
            b"\x1D\x01\x00\x00a\x00\x00\x00\x00\x00\x00\x00\x0A",
            b"\x9D\x01\x00\x00\x00\x00\x00n",
        ),
        (
            1,
            b"\x1D\x01\x00\x00b\x00\x00\x00\x00\x00\x00\x00\x0A",
            b"\x9D\x01\x00\x00\x00\x00\x00",
        ),
    ];
    assert_eq!(rt; all_say(&mut station, &BMP5_HEAD, &cases), true);
    let mut large = [b'l'; 8210];
    large[..12].copy_from_slice(b"\x1C\x01\x00\x00b\x00\x00\x00\x00\x00\x00\x00");
    let full: [Case; 4] = [
        (1, &large[..8205], b"\x9C\x01\x0E"),
        (1, &large[..8204], b"\x9C\x01\x00\x00\x00\x00\x00"),
        (
            1,
            b"\x1C\x01\x00\x00b\x00\x00\x00\x00\x00\x20\x00",
            b"\x9C\x01\x00\x00\x00\x20\x00",
        ),
        (
            1,
            b"\x1C\x01\x00\x00b\x00\x00\x00\x00\x00\x20\x00l",
            b"\x9C\x01\x0E",
        ),
    ];
    assert_eq!(rt; all_say(&mut station, &BMP5_HEAD, &full), true);
    Ok(())
}
