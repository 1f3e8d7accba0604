//! Rings that were filled by hand.
ghost use Rattle.std.specs.Prelude.{◌≡◌, ◌<◌};

use crate::Ring;
use pb_base::{Layout, Nsec, RecNo};
use std::test::*;

const EVENTS: Layout = Layout {
    record_len: 2,
    event: true,
    interval: Nsec { sec: 0, nano: 0 },
};

/// Stores a record whose time and fields show its number.
fn put(ring: &mut Ring, n: u8)
    requires number { n < 26 }
    requires events { ring.old.record_len ≡ 2 }
    ensures { ring.new.record_len ≡ 2 }
{
    let time = Nsec {
        sec: i32::from(n),
        nano: -1,
    };
    let _stored = ring.store(time, &[b'a' + n, b'A' + n]);
}

#[test]
fn a_ring_holds_the_newest_records(rt: HostRuntime) -> Result<(), Fail> {
    let mut ring = Ring::new(rt.alloc(), EVENTS, 3).ok().ok_or("memory")?;
    assert_eq!(rt; ring.oldest(), RecNo(0));
    assert_eq!(rt; ring.next(), RecNo(0));
    let mut part = [0x55; 8];
    assert_eq!(rt; ring.copy_into(RecNo(0), 0, &mut part), false);
    assert_eq!(rt; ring.store(Nsec { sec: 0, nano: 0 }, b"aA"), Ok(RecNo(0)));
    assert_eq!(rt; ring.store(Nsec { sec: 1, nano: 0 }, b"bB"), Ok(RecNo(1)));
    assert_eq!(rt; ring.oldest(), RecNo(0));
    assert_eq!(rt; ring.next(), RecNo(2));
    put(&mut ring, 2);
    put(&mut ring, 3);
    put(&mut ring, 4);
    put(&mut ring, 5);
    put(&mut ring, 6);
    put(&mut ring, 7);
    put(&mut ring, 8);
    put(&mut ring, 9);
    assert_eq!(rt; ring.oldest(), RecNo(7));
    assert_eq!(rt; ring.next(), RecNo(10));
    assert_eq!(rt; ring.copy_into(RecNo(6), 0, &mut part), false);
    assert_eq!(rt; part, [0x55; 8]);
    assert_eq!(rt; ring.copy_into(RecNo(7), 0, &mut part), true);
    assert_eq!(rt; part, [0, 0, 0, 7, 0xFF, 0xFF, 0xFF, 0xFF]);
    let mut fields = [0x55; 3];
    assert_eq!(rt; ring.copy_into(RecNo(9), 7, &mut fields), true);
    assert_eq!(rt; fields, [0xFF, b'j', b'J']);
    assert_eq!(rt; ring.copy_into(RecNo(9), 8, &mut fields), false);
    assert_eq!(rt; ring.copy_into(RecNo(10), 0, &mut fields), false);
    assert_eq!(rt; ring.copy_into(RecNo(9), 10, &mut []), true);
    assert_eq!(rt; ring.copy_into(RecNo(9), 11, &mut []), false);
    Ok(())
}
