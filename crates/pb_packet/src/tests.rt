//! Tests of packets.
use crate::{Header, LinkState, Packet, PacketFault, Phys, read, write};
use pb_base::{Full, NodeId};
use std::test::*;

const LINK: [u8; 4] = [0xAF, 0xFE, 0x70, 0x01];

const HELLO: [u8; 14] = [
    0xA0, 0x01, 0x9F, 0xFE, 0x00, 0x01, 0xFF, 0xFE, 0x09, 0x01, 0x00, 0x02, 0x07, 0x08,
];

/// The words of `LINK`.
fn up(one: NodeId, other: NodeId) -> Phys {
    Phys {
        state: LinkState::Ready,
        dst: other,
        more: 1,
        priority: 3,
        src: one,
    }
}

#[test]
fn packets_are_read(rt: HostRuntime) -> Result<(), Fail> {
    let one = NodeId::new(1).ok_or("an address")?;
    let other = NodeId::new(4094).ok_or("an address")?;
    assert_eq!(rt; read(&LINK), Ok(Packet::Link(up(one, other))));
    assert_eq!(rt;
        read(&[0x70, 0x00, 0x00, 0x00]),
        Err(PacketFault::ReservedState(7))
    );
    assert_eq!(rt;
        read(&[0xA0, 0x01, 0x90, 0x00]),
        Err(PacketFault::NullAddress { word: 1 })
    );
    Ok(())
}

#[test]
fn packets_are_written(rt: HostRuntime) -> Result<(), Fail> {
    let dst = NodeId::new(1).ok_or("an address")?;
    let src = NodeId::new(4094).ok_or("an address")?;
    let phys = Phys {
        state: LinkState::Ready,
        dst,
        more: 2,
        priority: 1,
        src,
    };
    let header = Header {
        phys,
        proto: 0,
        dst,
        hops: 15,
        src,
    };
    let hello = Packet::Full(header, &HELLO[8..]);
    let mut short = [0x55; 13];
    assert_eq!(rt; write(&hello, &mut short), Err(Full));
    assert_eq!(rt; short, [0x55; 13]);
    let mut out = [0x55; 14];
    assert_eq!(rt; write(&hello, &mut out), Ok(14));
    assert_eq!(rt; out, HELLO);
    assert_eq!(rt; read(&out), Ok(hello));
    Ok(())
}

#[test]
fn link_states_are_written(rt: HostRuntime) -> Result<(), Fail> {
    let dst = NodeId::new(4094).ok_or("an address")?;
    let src = NodeId::new(1).ok_or("an address")?;
    let link = Packet::Link(Phys {
        state: LinkState::Ready,
        dst,
        more: 1,
        priority: 3,
        src,
    });
    let mut out = [0x55; 5];
    assert_eq!(rt; write(&link, &mut out), Ok(4));
    assert_eq!(rt; out, [0xAF, 0xFE, 0x70, 0x01, 0x55]);
    Ok(())
}
