//! A test of the port against clients in the same thread.
use super::*;
use std::io::Read;
use std::test::Fail;

// A port that nobody listens on.
fn free_port(rt: &HostRuntime) -> io::Result<u16> {
    Ok(TcpListener::bind(rt, "127.0.0.1:0")?.local_addr()?.port())
}

#[test]
fn takes_one_connection_after_the_other(rt: HostRuntime) -> Result<(), Fail> {
    let port = free_port(&rt)?;
    let mut link = HostListener::new(&rt, port);
    let mut bytes = [0u8; 8];
    // Nobody is there: a frame is lost, and a second is quiet.
    assert!(rt; link.send(b"lost").is_ok());
    assert_eq!(rt; link.recv(&mut bytes).ok(), Some(0));

    let mut first = TcpStream::connect(&rt, ("127.0.0.1", port))?;
    first.write_all(b"one")?;
    assert_eq!(rt; link.recv(&mut bytes).ok(), Some(3));
    assert!(rt; link.send(b"answer").is_ok());
    first.read_exact(&mut bytes[..6])?;
    assert_eq!(rt; bytes, *b"answer\0\0");
    assert_eq!(rt; link.recv(&mut bytes).ok(), Some(0));

    // It leaves, which the next call that hears finds, and another one is taken.
    drop(first);
    let mut second = TcpStream::connect(&rt, ("127.0.0.1", port))?;
    second.write_all(b"second")?;
    assert_eq!(rt; link.recv(&mut bytes).ok(), Some(0));
    assert_eq!(rt; link.recv(&mut bytes).ok(), Some(6));
    assert_eq!(rt; bytes, *b"second\0\0");

    // It leaves, and frames for it are lost; then a third one is taken.
    drop(second);
    for _ in 0..4 {
        assert!(rt; link.send(b"gone").is_ok());
    }
    assert_eq!(rt; link.recv(&mut bytes).ok(), Some(0));
    let mut third = TcpStream::connect(&rt, ("127.0.0.1", port))?;
    third.write_all(b"third")?;
    assert_eq!(rt; link.recv(&mut bytes).ok(), Some(5));
    assert!(rt; link.send(b"answer").is_ok());
    third.read_exact(&mut bytes[..6])?;
    assert_eq!(rt; bytes, *b"answer\0\0");
    Ok(())
}

#[test]
fn a_port_in_use_is_a_fault(rt: HostRuntime) -> Result<(), Fail> {
    let holder = TcpListener::bind(&rt, "127.0.0.1:0")?;
    let mut link = HostListener::new(&rt, holder.local_addr()?.port());
    assert!(rt; link.send(b"frame").is_err());
    assert!(rt; link.recv(&mut [0; 4]).is_err());
    Ok(())
}
