//! Tests of the real site against a listener, and of the forms of a peer.
use super::HostSite;
use crate::peer::host_and_port;
use pb_io::{Disk, Failed, Site};
use std::io::{Read, Write};
use std::net::TcpListener;
use std::test::Fail;

#[test]
fn talks_to_a_listener(rt: HostRuntime) -> Result<(), Fail> {
    let listener = TcpListener::bind(&rt, "127.0.0.1:0")?;
    let port = listener.local_addr()?.port();
    let peer = format!(in rt.alloc(); "127.0.0.1:{port}")?;
    let mut site = HostSite::new(&rt, "-", peer.as_str());
    let mut bytes = [0u8; 8];

    assert!(rt; site.send(b"\xBD\xA0\x01\xBD").is_ok());
    let (mut logger, _) = listener.accept()?;
    logger.read_exact(&mut bytes[..4])?;
    assert_eq!(rt; bytes, *b"\xBD\xA0\x01\xBD\0\0\0\0");

    logger.write_all(b"answer")?;
    assert_eq!(rt; site.recv(&mut bytes[..3]), Ok(3));
    assert_eq!(rt; site.recv(&mut bytes[3..]), Ok(3));
    assert_eq!(rt; bytes, *b"answer\0\0");
    assert_eq!(rt; site.recv(&mut bytes), Ok(0));
    assert_eq!(rt; (site.quiets, site.link_faults), (1, 0));

    drop(logger);
    assert_eq!(rt; site.recv(&mut bytes), Err(Failed));
    assert_eq!(rt;
        (site.quiets, site.link_faults, site.disk_faults),
        (1, 1, 0)
    );
    Ok(())
}

#[test]
fn tries_a_peer_once(rt: HostRuntime) -> Result<(), Fail> {
    let listener = TcpListener::bind(&rt, "127.0.0.1:0")?;
    let address = listener.local_addr()?;
    let port = address.port();
    let peer = format!(in rt.alloc(); "127.0.0.1:{port}")?;
    drop(listener);
    let mut site = HostSite::new(&rt, "-", peer.as_str());
    assert_eq!(rt; site.recv(&mut [0; 8]), Err(Failed));

    let _listener = TcpListener::bind(&rt, address)?;
    assert_eq!(rt; site.send(b"\xBD"), Err(Failed));
    assert_eq!(rt; (site.quiets, site.link_faults), (0, 2));
    Ok(())
}

#[test]
fn reads_the_forms_of_a_peer(rt: HostRuntime) {
    for (word, host, port) in [
        ("192.168.1.9:6785", "192.168.1.9", 6785),
        ("::1:1", "::1", 1),
        ("[::1]:6785", "::1", 6785),
        ("[listen]:1", "listen", 1),
        ("listener:65535", "listener", 65535),
    ] {
        assert_eq!(rt; host_and_port(word), Some((host, port)), "{word}");
    }
    for word in [
        "-",
        "logger",
        ":6785",
        "logger:",
        "logger:06785",
        "logger:+1",
        "logger:65536",
        "listen:6785",
        "[::1:6785",
        "[]:6785",
        "[::1]6785",
    ] {
        assert_eq!(rt; host_and_port(word), None, "{word}");
    }
}

#[test]
fn keeps_a_file(rt: HostRuntime) -> Result<(), Fail> {
    let mut site = HostSite::new(&rt, "kept.pbk", "-");
    let mut bytes = [0u8; 3];
    assert_eq!(rt; site.len(), Ok(0));
    assert_eq!(rt; site.write_at(0, b"abc"), Ok(()));
    assert_eq!(rt; site.sync(), Ok(()));
    assert_eq!(rt; site.read_at(0, &mut bytes), Ok(()));
    assert_eq!(rt; bytes, *b"abc");
    assert_eq!(rt; site.cut(1), Ok(()));
    assert_eq!(rt; site.len(), Ok(1));

    // It is locked, and goes on where it was left.
    let mut other = HostSite::new(&rt, "kept.pbk", "-");
    assert_eq!(rt; other.len(), Err(Failed));
    drop(site);
    let mut again = HostSite::new(&rt, "kept.pbk", "-");
    assert_eq!(rt; again.len(), Ok(1));
    assert_eq!(rt; again.cut(0), Ok(()));
    assert_eq!(rt; HostSite::new(&rt, "-", "-").len(), Err(Failed));
    Ok(())
}
