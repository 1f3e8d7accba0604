//! The forms in memory, at calls that go well and calls that fail.
use super::*;
use std::test::Fail;

#[test]
fn a_source_in_memory_gives_its_bytes_in_chunks(rt: HostRuntime) -> Result<(), Fail> {
    let mut source = MemSource::new(rt.alloc(), b"PakBus!", 3, &[1])?;
    let mut room = [0; 4];
    for (given, bytes) in [
        (Ok(3), b"Pak".as_slice()),
        (Err(Failed), b""),
        (Ok(3), b"Bus"),
        (Ok(1), b"!"),
        (Ok(0), b""),
    ] {
        assert_eq!(rt; source.read(&mut room), given);
        assert_eq!(rt; &room[..bytes.len()], bytes);
    }
    assert_eq!(rt; source.read(&mut []), Ok(0));
    Ok(())
}

#[test]
fn a_sink_in_memory_takes_whole_texts(rt: HostRuntime) -> Result<(), Fail> {
    let mut sink = MemSink::new(rt.alloc(), &[1])?;
    assert_eq!(rt; put_all(&mut sink, b"Pak"), Ok(()));
    assert_eq!(rt; put_all(&mut sink, b"lost"), Err(Failed));
    assert_eq!(rt; put_all(&mut sink, b"Bus"), Ok(()));
    assert_eq!(rt; sink.bytes(), b"PakBus".as_slice());
    Ok(())
}

#[test]
fn a_site_in_memory_hears_its_pieces_in_order(rt: HostRuntime) -> Result<(), Fail> {
    let alloc = rt.alloc();
    let mut site = MemSite::new(alloc, MemDisk::new(alloc, b"kept", &[])?, &[1, 6])?;
    for piece in [b"hello".as_slice(), b"", b"!"] {
        site.hears(piece)?;
    }
    let mut room = [0; 4];
    for (came, bytes) in [
        (Ok(4), b"hell".as_slice()),
        (Err(Failed), b""),
        (Ok(1), b"o"),
        (Ok(0), b""),
        (Ok(1), b"!"),
        (Ok(0), b""),
    ] {
        assert_eq!(rt; site.recv(&mut room), came);
        assert_eq!(rt; &room[..bytes.len()], bytes);
    }
    for (frame, sent) in [
        (b"one".as_slice(), Err(Failed)),
        (b"two", Ok(())),
        (b"three", Ok(())),
    ] {
        assert_eq!(rt; site.send(frame), sent);
    }
    assert_eq!(rt; site.sent(0), Some(b"two".as_slice()));
    assert_eq!(rt; site.sent(1), Some(b"three".as_slice()));
    assert_eq!(rt; site.sent(2), None);
    Ok(())
}

#[test]
fn a_disk_in_memory_keeps_what_was_written(rt: HostRuntime) -> Result<(), Fail> {
    let alloc = rt.alloc();
    let mut disk = MemDisk::new(alloc, b"PakBus", &[2])?;
    assert_eq!(rt; write_in_order(&mut disk, 3, b"ket!", 0, b"p"), Err(Failed));
    assert_eq!(rt; disk.bytes(), b"Pakket!".as_slice());
    assert_eq!(rt; write_settled(&mut disk, 0, b"p"), Ok(()));
    assert_eq!(rt; disk.len(), Ok(7));
    let mut room = [0; 3];
    assert_eq!(rt; disk.read_at(4, &mut room), Ok(()));
    assert_eq!(rt; room.as_slice(), b"et!".as_slice());
    assert_eq!(rt; disk.cut(6), Ok(()));
    assert_eq!(rt; disk.sync(), Ok(()));
    assert_eq!(rt; disk.bytes(), b"pakket".as_slice());
    Ok(())
}

#[test]
fn a_disk_goes_on_in_a_world(rt: HostRuntime) -> Result<(), Fail> {
    let alloc = rt.alloc();
    let mut disk = MemDisk::new(alloc, b"old", &[])?;
    let mut events = Vec::new(alloc);
    events.push(Event::Begin)?;
    events.push(Event::Sent(Vec::from_slice(alloc, b"one")?))?;
    disk.happened(events)?;
    let next = MemDisk::in_world(alloc, b"torn", &[1], disk.into_world())?;
    let mut site = MemSite::new(alloc, next, &[])?;
    assert_eq!(rt; site.send(b"two"), Ok(()));
    assert_eq!(rt; site.sent(0), Some(b"one".as_slice()));
    assert_eq!(rt; site.sent(1), Some(b"two".as_slice()));
    assert_eq!(rt; site.len(), Ok(4));
    assert_eq!(rt; site.cut(1), Err(Failed));
    assert_eq!(rt; site.cut(1), Ok(()));
    assert_eq!(rt; site.len(), Ok(1));
    Ok(())
}
