//! The archive's file and the stream to the stations.
ghost use Rattle.std.specs.Prelude.{◌≤◌, length, IfOk};
ghost use Rattle.pb_io.specs.View.{silent, silent_is_lawful};

use crate::fault_count::counted;
use crate::host_file::HostFile;
use crate::host_link::HostLink;
use crate::host_listener::HostListener;
use crate::peer::listening_port;
use pb_io::{Disk, Failed, Site};
use std::fs::{File, Files};
use std::io;
use std::net::{Net, TcpListener, TcpStream};
use std::time::Clock;

/// The archive's file and the stream to the stations, of which nothing is known.
#[derive(Drop)]
pub struct HostSite<'a, H: Net> {
    file: HostFile<'a, H>,
    link: Link<'a, H>,
    disk_faults: u64,
    link_faults: u64,
    quiets: u64,
}

/// The way to the stations, or to those who ask one.
#[derive(Drop)]
enum Link<'a, H: Net> {
    /// A stream to a peer.
    Stream(HostLink<'a, H>),
    /// A port on which others connect.
    Port(HostListener<'a, H>),
}

impl<'a, H: Net<Stream = TcpStream, Listener = TcpListener> + Clock> Link<'a, H> {
    fn new(host: &'a H, peer: &'a str) -> Self {
        match listening_port(peer) {
            Some(port) => Link::Port(HostListener::new(host, port)),
            None => Link::Stream(HostLink::new(host, peer)),
        }
    }

    fn send(&mut self, frame: &[u8]) -> io::Result<()> {
        match self {
            Link::Stream(stream) => stream.send(frame),
            Link::Port(port) => port.send(frame),
        }
    }

    fn recv(&mut self, to: &mut [u8]) -> io::Result<usize>
        ensures { IfOk result (λ n. n ≤ length to.old) }
    {
        match self {
            Link::Stream(stream) => stream.recv(to),
            Link::Port(port) => port.recv(to),
        }
    }
}

impl<'a, H: Net<Stream = TcpStream, Listener = TcpListener> + Clock + Files<File = File>> HostSite<
    'a,
    H,
> {
    /// The path names the archive's file, the peer is `HOST:PORT`, or `listen:PORT` for a port of this machine; with `-` as
    /// the one, or another word as the other, each disk call or link call fails.
    pub fn new(host: &'a H, path: &'a str, peer: &'a str) -> Self {
        HostSite {
            file: HostFile::new(host, path),
            link: Link::new(host, peer),
            disk_faults: 0,
            link_faults: 0,
            quiets: 0,
        }
    }
}

impl<'a, H: Net<Stream = TcpStream, Listener = TcpListener> + Clock + Files<File = File>> Disk
    for HostSite<'a, H> {
    ghost view = { λ s. silent s.disk_faults s.link_faults s.quiets };

    fn len(&mut self) -> Result<u64, Failed> {
        counted(&mut self.disk_faults, self.file.len())
    }

    fn read_at(&mut self, at: u64, to: &mut [u8]) -> Result<(), Failed> {
        counted(&mut self.disk_faults, self.file.read_at(at, to))
    }

    fn write_at(&mut self, at: u64, from: &[u8]) -> Result<(), Failed> {
        counted(&mut self.disk_faults, self.file.write_at(at, from))
    }

    fn cut(&mut self, len: u64) -> Result<(), Failed> {
        counted(&mut self.disk_faults, self.file.cut(len))
    }

    fn sync(&mut self) -> Result<(), Failed> {
        counted(&mut self.disk_faults, self.file.sync())
    }

    ghost lawful = { λ s. silent_is_lawful s.disk_faults s.link_faults s.quiets };
}

impl<'a, H: Net<Stream = TcpStream, Listener = TcpListener> + Clock + Files<File = File>> Site
    for HostSite<'a, H> {
    fn send(&mut self, frame: &[u8]) -> Result<(), Failed> {
        counted(&mut self.link_faults, self.link.send(frame))
    }

    fn recv(&mut self, to: &mut [u8]) -> Result<usize, Failed> {
        let count = counted(&mut self.link_faults, self.link.recv(to))?;
        if count == 0 {
            self.quiets = self.quiets.saturating_add(1);
        }
        Ok(count)
    }
}

#[cfg(test)]
mod tests;
