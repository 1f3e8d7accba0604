//! The TCP stream to the peer.
ghost use Rattle.std.specs.Prelude.{◌≡◌, ◌≤◌, ◌*◌, ◌-◌, ◌/◌, length, max, IfOk};
ghost use Rattle.std.specs.Duration.{as_nanos};

use crate::host_source::read_on;
use crate::peer::host_and_port;
use std::io::{self, ErrorKind, Read, Write};
use std::net::{Net, OpenStream, SocketAddr, TcpStream, ToSocketAddrs};
use std::os::fd::AsRawFd;
use std::time::{Clock, Duration, Instant};

/// How long a host may take to be reached, in seconds, over all of its addresses together. The look-up of its name
/// comes before and has the resolver's own limits.
const CONNECT_SECONDS: u64 = 10;

/// How long one write may wait, in seconds.
const WRITE_SECONDS: u64 = 10;

/// How long a read waits for bytes, in seconds: the length of a quiet tick.
const TICK_SECONDS: u64 = 1;

/// The TCP stream to the peer that a word names. It is opened when it is first needed.
#[derive(Drop)]
pub struct HostLink<'a, H: Net> {
    host: &'a H,
    peer: &'a str,
    stream: Stream<H::Stream>,
}

/// The stream to a peer.
#[derive(Drop)]
pub enum Stream<S: Drop> {
    Unopened,
    Open(S),
    /// It couldn't be opened, and isn't tried again.
    Unreachable,
}

impl<'a, H: Net + Clock> HostLink<'a, H> {
    pub fn new(host: &'a H, peer: &'a str) -> Self {
        HostLink {
            host,
            peer,
            stream: Stream::Unopened,
        }
    }

    /// Writes the whole frame.
    pub fn send(&mut self, frame: &[u8]) -> io::Result<()> {
        self.open();
        self.stream.send(frame)
    }

    /// Reads into the front of `to`, which isn't empty, and answers how many bytes came; 0 for a quiet tick. The end
    /// of the stream is an error.
    pub fn recv(&mut self, to: &mut [u8]) -> io::Result<usize>
        ensures { IfOk result (λ n. n ≤ length to.old) }
    {
        self.open();
        self.stream.recv(to)
    }

    fn open(&mut self) {
        if let Stream::Unopened = self.stream {
            self.stream = match connected(self.host, self.peer) {
                Ok(stream) => Stream::Open(stream),
                Err(_) => Stream::Unreachable,
            };
        }
    }
}

impl<S: Read + Write + Drop> Stream<S> {
    fn send(&mut self, frame: &[u8]) -> io::Result<()> {
        match self {
            Stream::Open(stream) => stream.write_all(frame),
            _ => Err(io::Error::from(ErrorKind::NotConnected)),
        }
    }

    // A read that waited for the length of a tick would block. A connection that timed out is an error.
    fn recv(&mut self, to: &mut [u8]) -> io::Result<usize>
        ensures { IfOk result (λ n. n ≤ length to.old) }
    {
        let Stream::Open(stream) = self else {
            return Err(io::Error::from(ErrorKind::NotConnected));
        };
        match read_on(stream, to) {
            Ok(0) => Err(io::Error::from(ErrorKind::UnexpectedEof)),
            Err(error) if error.kind() == ErrorKind::WouldBlock => Ok(0),
            result => result,
        }
    }
}

// A stream to the first address of the peer that takes it. They are tried once each, in the resolver's order.
fn connected<H: Net + Clock>(host: &H, peer: &str) -> io::Result<H::Stream> {
    let invalid = io::Error::from(ErrorKind::InvalidInput);
    let addresses = host_and_port(peer).ok_or(invalid)?.to_socket_addrs(host)?;
    let start = Instant::now(host)?;
    let mut untried = u32::try_from(addresses.len()).unwrap_or(u32::MAX);
    for address in addresses {
        let share = share_of(start.elapsed(host)?, untried);
        if let Ok(stream) = connected_within(host, &address, share) {
            return Ok(stream);
        }
        untried = untried.saturating_sub(1);
    }
    Err(io::Error::from(ErrorKind::NotConnected))
}

// How long the next address may take after some time has passed: the time that remains, shared evenly by the
// addresses that weren't tried.
fn share_of(passed: Duration, untried: u32) -> Duration
    ensures { as_nanos result ≡ (CONNECT_SECONDS * 1000000000 - as_nanos passed) / max untried 1 }
{
    Duration::from_secs(CONNECT_SECONDS).saturating_sub(passed) / untried.max(1)
}

fn connected_within<H: Net>(
    host: &H,
    address: &SocketAddr,
    share: Duration,
) -> io::Result<H::Stream> {
    prepared(TcpStream::connect_timeout(host, address, share)?)
}

/// A new stream with its timeouts. Where a standard stream was closed, a new one gets its number, and what is printed would
/// go to the peer: such a stream is moved above them.
pub(crate) fn prepared<S: OpenStream + AsRawFd + Drop>(opened: S) -> io::Result<S> {
    let stream = if opened.as_raw_fd() > 2 {
        opened
    } else {
        opened.try_clone()?
    };
    stream.set_read_timeout(Some(Duration::from_secs(TICK_SECONDS)))?;
    stream.set_write_timeout(Some(Duration::from_secs(WRITE_SECONDS)))?;
    Ok(stream)
}

#[cfg(test)]
mod tests;
