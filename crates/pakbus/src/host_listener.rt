//! A TCP port on which others connect, one after another.
ghost use Rattle.std.specs.Prelude.{◌≤◌, length, IfOk};

use crate::host_link::prepared;
use crate::host_source::read_on;
use std::io::{self, ErrorKind, Write};
use std::net::{Ipv4Addr, Net, SocketAddr, TcpListener, TcpStream};
use std::os::fd::{AsRawFd, OwnedFd};
use std::time::Duration;

/// How long a call waits for a connection, in seconds: the length of a quiet tick.
const TICK_SECONDS: u64 = 1;

/// A TCP port on the loopback address. It is opened when it is first needed; then one connection is taken after the other.
/// A connection that ends or is reset is no fault: what was to be sent on it is lost, as on any link, and the next one is
/// taken. A fault is what the port itself answers.
#[derive(Drop)]
pub struct HostListener<'a, H: Net> {
    host: &'a H,
    port: u16,
    listener: Listener<H::Listener>,
    stream: Option<H::Stream>,
}

/// The port.
#[derive(Drop)]
enum Listener<L: Drop> {
    Unopened,
    Open(L),
    /// It couldn't be opened, and isn't tried again.
    Unusable,
}

impl<'a, H: Net<Stream = TcpStream, Listener = TcpListener>> HostListener<'a, H> {
    pub fn new(host: &'a H, port: u16) -> Self {
        HostListener {
            host,
            port,
            listener: Listener::Unopened,
            stream: None,
        }
    }

    /// Writes the whole frame, or loses it.
    pub fn send(&mut self, frame: &[u8]) -> io::Result<()> {
        self.open()?;
        let lost = match &mut self.stream {
            Some(stream) => stream.write_all(frame).is_err(),
            None => false,
        };
        if lost {
            self.stream = None;
        }
        Ok(())
    }

    /// Reads into the front of `to`, which isn't empty, and answers how many bytes came; 0 for a quiet tick, also where the
    /// connection ended. Where there is none, one is waited for first.
    pub fn recv(&mut self, to: &mut [u8]) -> io::Result<usize>
        ensures { IfOk result (λ n. n ≤ length to.old) }
    {
        if self.stream.is_none() {
            self.stream = self.accepted()?;
        }
        let Some(stream) = &mut self.stream else {
            return Ok(0);
        };
        match read_on(stream, to) {
            Ok(0) => {}
            Ok(n) => return Ok(n),
            Err(error) if error.kind() == ErrorKind::WouldBlock => return Ok(0),
            Err(_) => {}
        }
        self.stream = None;
        Ok(0)
    }

    // The next connection; none where the tick passes without one, or where it ended before it was taken.
    fn accepted(&mut self) -> io::Result<Option<TcpStream>> {
        match self.open()?.accept() {
            Ok((stream, _)) => Ok(prepared(stream).ok()),
            Err(error) if is_passing(error.kind()) => Ok(None),
            Err(error) => Err(error),
        }
    }

    fn open(&mut self) -> io::Result<&TcpListener> {
        if let Listener::Unopened = self.listener {
            self.listener = match bound(self.host, self.port) {
                Ok(listener) => Listener::Open(listener),
                Err(_) => Listener::Unusable,
            };
        }
        match &self.listener {
            Listener::Open(listener) => Ok(listener),
            _ => Err(io::Error::from(ErrorKind::NotConnected)),
        }
    }
}

// Whether an accept that failed so is no fault of the port: none came, a signal came, or a connection ended at once.
fn is_passing(kind: ErrorKind) -> bool {
    matches!(
        kind,
        ErrorKind::WouldBlock
            | ErrorKind::Interrupted
            | ErrorKind::ConnectionAborted
            | ErrorKind::ConnectionReset
    )
}

// A port that is listened on. Its receive timeout bounds a wait for a connection.
fn bound<H: Net<Stream = TcpStream, Listener = TcpListener>>(
    host: &H,
    port: u16,
) -> io::Result<TcpListener> {
    let listener = TcpListener::bind(host, SocketAddr::from((Ipv4Addr::LOCALHOST, port)))?;
    let listener = if listener.as_raw_fd() > 2 {
        listener
    } else {
        listener.try_clone()?
    };
    TcpStream::from(OwnedFd::from(listener.try_clone()?)).set_read_timeout(Some(Duration::from_secs(
        TICK_SECONDS,
    )))?;
    Ok(listener)
}

#[cfg(test)]
mod tests;
