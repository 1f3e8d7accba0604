//! The archive's file.
ghost use Rattle.std.specs.Prelude.{◌≤◌, ◌+◌, ◌^◌, length, IfOk, OnOk};

use pb_io::MAX_FILE_LEN;
use std::fs::{File, Files, OpenOptions};
use std::io::{self, ErrorKind};
use std::os::fd::AsRawFd;
use std::os::unix::fs::FileExt;

/// The archive's file, by its path; `-` names none. It is opened when it is first needed, made where it isn't there, and
/// locked until the program ends. After a sync that failed it isn't used any more: the system may report the next sync as
/// done though the bytes are lost.
#[derive(Drop)]
pub struct HostFile<'a, H> {
    host: &'a H,
    path: &'a str,
    state: State,
}

#[derive(Drop)]
enum State {
    Unopened,
    Open(File),
    /// It couldn't be opened, or a sync failed.
    Unusable,
}

impl<'a, H: Files<File = File>> HostFile<'a, H> {
    pub fn new(host: &'a H, path: &'a str) -> Self {
        HostFile {
            host,
            path,
            state: State::Unopened,
        }
    }

    /// The file's length in bytes.
    pub fn len(&mut self) -> io::Result<u64>
        ensures { IfOk result (λ n. n ≤ 2 ^ 62) }
    {
        let len = self.file()?.metadata()?.len();
        if len > MAX_FILE_LEN {
            return Err(io::Error::from(ErrorKind::InvalidData));
        }
        Ok(len)
    }

    /// Reads the bytes from a place on.
    pub fn read_at(&mut self, at: u64, to: &mut [u8]) -> io::Result<()> {
        self.file()?.read_exact_at(to, at)
    }

    /// Writes bytes from a place on.
    pub fn write_at(&mut self, at: u64, from: &[u8]) -> io::Result<()>
        ensures { OnOk result (at + length from.now ≤ 2 ^ 62) }
    {
        if at > MAX_FILE_LEN || from.len() as u64 > MAX_FILE_LEN - at {
            return Err(io::Error::from(ErrorKind::InvalidInput));
        }
        self.file()?.write_all_at(from, at)
    }

    /// Shortens the file.
    pub fn cut(&mut self, len: u64) -> io::Result<()> {
        self.file()?.set_len(len)
    }

    /// Writes to the disk what the system has in memory.
    pub fn sync(&mut self) -> io::Result<()> {
        let result = self.file()?.sync_all();
        if result.is_err() {
            self.state = State::Unusable;
        }
        result
    }

    fn file(&mut self) -> io::Result<&File> {
        if let State::Unopened = self.state {
            self.state = match opened(self.host, self.path) {
                Ok(file) => State::Open(file),
                Err(_) => State::Unusable,
            };
        }
        match &self.state {
            State::Open(file) => Ok(file),
            _ => Err(io::Error::from(ErrorKind::NotConnected)),
        }
    }
}

// Opens the file for this program alone. Where it is made, its folder is synced too.
fn opened<H: Files<File = File>>(host: &H, path: &str) -> io::Result<File> {
    if path == "-" {
        return Err(io::Error::from(ErrorKind::InvalidInput));
    }
    let is_there = host.metadata(path).is_ok();
    let file = OpenOptions::new()
        .read(true)
        .write(true)
        .create(true)
        .open(host, path)?;
    let file = above_standard(file)?;
    file.try_lock()?;
    if !is_there {
        file.sync_all()?;
        folder_of(host, path)?.sync_all()?;
    }
    Ok(file)
}

// Where a standard stream was closed, a new file gets its number, and what is printed would go into it: such a file is
// moved above them.
fn above_standard(file: File) -> io::Result<File> {
    if file.as_raw_fd() > 2 {
        Ok(file)
    } else {
        file.try_clone()
    }
}

// The folder that a file is in.
fn folder_of<H: Files<File = File>>(host: &H, path: &str) -> io::Result<File> {
    let folder = match path.rsplit_once('/') {
        Some(("", _)) => "/",
        Some((folder, _)) => folder,
        None => ".",
    };
    OpenOptions::new().read(true).open(host, folder)
}
