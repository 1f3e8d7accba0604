//! The room of one downloaded file.
ghost use Rattle.std.specs.Prelude.{◌≡◌, ◌+◌, ◌≤◌, List, [], ◌++◌, length, Option, Some, None, IfOk};
ghost use Rattle.pb_station.specs.State.{File};
ghost use Rattle.pb_station.specs.Files.{name_max, file_bytes_max, with_part};
ghost use Rattle.pb_station.specs.Inside.Slot.{IsSlot};
ghost use Rattle.pb_station.specs.Inside.Steps.{Became};

use pb_base::Memory;
use std::alloc::Global;
use std::marker::Model;

/// The most bytes of a file's name.
pub(crate) const NAME_MAX: usize = 32;

/// The most bytes of a downloaded file.
pub(crate) const FILE_BYTES_MAX: usize = 8192;

/// A file, and the room that it may grow into, which was taken when it was made.
#[derive(Drop)]
pub(crate) struct FileSlot {
    name: Vec<u8>,
    bytes: Vec<u8>,
}

impl Model for FileSlot {
    ghost Value = { File };

    ghost view = { λ slot. record { name = slot.name.items; bytes = slot.bytes.items } };

    ghost invariant = { IsSlot };
}

impl FileSlot {
    /// An empty file without a name; takes memory.
    pub(crate) fn new(alloc: Global) -> Result<FileSlot, Memory>
        ensures { IfOk result (λ slot. slot ≡ record { name = []; bytes = [] }) }
    {
        let Ok(name) = Vec::with_capacity(alloc, NAME_MAX) else {
            return Err(Memory);
        };
        let Ok(bytes) = Vec::with_capacity(alloc, FILE_BYTES_MAX) else {
            return Err(Memory);
        };
        Ok(FileSlot { name, bytes })
    }

    pub(crate) fn name(&self) -> &[u8]
        ensures { result.now ≡ self.now.name }
    {
        &self.name
    }

    pub(crate) fn bytes(&self) -> &[u8]
        ensures { result.now ≡ self.now.bytes }
    {
        &self.bytes
    }

    /// Becomes a file of this name.
    pub(crate) fn begin(&mut self, name: &[u8], bytes: &[u8])
        requires name { length name.now ≤ name_max }
        requires bytes { length bytes.now ≤ file_bytes_max }
        ensures { self.new ≡ record { name = name.now; bytes = bytes.now } }
    {
        self.name.clear();
        self.name.extend_from_slice(name).unwrap();
        self.bytes.clear();
        self.bytes.extend_from_slice(bytes).unwrap();
    }

    /// Goes on with these bytes, which begin at the offset; at offset 0 the file begins anew. False where the file
    /// doesn't end at the offset, or would be too long; then nothing changes.
    pub(crate) fn take_part(&mut self, offset: u32, bytes: &[u8]) -> bool
        ensures { Became (with_part self.old offset bytes.now) self.old self.new result }
    {
        let before = if offset == 0 { 0 } else { self.bytes.len() };
        if offset as usize != before || bytes.len() > FILE_BYTES_MAX - before {
            return false;
        }
        self.bytes.truncate(before);
        self.bytes.extend_from_slice(bytes).unwrap();
        true
    }
}
