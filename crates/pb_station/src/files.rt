//! The files that were downloaded to a station.
ghost use Rattle.std.specs.Prelude.{◌≡◌, ◌≤◌, ◌<◌, List, [], length, position, IfOk, option_copied, slice_get};
ghost use Rattle.pb_station.specs.State.{File};
ghost use Rattle.pb_station.specs.Files.{files_max, name_max, is_named, place_of, found, download, begins, goes_on, Downloaded};
ghost use Rattle.pb_station.specs.Inside.Files.{files_view, AreFiles};
ghost use Rattle.pb_station.specs.Inside.Steps.{Becomes};

use crate::file_slot::{FILE_BYTES_MAX, FileSlot, NAME_MAX};
use pb_base::Memory;
use std::alloc::Global;
use std::marker::Model;

/// The most files that a station keeps of those that are downloaded.
const FILES_MAX: usize = 4;

/// The name of the table definition file.
pub(crate) const DEFINITIONS_NAME: &[u8] = b".TDF";

/// The response codes of downloads and uploads.
pub(crate) const DENIED: u8 = 1;

pub(crate) const NO_FILE: u8 = 13;

pub(crate) const NO_ROOM: u8 = 14;

/// The downloaded files, in the order in which they came. The room for all of them is taken when they are made.
#[derive(Drop)]
pub(crate) struct Files {
    slots: Vec<FileSlot>,
    used: usize,
}

impl Model for Files {
    ghost Value = { List File };

    ghost view = { files_view };

    ghost invariant = { AreFiles };
}

impl Files {
    /// No files; takes memory.
    pub(crate) fn new(alloc: Global) -> Result<Files, Memory>
        ensures { IfOk result (λ files. files ≡ []) }
    {
        let Ok(mut slots) = Vec::with_capacity(alloc, FILES_MAX) else {
            return Err(Memory);
        };
        for _ in 0..FILES_MAX {
            slots.push_reserved(FileSlot::new(alloc)?);
        }
        Ok(Files { slots, used: 0 })
    }

    /// The place of the file of this name.
    fn place_of(&self, name: &[u8]) -> Option<usize>
        ensures { result ≡ place_of name.now self.now }
    {
        self.slots[..self.used]
            .iter()
            .position(|slot| slot.name() == name)
    }

    /// The bytes of the file of this name.
    pub(crate) fn bytes_of(&self, name: &[u8]) -> Option<&[u8]>
        ensures { option_copied result ≡ found self.now (place_of name.now self.now) }
    {
        let place = self.place_of(name)?;
        Some(self.slots[place].bytes())
    }

    /// Takes bytes of a file that is downloaded, and answers the response code. At offset 0 the file begins anew; else
    /// it must end at the offset.
    pub(crate) fn download(&mut self, name: &[u8], offset: u32, bytes: &[u8]) -> u8
        ensures { Becomes (download self.old name.now offset bytes.now) self.new result }
    {
        if name == DEFINITIONS_NAME {
            return DENIED;
        }
        if name.is_empty() || name.len() > NAME_MAX {
            return NO_FILE;
        }
        match self.place_of(name) {
            Some(place) => self.go_on(place, offset, bytes),
            None => {
                if offset == 0 {
                    self.begin(name, bytes)
                } else {
                    NO_FILE
                }
            }
        }
    }

    fn go_on(&mut self, place: usize, offset: u32, bytes: &[u8]) -> u8
        requires { place < length self.old }
        ensures { Becomes (goes_on self.old place (slice_get self.old place) offset bytes.now)
            self.new result }
    {
        if !self.slots[place].take_part(offset, bytes) {
            return NO_ROOM;
        }
        0
    }

    fn begin(&mut self, name: &[u8], bytes: &[u8]) -> u8
        requires { length name.now ≤ name_max }
        ensures { Becomes (begins self.old name.now bytes.now) self.new result }
    {
        if self.used == FILES_MAX || bytes.len() > FILE_BYTES_MAX {
            return NO_ROOM;
        }
        self.slots[self.used].begin(name, bytes);
        self.used += 1;
        0
    }
}
