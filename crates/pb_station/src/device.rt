//! What a station has beside its tables.
ghost use Rattle.std.specs.Prelude.{◌≡◌, ◌≤◌, List, length, IfOk, option_copied};
ghost use Rattle.pb_frame.specs.Signature.{start, sig};
ghost use Rattle.pb_station.specs.State.{DeviceState};
ghost use Rattle.pb_station.specs.Answer.{is_wrong};
ghost use Rattle.pb_station.specs.Clock.{has_sum};
ghost use Rattle.pb_station.specs.Files.{file_of, download};
ghost use Rattle.pb_station.specs.Making.{new_device};
ghost use Rattle.pb_station.specs.Inside.Device.{device_view, IsDevice};
ghost use Rattle.pb_station.specs.Inside.Steps.{WasAdjusted, DeviceBecomes};

use crate::file_slot::NAME_MAX;
use crate::files::{DEFINITIONS_NAME, Files};
use pb_base::{Memory, NodeId, Nsec};
use pb_frame::{START, signature};
use std::alloc::Global;
use std::marker::Model;

/// The address, the security code, the table definition file, the clock, the name and the downloaded files.
#[derive(Drop)]
pub(crate) struct Device {
    pub(crate) address: NodeId,
    pub(crate) code: u16,
    definitions: Vec<u8>,
    pub(crate) clock: Nsec,
    pub(crate) name: Vec<u8>,
    files: Files,
}

impl Model for Device {
    ghost Value = { DeviceState };

    ghost view = { device_view };

    ghost invariant = { IsDevice };
}

impl Device {
    /// A device whose clock stands at 0, without a name and without files; takes memory.
    pub(crate) fn new(
        alloc: Global,
        address: NodeId,
        code: u16,
        definitions: &[u8],
    ) -> Result<Device, Memory>
        ensures { IfOk result (λ device. device ≡ new_device address code definitions.now) }
    {
        let Ok(mut copy) = Vec::with_capacity(alloc, definitions.len()) else {
            return Err(Memory);
        };
        copy.extend_from_slice(definitions).unwrap();
        let Ok(name) = Vec::with_capacity(alloc, NAME_MAX) else {
            return Err(Memory);
        };
        Ok(Device {
            address,
            code,
            definitions: copy,
            clock: Nsec { sec: 0, nano: 0 },
            name,
            files: Files::new(alloc)?,
        })
    }

    pub(crate) fn address(&self) -> NodeId
        ensures { result ≡ self.now.address }
    {
        self.address
    }

    /// Whether a command with this security code is refused.
    pub(crate) fn is_wrong(&self, code: u16) -> bool
        ensures { result ≡ is_wrong self.now code }
    {
        self.code != 0 && self.code != code
    }

    pub(crate) fn set_clock(&mut self, time: Nsec)
        ensures { self.new ≡ record self.old { clock = time } }
    {
        self.clock = time;
    }

    /// Adds to the clock, and answers its time before. `None` where the sum is no time; then nothing changes.
    pub(crate) fn adjust_clock(&mut self, adjust: Nsec) -> Option<Nsec>
        ensures { WasAdjusted self.old adjust self.new result }
    {
        let before = self.clock;
        self.clock = before.after(adjust, 1)?;
        Some(before)
    }

    /// The signature of the table definition file.
    pub(crate) fn definitions_signature(&self) -> u16
        ensures { result ≡ sig self.now.definitions start }
    {
        signature(&self.definitions, START)
    }

    /// The bytes of the file of this name.
    pub(crate) fn file_of(&self, name: &[u8]) -> Option<&[u8]>
        ensures { option_copied result ≡ file_of self.now name.now }
    {
        if name == DEFINITIONS_NAME {
            return Some(&self.definitions);
        }
        self.files.bytes_of(name)
    }

    /// Takes bytes of a file that is downloaded, and answers the response code.
    pub(crate) fn download(&mut self, name: &[u8], offset: u32, bytes: &[u8]) -> u8
        ensures { DeviceBecomes (download self.old.files name.now offset bytes.now) self.old self.new
            result }
    {
        self.files.download(name, offset, bytes)
    }
}
