//! A script of one station, and the station that it stands for.
ghost use Rattle.std.specs.Prelude.{◌≡◌, ◌≤◌, length, IfOk, IfErr};
ghost use Rattle.pb_station.specs.State.{StandsFor};
ghost use Rattle.pb_script.specs.Inside.{IsFilling};
ghost use Rattle.pb_script.specs.ScriptRefusal.{ScriptRefuses};
ghost use Rattle.pb_script.specs.ScriptText.{ServedText};
ghost use Rattle.pb_script.specs.Station.{definition_file, state_of};

use crate::draft::Draft;
use crate::fault::ScriptFault;
use crate::file::file_of;
use crate::filling::fill;
use crate::reading::{SCRIPT_TEXT_MAX, read_draft};
use pb_base::{Memory, NodeId};
use pb_station::{Station, StationFault};
use std::alloc::Global;
use std::marker::Model;

/// A script of one station: its tables, and how many records are stored in each. Contracts see it as these.
#[derive(Drop)]
pub struct Script {
    draft: Draft,
    file: Vec<u8>,
}

impl Model for Script {
    ghost use Rattle.std.specs.Prelude.{◌≡◌};
    ghost use Rattle.pb_script.specs.Script as seen;
    ghost use Rattle.pb_script.specs.Station.{definition_file};

    ghost Value = { seen.Script };

    ghost view = { λ s. s.draft };

    ghost invariant = { λ s. s.file.items ≡ definition_file s.draft };
}

impl Script {
    /// Reads the text of a script of one station. Takes memory: the tables, and their definition file.
    ///
    /// The first line is `self ADDR` and the second `station NAME ADDR CODE`; then come lines `table STATION NAME RING
    /// INTERVAL TYPE COUNT`, at most 255, and then lines `store STATION NAME COUNT`. Each ends with a line feed, and one
    /// space stands between two words. A line that isn't so, or that passes a limit, is refused.
    pub fn read_served(alloc: Global, text: &[u8]) -> Result<Script, ScriptFault>
        requires { length text.now ≤ SCRIPT_TEXT_MAX }
        ensures found { IfOk result (λ script. ServedText script text.now) }
        ensures refused { IfErr result (ScriptRefuses text.now) }
    {
        let draft = match read_draft(alloc, text) {
            Ok(draft) => draft,
            Err(fault) => return Err(fault),
        };
        let file = match file_of(alloc, draft.tables()) {
            Ok(file) => file,
            Err(_) => return Err(ScriptFault::Memory),
        };
        Ok(Script { draft, file })
    }

    /// The station's address.
    pub fn addr(&self) -> NodeId
        ensures { result ≡ self.now.addr }
    {
        self.draft.station().addr
    }

    /// The station's security code.
    pub fn code(&self) -> u16
        ensures { result ≡ self.now.code }
    {
        self.draft.station().code
    }

    /// The station's table definition file.
    pub fn tdf(&self) -> &[u8]
        ensures { result.now ≡ definition_file self.now }
    {
        &self.file
    }

    /// The station, with all records stored. Takes memory: its rings, and room for a record.
    pub fn station(&self, alloc: Global) -> Result<Station, Memory>
        ensures { IfOk result (λ station. StandsFor station (state_of self.now)) }
    {
        let mut station = match self.empty_station(alloc) {
            Ok(station) => station,
            Err(_) => return Err(Memory),
        };
        match fill(alloc, &mut station, self.draft.tables()) {
            Ok(()) => Ok(station),
            Err(fault) => Err(fault),
        }
    }

    // The station before anything is stored. There always is one, where there is memory.
    fn empty_station(&self, alloc: Global) -> Result<Station, StationFault>
        ensures made { IfOk result (λ station. IsFilling station self.now.tables 0 0
            × (station.device ≡ (state_of self.now).device)) }
        ensures memory { IfErr result (λ fault. fault ≡ StationFault.Memory) }
    {
        let station = self.draft.station();
        let _tables = self.draft.tables();
        match Station::new(alloc, station.addr, station.code, &self.file) {
            Ok(station) => Ok(station),
            Err(fault) => Err(fault),
        }
    }
}
