//! A simulated station.
ghost use Rattle.std.specs.Prelude.{◌≡◌, ◌≤◌, ◌↔◌, IsTrue, ◌+◌, List, length, IfOk, IfErr, Some, slice_get};
ghost use Rattle.pb_base.specs.World.{StoredRecord};
ghost use Rattle.pb_packet.specs.Packet.{FitsHeader};

use crate::bmp5_answers::answer_bmp5;
use crate::collect::numbered;
use crate::ctrl_answers::UNKNOWN_PROTOCOL;
use crate::device::Device;
use crate::fault::StationFault;
use crate::making::tables_of;
use crate::reply::{BMP5, CTRL, PACKET_MAX, fail};
use crate::table::HeldTable;
use pb_base::{NodeId, Nsec, RecNo, TableNo};
use pb_packet::Header;
use pb_ring::Spent;
use pb_tdf::{Definitions, TdfFault};
use std::alloc::Global;
use std::marker::Model;

/// The address of all nodes.
const BROADCAST: u16 = 4095;

/// What a station answers to a packet.
#[derive(Clone, Copy, Debug, PartialEq, Eq)]
pub enum Answered {
    /// A packet, of which so many bytes were written.
    Reply(usize),
    /// The packet is for another node.
    NotMine,
    /// Nothing is said.
    Silent,
}

/// A simulated station: its tables with their newest records, its clock, its settings, and the files that were downloaded
/// to it. All room is taken when it is made.
#[derive(Drop)]
pub struct Station {
    device: Device,
    tables: Vec<HeldTable>,
}

impl Model for Station {
    ghost use Rattle.pb_station.specs.State.{KeptStation};

    ghost Value = { KeptStation };

    ghost view = { λ s. record { device = s.device; tables = s.tables.items } };
}

impl Station {
    ghost use Rattle.pb_station.specs.State.{State, StandsFor};
    ghost use Rattle.pb_station.specs.Making.{IsNew, IsRefused};
    ghost use Rattle.pb_station.specs.Answer.{answer_of, state_after, FitsPacket, IsSaid};
    ghost use Rattle.pb_station.specs.Storing.{HasTable, StationStores};

    /// A station of this address and security code, whose tables are those of the table definition file; takes memory. Its
    /// tables are empty, its clock stands at 0, and it has no name and no downloaded files.
    pub fn new(
        alloc: Global,
        address: NodeId,
        code: u16,
        definitions: &[u8],
    ) -> Result<Station, StationFault>
        ensures made { IfOk result (λ station. (state : State)
            × IsNew address code definitions.now state × StandsFor station state) }
        ensures refused { IfErr result (IsRefused definitions.now) }
    {
        let read = match Definitions::read(alloc, definitions) {
            Ok(read) => read,
            Err(TdfFault::Memory) => return Err(StationFault::Memory),
            Err(fault) => return Err(StationFault::Tdf(fault)),
        };
        let tables = tables_of(alloc, &read)?;
        let Ok(device) = Device::new(alloc, address, code, definitions) else {
            return Err(StationFault::Memory);
        };
        Ok(Station { device, tables })
    }

    /// Whether the table is there and its records have so many field bytes.
    pub fn takes(&self, table: TableNo, len: usize) -> bool
        ensures { IsTrue result ↔ HasTable self.now.tables table.0 len }
    {
        match numbered(&self.tables, table) {
            Some(held) => held.layout().record_len as usize == len,
            None => false,
        }
    }

    /// Stores a record in a table: its time and its field bytes. Where the table is full its oldest record goes. `Spent`
    /// comes where 2^32 - 1 records were stored in the table. Takes no memory.
    pub fn store(&mut self, table: TableNo, time: Nsec, bytes: &[u8]) -> Result<RecNo, Spent>
        requires { HasTable self.old.tables table.0 (length bytes.now) }
        ensures { (state : State) → StandsFor self.old state
            → StationStores state table.0 (record { time = time; bytes = bytes.now }) self.old
            self.new result }
    {
        self.tables[usize::from(table.0) - 1].store(time, bytes)
    }

    /// Sets the clock.
    pub fn set_clock(&mut self, time: Nsec)
        ensures { (state : State) → StandsFor self.old state
            → StandsFor self.new (record state { device = record state.device { clock = time } }) }
    {
        self.device.set_clock(time);
    }

    /// Answers a packet. The reply is written to the front of `out`, as a packet. It takes no memory, and costs no more than
    /// the reply, except that a range of times looks through the records that are held.
    pub fn answer(
        &mut self,
        header: &Header,
        message: &[u8],
        out: &mut [u8; PACKET_MAX],
    ) -> Answered
        requires { FitsHeader header.now }
        ensures leaves { (state : State) → StandsFor self.old state
            → StandsFor self.new (state_after state (answer_of state header.now message.now)) }
        ensures says { (state : State) → StandsFor self.old state
            → let answer = answer_of state header.now message.now in
            IsSaid state.device.address header.now answer.says out.old out.new result }
        ensures within { FitsPacket result }
    {
        let dst = header.dst.get();
        if dst == BROADCAST {
            return Answered::Silent;
        }
        if dst != self.device.address().get() {
            return Answered::NotMine;
        }
        match header.proto {
            CTRL => self.device.answer_ctrl(header, message, out),
            BMP5 => answer_bmp5(&mut self.device, &self.tables, header, message, out),
            _ => fail(
                self.device.address(),
                header,
                UNKNOWN_PROTOCOL,
                message,
                out,
            ),
        }
    }
}
