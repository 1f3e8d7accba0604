//! One table of a station.
ghost use Rattle.std.specs.Prelude.{◌≡◌, ◌*◌, ◌≤◌, List, [], IfOk, length};
ghost use Rattle.pb_base.specs.World.{StoredRecord};
ghost use Rattle.pb_base.specs.Record.{content_len};
ghost use Rattle.pb_ring.specs.Ring.{StandsFor, Stores};
ghost use Rattle.pb_station.specs.State.{KeptTable};
ghost use Rattle.pb_station.specs.Inside.Table.{table_view, IsTable};
ghost use Rattle.pb_station.specs.Inside.Steps.{KeepsTable};

use pb_base::{Layout, Memory, Nsec, RecNo};
use pb_ring::{RING_BYTES_MAX, Ring, Spent};
use std::alloc::Global;
use std::marker::Model;

/// A table: the signature and the layout of its definition, and the ring of its records.
#[derive(Drop)]
pub(crate) struct HeldTable {
    signature: u16,
    layout: Layout,
    ring: Ring,
}

impl Model for HeldTable {
    ghost Value = { KeptTable };

    ghost view = { table_view };

    ghost invariant = { IsTable };
}

impl HeldTable {
    /// A table without records, which holds at most so many; takes memory.
    pub(crate) fn new(
        alloc: Global,
        signature: u16,
        layout: Layout,
        size: u32,
    ) -> Result<HeldTable, Memory>
        requires some { 1 ≤ size }
        requires few { size * content_len layout ≤ RING_BYTES_MAX }
        ensures made { IfOk result (λ table. (table.signature ≡ signature) × (table.layout ≡ layout)) }
        ensures size { IfOk result (λ table. table.ring.capacity ≡ size) }
        ensures record_len { IfOk result (λ table. table.ring.record_len ≡ layout.record_len) }
        ensures empty { IfOk result (λ table. StandsFor table.ring []) }
    {
        Ok(HeldTable {
            signature,
            layout,
            ring: Ring::new(alloc, layout, size)?,
        })
    }

    /// The signature of its definition.
    pub(crate) fn signature(&self) -> u16
        ensures { result ≡ self.now.signature }
    {
        self.signature
    }

    /// How its records are cut.
    pub(crate) fn layout(&self) -> Layout
        ensures value { result ≡ self.now.layout }
        ensures short { content_len result ≤ RING_BYTES_MAX }
    {
        self.layout
    }

    /// The ring of its records.
    pub(crate) fn ring(&self) -> &Ring
        ensures value { result.now ≡ self.now.ring }
        ensures record_len { self.now.ring.record_len ≡ self.now.layout.record_len }
    {
        &self.ring
    }

    /// Stores a record.
    pub(crate) fn store(&mut self, time: Nsec, bytes: &[u8]) -> Result<RecNo, Spent>
        requires { length bytes.now ≡ self.old.layout.record_len }
        ensures keeps { KeepsTable self.old self.new }
        ensures stores { (all : List StoredRecord) → StandsFor self.old.ring all
            → Stores all (record { time = time; bytes = bytes.now }) self.old.ring self.new.ring result }
    {
        self.ring.store(time, bytes)
    }
}
