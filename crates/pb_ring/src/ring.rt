//! A ring of the newest records of one table.
ghost use Rattle.std.specs.Prelude.{◌≡◌, ℕ, ◌+◌, ◌*◌, ◌≤◌, ◌↔◌, false, List, [], IsTrue, IfOk, length, take, drop, ◌++◌};
ghost use Rattle.pb_base.specs.World.{StoredRecord};
ghost use Rattle.pb_base.specs.Record.{content_len};
ghost use Rattle.pb_base.specs.Time.{time_bytes};
ghost use Rattle.pb_ring.specs.Ring.{Kept, oldest_of, IsHeld, StandsFor, Stores, CopiesPart, IsWithin};
ghost use Rattle.pb_ring.specs.Inside.{kept, IsRing};

use circular_buffer::HeapCircularBuffer;
use pb_base::{Layout, Memory, Nsec, RecNo};
use std::alloc::Global;
use std::marker::Model;

/// The most bytes of the contents that a ring holds.
pub const RING_BYTES_MAX: u32 = 67_108_864;

/// The number that is no record's: a ring whose next number it is stores no further one.
const LAST_NEXT: u32 = u32::MAX;

/// All record numbers of the table were used: 2^32 - 1 records were stored.
#[derive(Clone, Copy, Debug, PartialEq, Eq)]
pub struct Spent;

/// The newest records of one table, as many as its capacity, and the number that the next one gets. Numbers begin with 0.
/// The room for all contents is taken once, when it is made.
#[derive(Drop)]
pub struct Ring {
    record_len: u32,
    capacity: u32,
    next: u32,
    bytes: HeapCircularBuffer<u8, Global>,
}

impl Model for Ring {
    ghost Value = { Kept };

    ghost view = { kept };

    ghost invariant = { IsRing };
}

impl Ring {
    /// A ring without records, for records of this layout; takes memory.
    pub fn new(alloc: Global, layout: Layout, capacity: u32) -> Result<Ring, Memory>
        requires some { 1 ≤ capacity }
        requires few { capacity * content_len layout ≤ RING_BYTES_MAX }
        ensures made { IfOk result (λ ring. (ring.record_len ≡ layout.record_len)
            × (ring.capacity ≡ capacity)) }
        ensures stands { IfOk result (λ ring. StandsFor ring []) }
    {
        let room = capacity as usize * layout.content_len();
        let Ok(bytes) = HeapCircularBuffer::with_capacity(alloc, room) else {
            return Err(Memory);
        };
        Ok(Ring {
            record_len: layout.record_len,
            capacity,
            next: 0,
            bytes,
        })
    }

    /// Stores a record: its time and its field bytes. Where the ring is full the record of the lowest number goes. Its
    /// cost is that of one content, and it takes no memory.
    pub fn store(&mut self, time: Nsec, bytes: &[u8]) -> Result<RecNo, Spent>
        requires { length bytes.now ≡ self.old.record_len }
        ensures made { (self.new.record_len ≡ self.old.record_len)
            × (self.new.capacity ≡ self.old.capacity) }
        ensures stores { (all : List StoredRecord) → StandsFor self.old all
            → Stores all (record { time = time; bytes = bytes.now }) self.old self.new result }
    {
        if self.next == LAST_NEXT {
            return Err(Spent);
        }
        let number = RecNo(self.next);
        let room = self.bytes.capacity() - self.content_len();
        self.bytes.truncate_front(room);
        self.bytes.extend_from_slice(&time_bytes(time));
        self.bytes.extend_from_slice(bytes);
        self.next += 1;
        Ok(number)
    }

    /// The lowest number that is held; the next one where none is held.
    pub fn oldest(&self) -> RecNo
        ensures { result.0 ≡ oldest_of self.now }
    {
        RecNo(self.next.saturating_sub(self.capacity))
    }

    /// The number that the next record gets: as many records were stored.
    pub fn next(&self) -> RecNo
        ensures { result.0 ≡ self.now.next }
    {
        RecNo(self.next)
    }

    /// Copies a part of a record's content, its 8 time bytes and then its field bytes, from the place `offset` on, as
    /// many bytes as `out` has. False exactly where the number isn't held or the part passes the content. Its cost is
    /// that of the part.
    pub fn copy_into(&self, number: RecNo, offset: u32, out: &mut [u8]) -> bool
        ensures held { IsTrue result ↔ (IsHeld self.now number.0
            × IsWithin self.now offset (length out.old)) }
        ensures copied { (all : List StoredRecord) → StandsFor self.now all → IsTrue result
            → CopiesPart all number.0 offset (length out.old) out.new }
        ensures unchanged { result ≡ false → out.new ≡ out.old }
    {
        let oldest = self.oldest().0;
        if number.0 < oldest || number.0 >= self.next {
            return false;
        }
        let len = self.content_len();
        if out.len() > len || offset as usize > len - out.len() {
            return false;
        }
        let at = (number.0 - oldest) as usize * len + offset as usize;
        let (front, back) = self.bytes.as_slices();
        copy_joined(front, back, at, out);
        true
    }

    fn content_len(&self) -> usize
        ensures { result ≡ 8 + self.now.record_len }
    {
        8 + self.record_len as usize
    }
}

/// The bytes of a time, as they stand in a content.
fn time_bytes(time: Nsec) -> [u8; 8]
    ensures { result ≡ time_bytes time }
{
    let [a, b, c, d] = time.sec.cast_unsigned().to_be_bytes();
    let [e, f, g, h] = time.nano.cast_unsigned().to_be_bytes();
    [a, b, c, d, e, f, g, h]
}

/// Copies bytes of two slices that follow one another, from a place on, as many as `out` has.
fn copy_joined(front: &[u8], back: &[u8], at: usize, out: &mut [u8])
    requires { at + length out.old ≤ length front.now + length back.now }
    ensures { out.new ≡ take (length out.old) (drop at (front.now ++ back.now)) }
{
    if at >= front.len() {
        let from = at - front.len();
        out.copy_from_slice(&back[from..from + out.len()]);
    } else if out.len() <= front.len() - at {
        out.copy_from_slice(&front[at..at + out.len()]);
    } else {
        let split = front.len() - at;
        out[..split].copy_from_slice(&front[at..]);
        let left = out.len() - split;
        out[split..].copy_from_slice(&back[..left]);
    }
}
