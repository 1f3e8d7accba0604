//! A window on a file: its bytes at a place, refilled as needed.
ghost use Rattle.std.specs.Prelude.{◌≡◌, ◌+◌, ◌-◌, ◌≤◌, min, [], length, take, drop, IfOk, OnOk};
ghost use Rattle.std.specs.Option.{ForSome};
ghost use Rattle.pb_io.specs.Faults.{HasCause};
ghost use Rattle.pb_journal.specs.Inside.{Peeks};
ghost use Rattle.pb_journal.specs.Window.{window_len, Covers, Shows};

use pb_base::Memory;
use pb_io::{Disk, Failed};
use std::alloc::Global;
use std::marker::Model;

/// How many bytes of a file are kept in memory at most.
pub(crate) const WINDOW: usize = 65_536;

// Reads as many bytes as there is room for, from `at` on and up to `end`, and answers how many.
fn read_chunk<D: Disk>(disk: &mut D, at: u64, room: &mut [u8], end: u64) -> Result<usize, Failed>
    requires within { at ≤ end }
    requires file { ForSome (D.view disk.old).file (λ f. end ≤ length f) }
    ensures count { IfOk result (λ n. n ≡ min (end - at) (length room.old)) }
    ensures bytes { IfOk result (λ n. ForSome (D.view disk.old).file
        (λ f. take n room.new ≡ take n (drop at f))) }
    ensures peeks { Peeks (D.view disk.old) (D.view disk.new) }
    ensures cause { HasCause (D.view disk.old).faults (D.view disk.new).faults result }
{
    let n = (end - at).min(room.len() as u64) as usize;
    disk.read_at(at, &mut room[..n])?;
    Ok(n)
}

/// The bytes of a file at a place, at most as many as there is room for.
#[derive(Drop)]
pub(crate) struct Window {
    room: Vec<u8>,
    at: u64,
    len: usize,
}

impl Model for Window {
    ghost use Rattle.std.specs.Prelude.{◌≤◌, take, vec_len};
    ghost use Rattle.pb_journal.specs.Window.{Chunk};

    ghost Value = { Chunk };

    ghost view = { λ w. record { at = w.at; bytes = take w.len w.room.items; held = vec_len w.room } };

    ghost invariant = { λ w. w.len ≤ vec_len w.room };
}

impl Window {
    /// A window with room for 65,536 bytes, and none in it.
    pub(crate) fn new(alloc: Global) -> Result<Window, Memory>
        ensures { IfOk result (λ w. w ≡ record { at = 0; bytes = []; held = window_len }) }
    {
        Ok(Window {
            room: vec![in alloc; 0; WINDOW].map_err(|_| Memory)?,
            at: 0,
            len: 0,
        })
    }

    /// Brings so many bytes from `at` on into the window. Where they aren't there, it reads as many as there is room
    /// for, up to `end`.
    pub(crate) fn fill<D: Disk>(
        &mut self,
        disk: &mut D,
        at: u64,
        count: usize,
        end: u64,
    ) -> Result<(), Failed>
        requires room { count ≤ self.old.held }
        requires end { at + count ≤ end }
        requires file { ForSome (D.view disk.old).file (λ f. end ≤ length f) }
        ensures covers { OnOk result (Covers self.new at count) }
        ensures shows { ForSome (D.view disk.old).file (λ f. Shows self.old f → Shows self.new f) }
        ensures held { self.new.held ≡ self.old.held }
        ensures peeks { Peeks (D.view disk.old) (D.view disk.new) }
        ensures cause { HasCause (D.view disk.old).faults (D.view disk.new).faults result }
    {
        if self.at <= at && at - self.at + count as u64 <= self.len as u64 {
            return Ok(());
        }
        self.len = 0;
        self.len = read_chunk(disk, at, &mut self.room, end)?;
        self.at = at;
        Ok(())
    }

    /// So many bytes from `at` on.
    pub(crate) fn bytes(&self, at: u64, count: usize) -> &[u8]
        requires { Covers self.now at count }
        ensures value { result.now ≡ take count (drop (at - self.now.at) self.now.bytes) }
        ensures size { length result.now ≡ count }
    {
        let from = (at - self.at) as usize;
        &self.room[from..from + count]
    }
}
