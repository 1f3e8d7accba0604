//! Reading a journal's entries.
ghost use Rattle.std.specs.Prelude.{◌≡◌, ℕ, ◌<◌, ◌≤◌, [], List, IfSome, IfOk, IfErr, OnErr};
ghost use Rattle.std.specs.Option.{ForSome};
ghost use Rattle.pb_io.specs.Settled.{Leaves};
ghost use Rattle.pb_io.specs.Disk.{ReadsOnly};
ghost use Rattle.pb_journal.specs.Changes.{Same};
ghost use Rattle.pb_journal.specs.Inside.{FindsNext, IsAtHand, Peeks};
ghost use Rattle.pb_journal.specs.Reading.{Ahead, HasAhead, Moves, Reads, ReadsAll, ReadsFrom};
ghost use Rattle.pb_journal.specs.Refusals.{HasDiskCause, NextRefuses};
ghost use Rattle.pb_journal.specs.Window.{window_len, Shows};
ghost use Rattle.pb_journal.specs.Entries.{header_len};
ghost use Rattle.pb_io.specs.Crash.{max_file_len};

use crate::opening::HEADER;
use crate::walk::{Gate, LEAD, look};
use crate::window::{WINDOW, Window};
use crate::{Journal, JournalFault};
use pb_base::Memory;
use pb_io::Disk;
use std::alloc::Global;
use std::marker::Model;

// Brings the body of the entry at this place into the window, and answers its length; none where the entries end.
fn next_body<D: Disk>(
    window: &mut Window,
    disk: &mut D,
    place: u64,
    gate: u64,
) -> Result<Option<usize>, JournalFault>
    requires low { gate < max_file_len }
    requires room { window.old.held ≡ window_len }
    requires ahead { ForSome (D.view disk.old).file
        (λ f. (bodies : List (List ℕ)) × Ahead f place gate bodies) }
    requires shows { ForSome (D.view disk.old).file (Shows window.old) }
    ensures next { IfOk result (λ next. ForSome (D.view disk.old).file (FindsNext place gate next)) }
    ensures covers { IfOk result (λ next. IfSome next (IsAtHand window.new place gate)) }
    ensures refused { IfErr result (NextRefuses (D.view disk.old).file place) }
    ensures shows { ForSome (D.view disk.old).file (Shows window.new) }
    ensures held { window.new.held ≡ window.old.held }
    ensures peeks { Peeks (D.view disk.old) (D.view disk.new) }
    ensures cause { HasDiskCause (D.view disk.old).faults (D.view disk.new).faults result }
{
    if place >= gate {
        return Ok(None);
    }
    let Gate::Open(size) = look(window, disk, place, gate + 1)? else {
        return Err(JournalFault::Format { at: place });
    };
    if size >= WINDOW {
        return Err(JournalFault::Format { at: place });
    }
    window.fill(disk, place + LEAD as u64, size, gate)?;
    Ok(Some(size))
}

/// Reads the entries of a journal one after the other, through 65,536 bytes of its file.
#[derive(Drop)]
pub struct Entries {
    window: Window,
    place: u64,
    // how long the body is that was read last, which ends at `place`; 0 where there is none
    size: usize,
}

impl Model for Entries {
    ghost use Rattle.std.specs.Prelude.{◌≡◌};
    ghost use Rattle.pb_journal.specs.Reading.{Reading, reading, IsBodyOf};
    ghost use Rattle.pb_journal.specs.Window.{window_len};

    ghost Value = { Reading };

    ghost view = { λ e. reading e.window e.place e.size };

    ghost invariant = { λ e. (e.window.held ≡ window_len) × IsBodyOf e.window e.place e.size };
}

impl Entries {
    /// From the first entry on. Takes memory.
    pub fn start(alloc: Global) -> Result<Entries, Memory>
        ensures place { IfOk result (λ e. e.place ≡ header_len) }
        ensures held { IfOk result (λ e. e.chunk.held ≡ window_len) }
        ensures reads { IfOk result ReadsAll }
    {
        Ok(Entries {
            window: Window::new(alloc)?,
            place: HEADER.len() as u64,
            size: 0,
        })
    }

    /// From the gate at this place on, which is an entry's or the one that ends the entries. Takes memory.
    pub fn at(alloc: Global, journal: &Journal, place: u64) -> Result<Entries, Memory>
        requires { place ≤ journal.now.gate }
        ensures place { IfOk result (λ e. e.place ≡ place) }
        ensures held { IfOk result (λ e. e.chunk.held ≡ window_len) }
        ensures reads { IfOk result (ReadsFrom place journal.now.gate) }
    {
        Ok(Entries {
            window: Window::new(alloc)?,
            place,
            size: 0,
        })
    }

    /// The place of the next entry's gate, or of the gate that ends the entries.
    pub fn place(&self) -> u64
        ensures { result ≡ self.now.place }
    {
        self.place
    }

    /// The body that was read last; no bytes where the last `next` answered false or was refused.
    pub fn body(&self) -> &[u8]
        ensures { result.now ≡ self.now.body }
    {
        if self.size == 0 {
            return &[];
        }
        self.window.bytes(self.place - self.size as u64, self.size)
    }

    /// Reads the next entry; false where there is none. The file is the one on which the journal was opened, and
    /// earlier calls of this value read it too. `Format` comes at the gate of an entry that can't be read any more,
    /// which comes only over a disk that doesn't report its file.
    pub fn next<D: Disk>(&mut self, journal: &Journal, disk: &mut D) -> Result<bool, JournalFault>
        requires { ForSome (D.view disk.old).file (HasAhead self.old journal.now.gate) }
        ensures read { Reads self.old self.new journal.now.gate (D.view disk.old).file result }
        ensures refused { IfErr result (NextRefuses (D.view disk.old).file self.old.place) }
        ensures moves { IfOk result (Moves self.old self.new journal.now.gate) }
        ensures stays { OnErr result ((self.new.place ≡ self.old.place) × (self.new.body ≡ [])) }
        ensures held { self.new.chunk.held ≡ self.old.chunk.held }
        ensures disk { ReadsOnly (D.view disk.old) (D.view disk.new) }
        ensures leaves { Leaves Same (D.view disk.old) (D.view disk.new) }
        ensures link { (D.view disk.new).link ≡ (D.view disk.old).link }
        ensures cause { HasDiskCause (D.view disk.old).faults (D.view disk.new).faults result }
    {
        self.size = 0;
        match next_body(&mut self.window, disk, self.place, journal.gate()) {
            Ok(None) => Ok(false),
            Ok(Some(size)) => {
                self.place += (LEAD + size) as u64;
                self.size = size;
                Ok(true)
            }
            Err(fault) => Err(fault),
        }
    }
}
