//! The chunks that a site in memory is to hear.
ghost use Rattle.std.specs.Prelude.{◌≡◌, ◌≤◌, [], ◌∷◌, ◌++◌, length, OnOk, OnErr};
ghost use Rattle.pb_io.specs.Inbox.{next_chunk, without};

use std::alloc::{AllocError, Global};
use std::collections::VecDeque;
use std::marker::Model;

#[derive(Drop)]
pub struct Inbox {
    chunks: VecDeque<Vec<u8>>,
    // how much of the first chunk was given
    at: usize,
}

impl Model for Inbox {
    ghost use Rattle.std.specs.Prelude.{◌≤◌, List, ℕ, length};

    ghost Value = { List (List ℕ) };

    ghost use Rattle.pb_io.specs.Inbox.{waiting, next_chunk};

    ghost view = { λ b. waiting b.at b.chunks.items };

    ghost invariant = { λ b. b.at ≤ length (next_chunk (waiting 0 b.chunks.items)) };
}

impl Inbox {
    pub fn new(alloc: Global) -> Inbox
        ensures { result ≡ [] }
    {
        Inbox {
            chunks: VecDeque::new(alloc),
            at: 0,
        }
    }

    /// Puts a chunk after the others.
    pub fn push(&mut self, alloc: Global, chunk: &[u8]) -> Result<(), AllocError>
        ensures added { OnOk result (self.new ≡ self.old ++ chunk.now ∷ []) }
        ensures same { OnErr result (self.new ≡ self.old) }
    {
        self.chunks.push_back(Vec::from_slice(alloc, chunk)?)?;
        Ok(())
    }

    /// What is left of the next chunk; no bytes where there is none.
    pub fn next(&self) -> &[u8]
        ensures { result.now ≡ next_chunk self.now }
    {
        match self.chunks.front() {
            Some(chunk) => &chunk[self.at..],
            None => &[],
        }
    }

    /// Takes the first bytes of the next chunk, and with its last byte the chunk.
    pub fn take(&mut self, n: usize)
        requires { n ≤ length (next_chunk self.old) }
        ensures { self.new ≡ without n self.old }
    {
        if n == self.next().len() {
            self.chunks.pop_front();
            self.at = 0;
        } else {
            self.at += n;
        }
    }
}
