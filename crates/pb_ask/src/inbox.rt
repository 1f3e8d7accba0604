//! The bytes that came of one call of the link, and weren't judged yet.
ghost use Rattle.std.specs.Prelude.{◌≡◌, ◌==◌, ℕ, ◌<◌, ◌≤◌, List, [], length, drop, IfOk, OnErr, MatchResult};
ghost use Rattle.pb_io.specs.ChangeLog.{arrival};
ghost use Rattle.pb_io.specs.Disk.{ReadsOnly};
ghost use Rattle.pb_io.specs.Faults.{HasCause, counted};
ghost use Rattle.pb_io.specs.Site.{GrowsBy};
ghost use Rattle.pb_io.specs.View.{Elapses};

use pb_io::{Failed, Site};
use std::marker::Model;

/// How many bytes are asked of the link at once.
pub const CHUNK: usize = 4096;

/// What came of one call, from the first byte that wasn't judged on.
#[derive(Drop)]
pub(crate) struct Inbox {
    chunk: [u8; CHUNK],
    at: usize,
    len: usize,
}

impl Model for Inbox {
    ghost use Rattle.std.specs.Prelude.{◌-◌, ◌≤◌, List, ℕ, take, drop};

    ghost Value = { List ℕ };

    ghost view = { λ b. take (b.len - b.at) (drop b.at b.chunk) };

    ghost invariant = { λ b. (b.at ≤ b.len) × (b.len ≤ 4096) };
}

impl Inbox {
    pub fn new() -> Inbox
        ensures { result ≡ [] }
    {
        Inbox {
            chunk: [0; CHUNK],
            at: 0,
            len: 0,
        }
    }

    pub fn is_empty(&self) -> bool
        ensures value { result ≡ (length self.now == 0) }
        ensures few { length self.now ≤ 4096 }
    {
        self.at == self.len
    }

    /// The bytes, at most 4,096.
    pub fn bytes(&self) -> &[u8]
        ensures value { result.now ≡ self.now }
        ensures few { length self.now ≤ 4096 }
    {
        &self.chunk[self.at..self.len]
    }

    /// Drops the first `n`.
    pub fn skip(&mut self, n: usize)
        requires { n ≤ length self.old }
        ensures { self.new ≡ drop n self.old }
    {
        self.at += n;
    }

    /// Takes what comes of one call of the link in place of what was there, and answers how many bytes it is; none is a
    /// quiet tick.
    pub fn fill<S: Site>(&mut self, site: &mut S) -> Result<usize, Failed>
        ensures count { IfOk result (λ n. n ≡ length self.new) }
        ensures few { length self.new ≤ 4096 }
        ensures nothing { OnErr result (self.new ≡ []) }
        ensures world { MatchResult result
            (λ _. GrowsBy (S.view site.old).link.world (S.view site.new).link.world (arrival self.new))
            (λ _. GrowsBy (S.view site.old).link.world (S.view site.new).link.world []) }
        ensures tick { IfOk result (λ n. n ≡ 0
            → (S.view site.new).link.quiets ≡ counted (S.view site.old).link.quiets) }
        ensures no_tick { IfOk result (λ n. 0 < n
            → (S.view site.new).link.quiets ≡ (S.view site.old).link.quiets) }
        ensures still { OnErr result ((S.view site.new).link.quiets ≡ (S.view site.old).link.quiets) }
        ensures disk { ReadsOnly (S.view site.old) (S.view site.new) }
        ensures disk_faults { (S.view site.new).faults ≡ (S.view site.old).faults }
        ensures time { Elapses (S.view site.old) (S.view site.new) }
        ensures cause { HasCause (S.view site.old).link.faults (S.view site.new).link.faults result }
    {
        self.at = 0;
        self.len = 0;
        let n = site.recv(&mut self.chunk)?;
        self.len = n;
        Ok(n)
    }
}
