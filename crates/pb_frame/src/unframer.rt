//! Hearing the pieces of a framed stream.
ghost use Rattle.std.specs.Prelude.{◌≡◌, ◌==◌, ℕ, ◌+◌, ◌*◌, ◌^◌, ◌<◌, ◌≤◌, List, [], ◌∷◌, ◌++◌, length, take, slice_index, All, IsSome, is_some};
ghost use Rattle.pb_frame.specs.Framing.{body_max, flag, IsPlain, IsContentSize, verdicts, unfinished};
ghost use Rattle.pb_frame.specs.Hearing.{StandsFor, Follows, shown, IsAnswered, HoldsContent, HasNoFlag, EndsRun, hearing};
ghost use Rattle.pb_frame.specs.Turn.{kept, ended, gone_on, begun, unquoted_by, passed, turned};

use crate::limits::{BODY_MAX, FLAG, QUOTE, QUOTED_BY, QUOTED_FLAG, QUOTED_QUOTE, START};
use crate::run::copy_plain;
use crate::signing::Signer;
use crate::state::State;
use crate::{Heard, Why};
use std::marker::Model;

/// Takes a stream of bytes one at a time, and answers a verdict for each piece as soon as it has one. It keeps the
/// body of one piece, at most 1,010 bytes, and none of the stream.
#[derive(Drop)]
pub struct Unframer {
    state: State,
    count: u64,
    piece: u64,
    signer: Signer,
    length: usize,
    body: [u8; BODY_MAX],
}

impl Model for Unframer {
    ghost use Rattle.std.specs.Prelude.{take};
    ghost use Rattle.pb_frame.specs.Hearing.{Hearing, hearing};

    ghost Value = { Hearing };

    ghost use Rattle.pb_frame.specs.Inside.{IsUnframer};

    ghost view = { λ u. hearing u.state u.count u.piece (take u.length u.body) };

    ghost invariant = { IsUnframer };
}

impl Unframer {
    /// An unframer to which nothing was pushed.
    pub fn new() -> Unframer
        ensures stands { StandsFor result [] }
        ensures verdicts { verdicts [] ≡ [] }
        ensures unfinished { unfinished [] ≡ None }
        ensures count { result.count ≡ 0 }
    {
        Unframer {
            state: State::Skipping,
            count: 0,
            piece: 0,
            signer: Signer::new(START),
            length: 0,
            body: [0; BODY_MAX],
        }
    }

    /// Takes one byte, and answers the verdict that it shows. Fewer than 2^62 bytes were taken before.
    pub fn push(&mut self, byte: u8) -> Heard
        requires { self.old.count < 2 ^ 62 }
        ensures follows { Follows self.old (byte ∷ []) (shown self.new result) self.new }
        ensures count { self.new.count ≡ self.old.count + 1 }
        ensures kept { length self.new.body ≤ body_max }
        ensures answer { IsAnswered self.new result }
    {
        match self.state {
            State::Skipping => self.pass(byte),
            State::Between | State::Whole => self.begin(byte),
            State::Plain => self.go_on(byte),
            State::Quoting => self.unquote(byte),
        }
    }

    /// Takes a prefix of `bytes` that shows no verdict, and answers how many bytes that were. In a piece it goes on to
    /// the next flag byte or quote byte, and in what is passed over to the next flag byte; after a flag byte or a
    /// quote byte it takes none, and all is as before: a content that was just heard may still be asked for. `push`
    /// takes the byte at which it stops.
    pub fn take_plain(&mut self, bytes: &[u8]) -> usize
        requires { self.old.count + length bytes.now ≤ 2 ^ 62 }
        ensures front { result ≤ length bytes.now }
        ensures follows { Follows self.old (take result bytes.now) [] self.new }
        ensures none { result ≡ 0 → self.new ≡ self.old }
        ensures piece { self.new.piece ≡ self.old.piece }
        ensures count { self.new.count ≡ self.old.count + result }
        ensures kept { length self.new.body ≤ body_max }
        ensures end { result < length bytes.now
            → EndsRun self.old.state self.old.body result (slice_index bytes.now result) }
    {
        match self.state {
            State::Plain => self.take_body(bytes),
            State::Skipping => self.skip(bytes),
            _ => 0,
        }
    }

    /// Where the piece in progress began or, right after a verdict, where the judged piece began.
    pub fn piece(&self) -> u64
        ensures value { result ≡ self.now.piece }
        ensures open { (pushed : List ℕ) → StandsFor self.now pushed → IsSome (unfinished pushed)
            → unfinished pushed ≡ Some result }
    {
        self.piece
    }

    /// Whether the piece after the last flag byte has bytes and no verdict yet.
    pub fn pending(&self) -> bool
        ensures { (pushed : List ℕ) → StandsFor self.now pushed → is_some (unfinished pushed) ≡ result }
    {
        matches!(self.state, State::Plain | State::Quoting)
    }

    /// Right after a push that answered `Body`, that body less the two bytes of its nullifier: 4 bytes, or 8 to 1,008.
    pub fn content(&self) -> &[u8]
        requires { HoldsContent self.now }
        ensures value { result.now ≡ self.now.content }
        ensures size { IsContentSize (length result.now) }
    {
        &self.body[..self.length - 2]
    }

    // A byte of what is passed over.
    fn pass(&mut self, byte: u8) -> Heard
        requires { self.old.count < 2 ^ 62 }
        ensures after { self.new ≡ (passed self.old byte).after }
        ensures heard { result ≡ (passed self.old byte).heard }
    {
        self.count += 1;
        if byte == FLAG {
            self.state = State::Between;
        } else {
            self.state = State::Skipping;
        }
        Heard::Nothing
    }

    // A byte behind a flag byte: a further flag byte, or the first byte of a piece.
    fn begin(&mut self, byte: u8) -> Heard
        requires { self.old.count < 2 ^ 62 }
        ensures after { self.new ≡ (begun self.old byte).after }
        ensures heard { result ≡ (begun self.old byte).heard }
    {
        if byte == FLAG {
            self.state = State::Between;
            self.count += 1;
            return Heard::Nothing;
        }
        self.state = State::Plain;
        self.piece = self.count;
        self.length = 0;
        self.signer = Signer::new(START);
        self.go_on(byte)
    }

    // A byte of a piece that isn't behind the quote byte.
    fn go_on(&mut self, byte: u8) -> Heard
        requires { self.old.count < 2 ^ 62 }
        ensures after { self.new ≡ (gone_on self.old byte).after }
        ensures heard { result ≡ (gone_on self.old byte).heard }
    {
        if byte == FLAG {
            self.end()
        } else if byte == QUOTE {
            self.state = State::Quoting;
            self.count += 1;
            Heard::Nothing
        } else {
            self.keep(byte)
        }
    }

    // A byte behind the quote byte.
    fn unquote(&mut self, byte: u8) -> Heard
        requires { self.old.count < 2 ^ 62 }
        ensures after { self.new ≡ (unquoted_by self.old byte).after }
        ensures heard { result ≡ (unquoted_by self.old byte).heard }
    {
        // One question for both, so that a processor needn't guess which of them comes.
        if matches!(byte, QUOTED_FLAG | QUOTED_QUOTE) {
            return self.keep(byte - QUOTED_BY);
        }
        self.state = if byte == FLAG {
            State::Between
        } else {
            State::Skipping
        };
        self.bad(Why::Quote)
    }

    // One more body byte.
    fn keep(&mut self, byte: u8) -> Heard
        requires { self.old.count < 2 ^ 62 }
        ensures after { self.new ≡ (kept self.old byte).after }
        ensures heard { result ≡ (kept self.old byte).heard }
    {
        if self.length >= BODY_MAX {
            self.state = State::Skipping;
            return self.bad(Why::Long);
        }
        self.body[self.length] = byte;
        self.length += 1;
        self.signer = self.signer.step(byte);
        self.state = State::Plain;
        self.count += 1;
        Heard::Nothing
    }

    // The flag byte that ends a piece.
    fn end(&mut self) -> Heard
        requires { self.old.count < 2 ^ 62 }
        ensures after { self.new ≡ (ended self.old).after }
        ensures heard { result ≡ (ended self.old).heard }
    {
        self.state = State::Between;
        if self.length < 10 && self.length != 6 {
            return self.bad(Why::Short);
        }
        if !self.signer.is_zero() {
            return self.bad(Why::Signature);
        }
        self.state = State::Whole;
        self.count += 1;
        Heard::Body { at: self.piece }
    }

    // The pushed byte is where the piece goes wrong.
    fn bad(&mut self, why: Why) -> Heard
        requires { self.old.count < 2 ^ 62 }
        ensures after { self.new ≡ (turned self.old self.old.state (Heard.Bad self.old.count why)).after }
        ensures heard { result ≡ Heard.Bad self.old.count why }
    {
        let at = self.count;
        self.count += 1;
        Heard::Bad { at, why }
    }

    // Body bytes that stand for themselves, as far as there is room for them.
    fn take_body(&mut self, bytes: &[u8]) -> usize
        requires state { self.old.state ≡ State.Plain }
        requires count { self.old.count + length bytes.now ≤ 2 ^ 62 }
        ensures front { result ≤ length bytes.now }
        ensures plain { All IsPlain (take result bytes.now) }
        ensures room { length self.old.body + result ≤ 1010 }
        ensures end { result < length bytes.now → IsPlain (slice_index bytes.now result)
            → length self.old.body + result ≡ 1010 }
        ensures after { self.new ≡ hearing self.old.state (self.old.count + result) self.old.piece
            (self.old.body ++ take result bytes.now) }
    {
        let n = copy_plain(bytes, &mut self.body[self.length..], &mut self.signer);
        self.length += n;
        self.count += n as u64;
        n
    }

    // Bytes up to the next flag byte.
    fn skip(&mut self, bytes: &[u8]) -> usize
        requires { self.old.count + length bytes.now ≤ 2 ^ 62 }
        ensures front { result ≤ length bytes.now }
        ensures no_flag { HasNoFlag (take result bytes.now) }
        ensures end { result < length bytes.now → slice_index bytes.now result ≡ flag }
        ensures after { self.new ≡ hearing self.old.state (self.old.count + result) self.old.piece
            self.old.body }
    {
        let n = bytes
            .iter()
            .position(|byte| *byte == FLAG)
            .unwrap_or(bytes.len());
        self.count += n as u64;
        n
    }
}
