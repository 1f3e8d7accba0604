//! Text on its way to a sink, gathered in pages.
ghost use Rattle.std.specs.Prelude.{◌≡◌, ◌≤◌, ◌+◌, ◌++◌, [], true, length, take, decimal, MatchResult};
ghost use Rattle.pb_io.specs.Page.{Adds, blank, printing, part_text, parts_text};

use crate::{Failed, Sink, put_all};
use std::marker::Model;

/// How many bytes a page holds.
const PAGE: usize = 65_536;

/// A part of a text.
#[derive(Clone, Copy, Debug)]
pub enum Part<'a> {
    /// The bytes as they are.
    Text(&'a [u8]),
    /// A number in decimal.
    Number(u64),
    /// A number in decimal, with a minus where it is below 0.
    Signed(i32),
}

/// Text on its way to a sink: a page of it is gathered and then written. It goes on over a failed write, after which
/// nothing more is written; `flush` tells of it. All calls of one page take the same sink.
#[derive(Drop)]
pub struct Page {
    bytes: [u8; PAGE],
    len: usize,
    has_failed: bool,
}

impl Model for Page {
    ghost use Rattle.std.specs.Prelude.{◌≤◌, take};
    ghost use Rattle.pb_io.specs.Page.{Waiting};

    ghost Value = { Waiting };

    ghost view = { λ p. record { text = take p.len p.bytes; failed = p.has_failed } };

    ghost invariant = { λ p. p.len ≤ 65536 };
}

impl Page {
    pub fn new() -> Page
        ensures { result ≡ blank }
    {
        Page {
            bytes: [0; PAGE],
            len: 0,
            has_failed: false,
        }
    }

    /// Adds the bytes as they are, of any length.
    #[inline]
    pub fn push<O: Sink>(&mut self, text: &[u8], out: &mut O)
        ensures { Adds text.now (printing O.Sink self.old out.old) (printing O.Sink self.new out.new) }
    {
        if text.len() > PAGE - self.len {
            self.push_over(text, out);
            return;
        }
        self.gather(text);
    }

    /// Adds a number in decimal.
    pub fn push_decimal<O: Sink>(&mut self, n: u64, out: &mut O)
        ensures { Adds (decimal n) (printing O.Sink self.old out.old) (printing O.Sink self.new out.new) }
    {
        if n < 10 {
            self.push(&[b'0' + n as u8], out);
            return;
        }
        self.push(itoa::Buffer::new().format(n).as_bytes(), out);
    }

    /// Adds the parts one after another.
    pub fn put<O: Sink>(&mut self, parts: &[Part], out: &mut O)
        ensures { Adds (parts_text parts.now) (printing O.Sink self.old out.old)
            (printing O.Sink self.new out.new) }
    {
        for part in parts {
            self.push_part(*part, out);
        }
    }

    /// Writes what was gathered; whether all that was added has been written.
    pub fn flush<O: Sink>(&mut self, out: &mut O) -> Result<(), Failed>
        ensures adds { Adds [] (printing O.Sink self.old out.old) (printing O.Sink self.new out.new) }
        ensures whole { MatchResult result (λ _. self.new ≡ blank) (λ _. self.new.failed ≡ true) }
    {
        self.turn(out);
        if self.has_failed {
            return Err(Failed);
        }
        Ok(())
    }

    fn push_part<O: Sink>(&mut self, part: Part, out: &mut O)
        ensures { Adds (part_text part.entry) (printing O.Sink self.old out.old)
            (printing O.Sink self.new out.new) }
    {
        match part {
            Part::Text(text) => self.push(text, out),
            Part::Number(n) => self.push_decimal(n, out),
            Part::Signed(n) => self.push(itoa::Buffer::new().format(n).as_bytes(), out),
        }
    }

    // Adds a text for which this page has no room.
    #[inline(never)]
    fn push_over<O: Sink>(&mut self, text: &[u8], out: &mut O)
        ensures { Adds text.now (printing O.Sink self.old out.old) (printing O.Sink self.new out.new) }
    {
        self.turn(out);
        if text.len() > PAGE {
            self.write_through(text, out);
            return;
        }
        self.gather(text);
    }

    // Writes what was gathered, and begins the page anew.
    fn turn<O: Sink>(&mut self, out: &mut O)
        ensures adds { Adds [] (printing O.Sink self.old out.old) (printing O.Sink self.new out.new) }
        ensures clear { self.new.text ≡ [] }
    {
        if !self.has_failed && put_all(out, &self.bytes[..self.len]).is_err() {
            self.has_failed = true;
        }
        self.len = 0;
    }

    // Writes a text that no page holds; nothing was gathered before it.
    fn write_through<O: Sink>(&mut self, text: &[u8], out: &mut O)
        requires { self.old.text ≡ [] }
        ensures { Adds text.now (printing O.Sink self.old out.old) (printing O.Sink self.new out.new) }
    {
        if !self.has_failed && put_all(out, text).is_err() {
            self.has_failed = true;
        }
    }

    // Adds a text for which there is room.
    fn gather(&mut self, text: &[u8])
        requires { length self.old.text + length text.now ≤ 65536 }
        ensures { self.new ≡ record self.old { text = self.old.text ++ text.now } }
    {
        let end = self.len + text.len();
        self.bytes[self.len..end].copy_from_slice(text);
        self.len = end;
    }
}
