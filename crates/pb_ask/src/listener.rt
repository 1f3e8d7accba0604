//! The hearing side of a link, and the requests over it.
ghost use Rattle.std.specs.Prelude.{◌≡◌, ℕ, ◌+◌, ◌^◌, ◌<◌, ◌≤◌, List, [], ◌∷◌, length, take, drop, None, Some, IfOk, OnOk, OnErr};
ghost use Rattle.pb_frame.specs.Hearing.{HoldsContent, StandsFor};
ghost use Rattle.pb_io.specs.Faults.{HasCause};
ghost use Rattle.pb_ask.specs.Asking.{Asks, Stops};
ghost use Rattle.pb_ask.specs.Events.{Passes};
ghost use Rattle.pb_ask.specs.Inside.{Judged, Listens, ListensInVain};
ghost use Rattle.pb_ask.specs.Wanted.{EndsBy};
ghost use Rattle.pb_trans.specs.Waiting.{after_sending};

use crate::inbox::Inbox;
use crate::judging::{conclusion_of, count, judge_content};
use crate::question::{Conclusion, Ended, Question};
use pb_frame::{FRAME_MAX, Heard, Unframer};
use pb_io::{Failed, Site};
use pb_trans::{Exchange, Limits, Step};
use std::marker::Model;

/// The unframer of a link, and the bytes that came and weren't judged yet.
#[derive(Drop)]
pub struct Listener {
    ear: Unframer,
    inbox: Inbox,
}

impl Model for Listener {
    ghost use Rattle.pb_ask.specs.Listening.{Listening};

    ghost Value = { Listening };

    ghost view = { λ l. record { ear = l.ear; inbox = l.inbox } };
}

impl Listener {
    /// A link of which nothing was heard.
    pub fn new() -> Listener
        ensures nothing { result.inbox ≡ [] }
        ensures stands { StandsFor result.ear [] }
        ensures count { result.ear.count ≡ 0 }
    {
        Listener {
            ear: Unframer::new(),
            inbox: Inbox::new(),
        }
    }

    /// Asks a site: sends the request, and again where its quiet ticks are over, and listens for its answer within the
    /// limits. What came after the frame that ended the request before is judged first, and isn't counted. A please-wait
    /// of the station for this request sets the quiet ticks that are still to be heard anew.
    pub fn ask<S: Site, Q: Question>(
        &mut self,
        site: &mut S,
        limits: Limits,
        question: &Q,
    ) -> Result<Conclusion<Q::Answer>, Failed>
        requires sends { 1 ≤ limits.sends }
        requires quiets { 1 ≤ limits.quiets }
        requires count { self.old.ear.count ≤ 2 ^ 61 }
        ensures asks { IfOk result
            (λ conclusion. Asks (Q.wanted question.now) limits self.old (S.view site.old).link conclusion self.new
            (S.view site.new).link) }
        ensures stops { OnErr result
            (Stops (Q.wanted question.now) limits self.old (S.view site.old).link self.new (S.view site.new).link) }
        ensures passes { Passes (Q.wanted question.now).frame limits.sends (S.view site.old)
            (S.view site.new) }
        ensures cause { HasCause (S.view site.old).link.faults (S.view site.new).link.faults result }
        ensures count { self.new.ear.count ≤ self.old.ear.count + 2 ^ 25 }
    {
        let mut frame = [0; FRAME_MAX];
        let len = question.write(&mut frame);
        let mut exchange = Exchange::begin(question.asked(), limits);
        loop {
            site.send(&frame[..len])?;
            if let Some(conclusion) = self.listen(site, &mut exchange, question)? {
                return Ok(conclusion);
            }
        }
    }

    /// Right after `ask` answered with an answer, the message that means it.
    pub fn message(&self) -> &[u8]
        requires holds { HoldsContent self.now.ear }
        requires full { 8 ≤ length self.now.ear.content }
        ensures { result.now ≡ drop 8 self.now.ear.content }
    {
        &self.ear.content()[8..]
    }

    // Listens after a sending; `None` where the request is to be sent again.
    fn listen<S: Site, Q: Question>(
        &mut self,
        site: &mut S,
        exchange: &mut Exchange,
        question: &Q,
    ) -> Result<Option<Conclusion<Q::Answer>>, Failed>
        requires begun { exchange.old ≡ after_sending (Q.wanted question.now).asked
            exchange.old.limits exchange.old.sent }
        requires sent { 1 ≤ exchange.old.sent }
        requires some { 1 ≤ exchange.old.limits.quiets }
        requires quiets { exchange.old.limits.quiets ≤ 65535 }
        requires count { self.old.ear.count ≤ 2 ^ 61 + 2 ^ 26 }
        ensures listens { IfOk result
            (λ r. Listens (Q.wanted question.now) self.old (S.view site.old).link exchange.old r self.new
            (S.view site.new).link exchange.new) }
        ensures breaks { OnErr result
            (ListensInVain (Q.wanted question.now) self.old (S.view site.old).link exchange.old self.new
            (S.view site.new).link) }
        ensures passes { (frame : List ℕ) → Passes frame 0 (S.view site.old) (S.view site.new) }
        ensures cause { HasCause (S.view site.old).link.faults (S.view site.new).link.faults result }
    {
        if let Some(ended) = self.judge(exchange, question) {
            return Ok(Some(conclusion_of(ended)));
        }
        loop {
            let n = self.inbox.fill(site)?;
            if let Some(ended) = self.judge(exchange, question) {
                return Ok(Some(conclusion_of(ended)));
            }
            match count(exchange, n) {
                Step::Resend => return Ok(None),
                Step::NoAnswer => return Ok(Some(Conclusion::NoAnswer)),
                Step::Flooded => return Ok(Some(Conclusion::Flooded)),
                _ => {}
            }
        }
    }

    // Judges the bytes at hand, up to the first frame that ends the request.
    fn judge<Q: Question>(
        &mut self,
        exchange: &mut Exchange,
        question: &Q,
    ) -> Option<Ended<Q::Answer>>
        requires count { self.old.ear.count + 4096 ≤ 2 ^ 62 }
        requires asked { exchange.old.asked ≡ (Q.wanted question.now).asked }
        ensures judged { Judged (EndsBy (Q.wanted question.now)) self.old exchange.old result self.new
            exchange.new }
        ensures room { length self.old.inbox ≤ 4096 }
        ensures all { result ≡ None → self.new.inbox ≡ [] }
        ensures still { length self.old.inbox ≡ 0 → exchange.new ≡ exchange.old }
    {
        if self.inbox.is_empty() {
            return None;
        }
        while !self.inbox.is_empty() {
            if let Some(ended) = self.judge_run(exchange, question) {
                return Some(ended);
            }
        }
        None
    }

    // Judges a run of bytes without a verdict, and the byte after it.
    fn judge_run<Q: Question>(
        &mut self,
        exchange: &mut Exchange,
        question: &Q,
    ) -> Option<Ended<Q::Answer>>
        requires some { 0 < length self.old.inbox }
        requires count { self.old.ear.count + length self.old.inbox ≤ 2 ^ 62 }
        requires asked { exchange.old.asked ≡ (Q.wanted question.now).asked }
        ensures judged { Judged (EndsBy (Q.wanted question.now)) self.old exchange.old result self.new
            exchange.new }
        ensures some { length self.new.inbox < length self.old.inbox }
    {
        let bytes = self.inbox.bytes();
        let n = self.ear.take_plain(bytes);
        if n == bytes.len() {
            self.inbox.skip(n);
            return None;
        }
        let heard = self.ear.push(bytes[n]);
        self.inbox.skip(n + 1);
        let Heard::Body { .. } = heard else {
            return None;
        };
        judge_content(exchange, question, self.ear.content())
    }
}
