//! Readers of the keys of a message.
ghost use Rattle.std.specs.Prelude.{◌≡◌, Ok, Err, IfOk, IfErr, OnErr};
ghost use Rattle.pb_base.specs.Fields.{Unread, whole};
ghost use Rattle.pb_layout.specs.Kind.{Byte, Between, Half, Word, Split, Time, Text, Rest, AtMost, Numbers, Settings};
ghost use Rattle.pb_layout.specs.Reading.{key_at};

use crate::lists::{check_settings, numbers_len};
use pb_base::{FieldFault, Fields, MessageFault, Nsec};
use std::marker::Model;

/// A reader of the keys of a message. A key that can't be read is refused at its first byte, and leaves the reader as it
/// was.
#[derive(Drop)]
pub struct Keys<'a> {
    fields: Fields<'a>,
}

impl<'a> Model for Keys<'a> {
    ghost Value = { Unread };

    ghost view = { λ keys. keys.fields };
}

impl<'a> Keys<'a> {
    /// A reader of all of the message.
    pub fn new(message: &'a [u8]) -> Keys<'a>
        ensures { result ≡ whole message.now }
    {
        Keys {
            fields: Fields::new(message),
        }
    }

    /// One byte.
    #[tactic(auto, unfolding(crate::specs::Reading::key_at))]
    pub fn byte(&mut self) -> Result<u8, MessageFault>
        ensures read { IfOk result (λ n. key_at Byte self.old ≡ Ok (n, self.new)) }
        ensures refused { IfErr result (λ fault. key_at Byte self.old ≡ Err fault) }
        ensures kept { OnErr result (self.new ≡ self.old) }
    {
        let at = self.fields.at();
        match self.fields.u8() {
            Ok(n) => Ok(n),
            Err(_) => Err(MessageFault::Malformed { at }),
        }
    }

    /// One byte, from `low` to `high`.
    #[tactic(auto, unfolding(crate::specs::Reading::key_at))]
    pub fn between(&mut self, low: u8, high: u8) -> Result<u8, MessageFault>
        ensures read { IfOk result (λ n. key_at (Between low high) self.old ≡ Ok (n, self.new)) }
        ensures refused { IfErr result (λ fault. key_at (Between low high) self.old ≡ Err fault) }
        ensures kept { OnErr result (self.new ≡ self.old) }
    {
        let at = self.fields.at();
        match self.fields.rest() {
            [n, ..] if low <= *n && *n <= high => self.byte(),
            _ => Err(MessageFault::Malformed { at }),
        }
    }

    /// Two bytes, a number.
    #[tactic(auto, unfolding(crate::specs::Reading::key_at))]
    pub fn half(&mut self) -> Result<u16, MessageFault>
        ensures read { IfOk result (λ n. key_at Half self.old ≡ Ok (n, self.new)) }
        ensures refused { IfErr result (λ fault. key_at Half self.old ≡ Err fault) }
        ensures kept { OnErr result (self.new ≡ self.old) }
    {
        let at = self.fields.at();
        match self.fields.u16() {
            Ok(n) => Ok(n),
            Err(_) => Err(MessageFault::Malformed { at }),
        }
    }

    /// Four bytes, a number.
    #[tactic(auto, unfolding(crate::specs::Reading::key_at))]
    pub fn word(&mut self) -> Result<u32, MessageFault>
        ensures read { IfOk result (λ n. key_at Word self.old ≡ Ok (n, self.new)) }
        ensures refused { IfErr result (λ fault. key_at Word self.old ≡ Err fault) }
        ensures kept { OnErr result (self.new ≡ self.old) }
    {
        let at = self.fields.at();
        match self.fields.u32() {
            Ok(n) => Ok(n),
            Err(_) => Err(MessageFault::Malformed { at }),
        }
    }

    /// Two bytes: a number of four bits, and then one of twelve.
    #[tactic(auto, unfolding(crate::specs::Reading::key_at))]
    pub fn split(&mut self) -> Result<(u8, u16), MessageFault>
        ensures read { IfOk result (λ parts. key_at Split self.old ≡ Ok (parts, self.new)) }
        ensures refused { IfErr result (λ fault. key_at Split self.old ≡ Err fault) }
        ensures kept { OnErr result (self.new ≡ self.old) }
    {
        let at = self.fields.at();
        match self.fields.u16() {
            Ok(n) => Ok(((n / 4096) as u8, n % 4096)),
            Err(_) => Err(MessageFault::Malformed { at }),
        }
    }

    /// Eight bytes, a time.
    #[tactic(auto, unfolding(crate::specs::Reading::key_at))]
    pub fn time(&mut self) -> Result<Nsec, MessageFault>
        ensures read { IfOk result (λ time. key_at Time self.old ≡ Ok (time, self.new)) }
        ensures refused { IfErr result (λ fault. key_at Time self.old ≡ Err fault) }
        ensures kept { OnErr result (self.new ≡ self.old) }
    {
        let at = self.fields.at();
        match self.fields.nsec() {
            Ok(time) => Ok(time),
            Err(_) => Err(MessageFault::Malformed { at }),
        }
    }

    /// A text, without the zero byte that ends it.
    #[tactic(auto, unfolding(crate::specs::Reading::key_at))]
    pub fn text(&mut self) -> Result<&'a [u8], MessageFault>
        ensures read { IfOk result (λ text. key_at Text self.old ≡ Ok (text.now, self.new)) }
        ensures refused { IfErr result (λ fault. key_at Text self.old ≡ Err fault) }
        ensures kept { OnErr result (self.new ≡ self.old) }
    {
        let at = self.fields.at();
        match self.fields.asciiz() {
            Ok(text) => Ok(text),
            Err(_) => Err(MessageFault::Malformed { at }),
        }
    }

    /// All of the bytes that are left.
    #[tactic(auto, unfolding(crate::specs::Reading::key_at))]
    pub fn rest(&mut self) -> &'a [u8]
        ensures { key_at Rest self.old ≡ Ok (result.now, self.new) }
    {
        let len = self.fields.rest().len();
        self.fields.take(len).unwrap()
    }

    /// The next bytes, as many as there are, but not more than `most`.
    #[tactic(auto, unfolding(crate::specs::Reading::key_at))]
    pub fn at_most(&mut self, most: usize) -> &'a [u8]
        ensures { key_at (AtMost most) self.old ≡ Ok (result.now, self.new) }
    {
        let len = most.min(self.fields.rest().len());
        self.fields.take(len).unwrap()
    }

    /// The bytes of numbers of two bytes, without the 0 that ends them.
    #[tactic(auto, unfolding(crate::specs::Reading::key_at))]
    pub fn numbers(&mut self) -> Result<&'a [u8], MessageFault>
        ensures read { IfOk result (λ numbers. key_at Numbers self.old ≡ Ok (numbers.now, self.new)) }
        ensures refused { IfErr result (λ fault. key_at Numbers self.old ≡ Err fault) }
        ensures kept { OnErr result (self.new ≡ self.old) }
    {
        let left = self.fields.rest();
        let len = numbers_len(left);
        if left.len() - len < 2 {
            let at = self.fields.end() - (left.len() - len);
            return Err(MessageFault::Malformed { at });
        }
        self.fields.take(len + 2).unwrap();
        Ok(&left[..len])
    }

    /// The bytes of settings, which are all that are left.
    #[tactic(auto, unfolding(crate::specs::Reading::key_at))]
    pub fn settings(&mut self) -> Result<&'a [u8], MessageFault>
        ensures read { IfOk result (λ settings. key_at Settings self.old ≡ Ok (settings.now, self.new)) }
        ensures refused { IfErr result (λ fault. key_at Settings self.old ≡ Err fault) }
        ensures kept { OnErr result (self.new ≡ self.old) }
    {
        check_settings(self.fields.rest(), self.fields.end())?;
        Ok(self.rest())
    }
}
