//! A reader of items: each is refused at its first byte, or where it passes a limit.
ghost use Rattle.std.specs.Prelude.{◌≡◌, ◌<◌, ◌≤◌, ◌||◌, ℕ, length, Ok, Err, IfOk, IfErr, OnErr, is_some, List};
ghost use Rattle.pb_base.specs.Fields.{Unread, IsBytes};
ghost use Rattle.pb_tdf.specs.Definition.{FieldDefinition, is_interval, fields_max};
ghost use Rattle.pb_tdf.specs.Inside.Passing.{ReadsDimension};
ghost use Rattle.pb_tdf.specs.Inside.Items.{Limited, Reads};
ghost use Rattle.pb_tdf.specs.Order.{byte_item, word_item, text_item, time_item, interval_item, type_item, is_type, placed};

use crate::TdfFault;
use crate::kind::value_bytes_of;
use crate::totals::Totals;
use pb_base::{FieldFault, Fields, Nsec};
use std::marker::Model;

/// The greatest number of a table's fields (of this project).
pub const FIELDS_MAX: u32 = 1024;

/// A reader of items up to a limit.
#[derive(Drop)]
pub struct Items<'a> {
    fields: Fields<'a>,
    limit: usize,
}

impl<'a> Model for Items<'a> {
    ghost Value = { Limited };

    ghost view = { λ items. record { left = items.fields; limit = items.limit } };
}

impl<'a> Items<'a> {
    /// A reader of what is left. No item may reach the place `limit`.
    pub fn new(fields: Fields<'a>, limit: usize) -> Items<'a>
        ensures { result ≡ record { left = fields.entry; limit = limit } }
    {
        Items { fields, limit }
    }

    /// From now on no item may reach the place `limit`.
    pub fn set_limit(&mut self, limit: usize)
        ensures { self.new ≡ record { left = self.old.left; limit = limit } }
    {
        self.limit = limit;
    }

    /// The place of the next byte.
    pub fn at(&self) -> usize
        ensures { result ≡ self.now.left.at }
    {
        self.fields.at()
    }

    /// The bytes that weren't read.
    pub fn rest(&self) -> &'a [u8]
        ensures rest { result.now ≡ self.now.left.rest }
        ensures bytes { IsBytes self.now.left.rest }
    {
        let rest = self.fields.rest();
        are_bytes(rest);
        rest
    }

    /// One byte.
    pub fn byte(&mut self) -> Result<u8, TdfFault>
        ensures { Reads (λ n. n) byte_item self.old self.new result }
    {
        let at = self.begin()?;
        match self.fields.u8() {
            Ok(n) if at < self.limit => Ok(n),
            Ok(_) => Err(TdfFault::TooMany { at }),
            Err(fault) => Err(placed_fault(fault, at)),
        }
    }

    /// A number of four bytes.
    pub fn word(&mut self) -> Result<u32, TdfFault>
        ensures { Reads (λ n. n) word_item self.old self.new result }
    {
        let at = self.begin()?;
        match self.fields.u32() {
            Ok(n) if at < self.limit => Ok(n),
            Ok(_) => Err(TdfFault::TooMany { at }),
            Err(fault) => Err(placed_fault(fault, at)),
        }
    }

    /// A text, without the zero byte that ends it.
    pub fn text(&mut self) -> Result<&'a [u8], TdfFault>
        ensures { Reads (λ t. t.now) text_item self.old self.new result }
    {
        let at = self.begin()?;
        match self.fields.asciiz() {
            Ok(text) if at < self.limit => Ok(text),
            Ok(_) => Err(TdfFault::TooMany { at }),
            Err(fault) => Err(placed_fault(fault, at)),
        }
    }

    /// Eight bytes, a time.
    pub fn time(&mut self) -> Result<Nsec, TdfFault>
        ensures { Reads (λ t. t) time_item self.old self.new result }
    {
        let at = self.begin()?;
        match self.fields.nsec() {
            Ok(time) if at < self.limit => Ok(time),
            Ok(_) => Err(TdfFault::TooMany { at }),
            Err(fault) => Err(placed_fault(fault, at)),
        }
    }

    /// Eight bytes, an interval.
    pub fn interval(&mut self) -> Result<Nsec, TdfFault>
        ensures { Reads (λ t. t) interval_item self.old self.new result }
    {
        let at = self.begin()?;
        match self.fields.nsec() {
            Ok(time) if !is_interval_time(time) => Err(TdfFault::BadType { at }),
            Ok(time) if at < self.limit => Ok(time),
            Ok(_) => Err(TdfFault::TooMany { at }),
            Err(fault) => Err(placed_fault(fault, at)),
        }
    }

    /// The type byte of a field after so many fields, or the 0 that ends them.
    pub fn type_byte(&mut self, fields: u32) -> Result<u8, TdfFault>
        ensures { Reads (λ n. n) (type_item fields) self.old self.new result }
    {
        let at = self.begin()?;
        match self.fields.u8() {
            Ok(n) if !is_type_byte(n) => Err(TdfFault::BadType { at }),
            Ok(n) if at < self.limit && (n == 0 || fields < FIELDS_MAX) => Ok(n),
            Ok(_) => Err(TdfFault::TooMany { at }),
            Err(fault) => Err(placed_fault(fault, at)),
        }
    }

    /// The dimension of a field of this type, and the sums with it.
    pub fn dimension(&mut self, kind: u8, totals: Totals) -> Result<(u32, Totals), TdfFault>
        requires { totals.fields < fields_max }
        ensures { ReadsDimension totals kind self.old self.new result }
    {
        let at = self.begin()?;
        match self.fields.u32() {
            Ok(n) => match totals.with(kind, n) {
                Some(totals) if at < self.limit => Ok((n, totals)),
                _ => Err(TdfFault::TooMany { at }),
            },
            Err(fault) => Err(placed_fault(fault, at)),
        }
    }

    /// The place of the next item. The one before may have passed the limit.
    fn begin(&self) -> Result<usize, TdfFault>
        ensures ok { IfOk result (λ at. (at ≡ self.now.left.at) × (at ≤ self.now.limit)) }
        ensures err { IfErr result (λ fault. fault ≡ TdfFault.TooMany self.now.limit) }
        ensures past { OnErr result (self.now.limit < self.now.left.at) }
    {
        let at = self.fields.at();
        if at > self.limit {
            return Err(TdfFault::TooMany { at: self.limit });
        }
        Ok(at)
    }
}

fn placed_fault(fault: FieldFault, at: usize) -> TdfFault
    ensures { result ≡ placed at fault }
{
    match fault {
        FieldFault::Short { .. } => TdfFault::Short { at },
        FieldFault::NoEnd { .. } => TdfFault::NoEnd { at },
    }
}

fn is_interval_time(time: Nsec) -> bool
    ensures { result ≡ is_interval time }
{
    time.sec >= 0 && time.nano >= 0 && time.nano < 1_000_000_000
}

fn is_type_byte(n: u8) -> bool
    ensures { result ≡ is_type n }
{
    n == 0 || value_bytes_of(n % 128).is_some()
}

fn are_bytes(bytes: &[u8])
    ensures { IsBytes bytes.now }
{}
