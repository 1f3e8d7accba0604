//! What an answer to a collect command says, and whether it fits what was asked.
ghost use Rattle.std.specs.Prelude.{◌≡◌, ◌↔◌, ◌≤◌, IsTrue, option_map};
ghost use Rattle.pb_bmp5.specs.CollectReply.{seen_of};
ghost use Rattle.pb_collect.specs.Inside.{first_records, FirstFrom, FirstIsPart};
ghost use Rattle.pb_collect.specs.Progress.{Suits};

use pb_bmp5::{CollectReply, Fragment, Fragments, Mode};

/// What an answer that fits says beside its records.
#[derive(Clone, Copy, Debug, PartialEq, Eq)]
pub struct Said {
    /// The response code; 0 where the request was served.
    pub resp: u8,
    /// The station has more records.
    pub more: bool,
}

/// Whether a reply that was read fits a request of this mode: its response code isn't 0, it has no records, or what it has
/// begins as asked. For records from a number on that is with one of this number or above, whole or from its first byte
/// on; for a part of a record it is with exactly that part. A reply that doesn't fit is passed over (of this project).
pub fn fits(mode: Mode, reply: &CollectReply) -> bool
    ensures { IsTrue result ↔ Suits mode reply.now }
{
    if reply.resp != 0 {
        return true;
    }
    let first = first_records(reply.fragments());
    match mode {
        Mode::From(number) => begins_from(number, first),
        Mode::Part(number, offset) => begins_with_part(number, offset, first),
        _ => false,
    }
}

// The first fragment that has records or a part of one.
fn first_records(mut fragments: Fragments) -> Option<Fragment>
    ensures { option_map seen_of result ≡ first_records fragments.entry }
{
    while let Some(fragment) = fragments.next() {
        match fragment {
            Fragment::Whole { count: 0, .. } => {}
            _ => return Some(fragment),
        }
    }
    None
}

// What comes first begins at a record of this number or above.
fn begins_from(number: u32, first: Option<Fragment>) -> bool
    ensures { IsTrue result ↔ FirstFrom number (option_map seen_of first.entry) }
{
    match first {
        None => true,
        Some(Fragment::Whole { first, .. }) => number <= first.0,
        Some(
            Fragment::Part {
                number: first,
                offset,
                ..
            },
        ) => number <= first.0 && offset == 0,
    }
}

// What comes first is the part from this byte on of the record.
fn begins_with_part(number: u32, from: u32, first: Option<Fragment>) -> bool
    ensures { IsTrue result ↔ FirstIsPart number from (option_map seen_of first.entry) }
{
    match first {
        None => true,
        Some(Fragment::Whole { .. }) => false,
        Some(
            Fragment::Part {
                number: first,
                offset,
                ..
            },
        ) => first.0 == number && offset == from,
    }
}
