//! Which records a collect command asks for.
ghost use Rattle.std.specs.Prelude.{◌≡◌, ◌+◌, ◌≤◌, ◌&&◌, not, List, drop};
ghost use Rattle.pb_base.specs.Request as asked;
ghost use Rattle.std.specs.List.{prefix_len};
ghost use Rattle.pb_base.specs.World.{StoredRecord};
ghost use Rattle.pb_bmp5.specs.TrueReply.{is_before, is_between, skipped, run_of};
ghost use Rattle.pb_ring.specs.Ring.{StandsFor, IsHeld, oldest_of};
ghost use Rattle.pb_bmp5.specs.Asking.{asked_mode};
ghost use Rattle.pb_station.specs.Inside.Commands.{seen_run, stage_in, history_in, HasTimeOf};

use crate::table::HeldTable;
use pb_base::{Fields, Nsec, RecNo};
use pb_bmp5::Mode;
use pb_ring::Ring;

/// A run of record numbers: from one up to, not with, another.
#[derive(Clone, Copy, Debug, PartialEq, Eq)]
pub(crate) struct Run {
    pub(crate) from: u32,
    pub(crate) to: u32,
}

/// From one time up to, not with, another.
#[derive(Clone, Copy, Debug, PartialEq, Eq)]
pub(crate) struct Span {
    pub(crate) from: Nsec,
    pub(crate) to: Nsec,
}

/// The records that a mode asks for, of those that the ring holds. Only a range of times looks at them.
pub(crate) fn run_of(ring: &Ring, mode: Mode) -> Run
    ensures within { (oldest_of ring.now ≤ result.from) × (result.to ≤ ring.now.next) }
    ensures run { (all : List StoredRecord) → StandsFor ring.now all
        → seen_run result ≡ run_of (asked_mode mode) (history_in ring.now all) (stage_in ring.now) }
{
    let oldest = ring.oldest().0;
    let next = ring.next().0;
    match mode {
        Mode::All => Run {
            from: oldest,
            to: next,
        },
        Mode::From(number) => Run {
            from: number.max(oldest),
            to: next,
        },
        Mode::Newest(count) => Run {
            from: oldest.max(next.saturating_sub(count)),
            to: next,
        },
        Mode::Range(from, to) => Run {
            from: from.max(oldest),
            to: to.min(next),
        },
        Mode::Times(from, to) => run_of_times(ring, Span { from, to }),
        Mode::Part(number, _) => Run {
            from: number.max(oldest),
            to: number.saturating_add(1).min(next),
        },
    }
}

fn run_of_times(ring: &Ring, span: Span) -> Run
    ensures within { (oldest_of ring.now ≤ result.from) × (result.to ≤ ring.now.next) }
    ensures run { (all : List StoredRecord) → StandsFor ring.now all
        → seen_run result ≡ run_of (asked.Times span.from span.to) (history_in ring.now all)
        (stage_in ring.now) }
{
    let from = first_inside(ring, span);
    Run {
        from,
        to: first_outside(ring, from, span),
    }
}

/// The first record that is held and whose time lies in the span; the next number where there is none.
fn first_inside(ring: &Ring, span: Span) -> u32
    ensures within { (oldest_of ring.now ≤ result) × (result ≤ ring.now.next) }
    ensures first { (all : List StoredRecord) → StandsFor ring.now all
        → result ≡ oldest_of ring.now + skipped span.from span.to (drop (oldest_of ring.now) all) }
{
    let next = ring.next().0;
    for number in ring.oldest().0..next {
        if is_inside(time_of(ring, number), span) {
            return number;
        }
    }
    next
}

/// The first record, from this one on, whose time doesn't lie in the span; the next number where there is none.
fn first_outside(ring: &Ring, from: u32, span: Span) -> u32
    requires { (oldest_of ring.now ≤ from) × (from ≤ ring.now.next) }
    ensures within { result ≤ ring.now.next }
    ensures first { (all : List StoredRecord) → StandsFor ring.now all
        → result ≡ from + prefix_len (is_between span.from span.to) (drop from all) }
{
    let next = ring.next().0;
    for number in from..next {
        if !is_inside(time_of(ring, number), span) {
            return number;
        }
    }
    next
}

fn is_inside(time: Nsec, span: Span) -> bool
    ensures { result ≡ (not (is_before time span.from) && is_before time span.to) }
{
    !is_before(time, span.from) && is_before(time, span.to)
}

fn is_before(a: Nsec, b: Nsec) -> bool
    ensures { result ≡ is_before a b }
{
    a.sec < b.sec || (a.sec == b.sec && a.nano < b.nano)
}

/// The time of a record that is held.
fn time_of(ring: &Ring, number: u32) -> Nsec
    requires { IsHeld ring.now number }
    ensures { (all : List StoredRecord) → StandsFor ring.now all → HasTimeOf all number result }
{
    let mut bytes = [0; 8];
    let _copied = ring.copy_into(RecNo(number), 0, &mut bytes);
    Fields::new(&bytes).nsec().unwrap()
}
