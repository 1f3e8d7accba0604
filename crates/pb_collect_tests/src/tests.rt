//! Tables collected from answers that were worked out by hand.
ghost use Rattle.std.specs.Prelude.{◌≡◌, ◌≤◌};
ghost use Rattle.pb_collect.specs.Progress as specs;

use pb_ask::Conclusion;
use pb_base::{Layout, Nsec, RecNo, TableNo};
use pb_bmp5::{Fragments, Mode, read_collect};
use pb_collect::{Effect, Effects, End, Next, Progress, Said, answers_can_be_taken, fits};
use std::alloc::Global;
use std::test::Fail;

// Records of two field bytes, each with its time: a content has ten bytes.
const EVENTS: Layout = Layout {
    record_len: 2,
    event: true,
    interval: Nsec { sec: 0, nano: 0 },
};

// The number of wanted effects up to the end of these; none where these aren't the next ones.
fn matched(effects: Effects, wanted: &[Effect], before: usize) -> Option<usize> {
    let mut at = before;
    for effect in [effects.gap, effects.kept] {
        if let Some(effect) = effect {
            if wanted.get(at) != Some(&effect) || at == usize::MAX {
                return None;
            }
            at += 1;
        }
    }
    Some(at)
}

// Takes in the fragments of a reply; whether they have exactly these effects.
fn takes(progress: &mut Progress, fragments: Fragments, wanted: &[Effect]) -> bool
    requires { specs.CanTakeAll progress.old fragments }
    ensures layout { progress.new.layout ≡ progress.old.layout }
    ensures count { progress.new.asked ≡ progress.old.asked }
{
    let mut at = Some(0);
    for fragment in fragments {
        let effects = progress.take(&fragment);
        at = match at {
            None => None,
            Some(before) => matched(effects, wanted, before),
        };
    }
    at == Some(wanted.len())
}

// Takes in a message as an answer, and tells what it says, and whether it has exactly these effects; none where it can't be
// read or doesn't fit.
fn answered(
    progress: &mut Progress,
    mode: Mode,
    message: &[u8],
    wanted: &[Effect],
) -> Option<(Said, bool)>
    requires layout { progress.old.layout ≡ EVENTS }
    requires asked { mode ≡ specs.question progress.old }
    ensures layout { progress.new.layout ≡ EVENTS }
    ensures count { progress.new.asked ≡ progress.old.asked }
    ensures passed { result ≡ None → progress.new ≡ progress.old }
{
    if message.is_empty() || message[0] != 0x89 {
        return None;
    }
    let Ok(reply) = read_collect(message, TableNo(1), &EVENTS) else {
        return None;
    };
    if !fits(mode, &reply) {
        return None;
    }
    let said = Said {
        resp: reply.resp,
        more: reply.more,
    };
    if said.resp != 0 {
        return Some((said, wanted.is_empty()));
    }
    answers_can_be_taken();
    let is_right = takes(progress, reply.fragments(), wanted);
    Some((said, is_right))
}

// A message, what it adds, and what comes next: nothing where it is passed over.
type Row<'a> = (&'a [u8], &'a [Effect<'a>], Option<Next>);

// Whether a table that begins with this front goes as the rows say.
fn goes(alloc: Global, front: u32, budget: u32, rows: &[Row]) -> Result<bool, Fail>
    requires { 1 ≤ budget }
{
    let mut progress = Progress::new(alloc).ok().ok_or("memory")?;
    progress.begin(EVENTS, RecNo(front));
    let mut mode = progress.ask();
    for (message, effects, wanted) in rows {
        match answered(&mut progress, mode, message, effects) {
            None => {
                if wanted.is_some() {
                    return Ok(false);
                }
            }
            Some((said, is_right)) => {
                let next = progress.next(budget, Conclusion::Answer(said));
                if !is_right || *wanted != Some(next) {
                    return Ok(false);
                }
                match next {
                    Next::Ask(asked) => mode = asked,
                    _ => return Ok(true),
                }
            }
        }
    }
    Ok(true)
}

// Record 5 above the front, and the first bytes of record 6; then the rest of it.
const GAP_AND_PART: &[u8] =
    b"\x89\x01\x00\x00\x01\x00\x00\x00\x05\x00\x01\x00\x00\x00\x07\x00\x00\x00\x09\xAA\xBB\x00\x01\x00\x00\x00\x06\x80\x00\x00\x00\x00\x00\x00\x08\x01";

const REST_OF_6: &[u8] =
    b"\x89\x02\x00\x00\x01\x00\x00\x00\x06\x80\x00\x00\x04\x00\x00\x00\x09\xCC\xDD\x00";

const RECORD_5: &[u8] = b"\x00\x00\x00\x07\x00\x00\x00\x09\xAA\xBB";

// Four bytes of record 4, and all of it.
const PART_OF_4: &[u8] =
    b"\x89\x01\x00\x00\x01\x00\x00\x00\x04\x80\x00\x00\x00\x00\x00\x00\x08\x01";

const ALL_OF_4: &[u8] =
    b"\x89\x02\x00\x00\x01\x00\x00\x00\x04\x80\x00\x00\x00\x00\x00\x00\x08\x00\x00\x00\x09\xCC\xDD\x00";

// No records: without a fragment, with a count of 0, and with more to come.
const EMPTY: &[u8] = b"\x89\x02\x00\x00";

const COUNT_0: &[u8] = b"\x89\x02\x00\x00\x01\x00\x00\x00\x00\x00\x00\x00";

const EMPTY_MORE: &[u8] = b"\x89\x02\x00\x01";

const REFUSED: &[u8] = b"\x89\x01\x02";

const OTHER_SIGNATURE: &[u8] = b"\x89\x01\x07";

// Record 5, and more; record 5 and then record 7, without the one between; record 5 of table 2.
const ONE_MORE: &[u8] =
    b"\x89\x01\x00\x00\x01\x00\x00\x00\x05\x00\x01\x00\x00\x00\x07\x00\x00\x00\x09\xAA\xBB\x01";

const WITH_A_HOLE: &[u8] =
    b"\x89\x01\x00\x00\x01\x00\x00\x00\x05\x00\x01\x00\x00\x00\x07\x00\x00\x00\x09\xAA\xBB\x00\x01\x00\x00\x00\x07\x00\x01\x00\x00\x00\x07\x00\x00\x00\x09\xAA\xBB\x01";

const OTHER_TABLE: &[u8] =
    b"\x89\x01\x00\x00\x02\x00\x00\x00\x05\x00\x01\x00\x00\x00\x07\x00\x00\x00\x09\xAA\xBB\x01";

const RUN_5: Effect = Effect::Run {
    first: RecNo(5),
    count: 1,
    bytes: RECORD_5,
};

#[test]
fn records_and_parts_are_added(rt: HostRuntime) -> Result<(), Fail> {
    let rows: &[Row] = &[
        (GAP_AND_PART, &[RUN_5], Some(Next::Ask(Mode::Part(6, 4)))),
        (
            REST_OF_6,
            &[Effect::Content { number: RecNo(6) }],
            Some(Next::Ends(End::Done)),
        ),
    ];
    assert!(rt; goes(rt.alloc(), 2, 9, rows)?);
    Ok(())
}

#[test]
fn a_part_that_does_not_go_on_is_asked_for_anew(rt: HostRuntime) -> Result<(), Fail> {
    let rows: &[Row] = &[
        (
            PART_OF_4,
            &[Effect::Gap { to: RecNo(4) }],
            Some(Next::Ask(Mode::Part(4, 4))),
        ),
        (EMPTY, &[], Some(Next::Ask(Mode::From(4)))),
        (
            ALL_OF_4,
            &[Effect::Content { number: RecNo(4) }],
            Some(Next::Ends(End::Done)),
        ),
    ];
    assert!(rt; goes(rt.alloc(), 2, 9, rows)?);
    Ok(())
}

#[test]
fn answers_without_records_add_nothing(rt: HostRuntime) -> Result<(), Fail> {
    let done: &[Row] = &[(COUNT_0, &[], Some(Next::Ends(End::Done)))];
    assert!(rt; goes(rt.alloc(), 5, 1, done)?);
    let on: &[Row] = &[
        (EMPTY_MORE, &[], Some(Next::Ask(Mode::From(5)))),
        (EMPTY, &[], Some(Next::Ends(End::Done))),
    ];
    assert!(rt; goes(rt.alloc(), 5, 2, on)?);
    Ok(())
}

#[test]
fn refusals_and_the_budget_end_a_table(rt: HostRuntime) -> Result<(), Fail> {
    let refused: &[Row] = &[(REFUSED, &[], Some(Next::Ends(End::Refused(2))))];
    assert!(rt; goes(rt.alloc(), 5, 9, refused)?);
    let stopped: &[Row] = &[(OTHER_SIGNATURE, &[], Some(Next::Stop))];
    assert!(rt; goes(rt.alloc(), 5, 9, stopped)?);
    let spent: &[Row] = &[(ONE_MORE, &[RUN_5], Some(Next::Ends(End::Budget)))];
    assert!(rt; goes(rt.alloc(), 5, 1, spent)?);
    Ok(())
}

#[test]
fn answers_that_do_not_fit_are_passed_over(rt: HostRuntime) -> Result<(), Fail> {
    let rows: &[Row] = &[
        // Of another table, and with a hole.
        (OTHER_TABLE, &[], None),
        (WITH_A_HOLE, &[], None),
        // The rest of a record that wasn't begun.
        (REST_OF_6, &[], None),
        // Above the front, then below it.
        (ONE_MORE, &[RUN_5], Some(Next::Ask(Mode::From(6)))),
        (ONE_MORE, &[], None),
        (EMPTY, &[], Some(Next::Ends(End::Done))),
    ];
    assert!(rt; goes(rt.alloc(), 3, 9, rows)?);
    // While a record is partial: whole records, and another part.
    let rows: &[Row] = &[
        (GAP_AND_PART, &[RUN_5], Some(Next::Ask(Mode::Part(6, 4)))),
        (ONE_MORE, &[], None),
        (PART_OF_4, &[], None),
        (
            REST_OF_6,
            &[Effect::Content { number: RecNo(6) }],
            Some(Next::Ends(End::Done)),
        ),
    ];
    assert!(rt; goes(rt.alloc(), 5, 9, rows)?);
    Ok(())
}

#[test]
fn what_is_joined_is_the_content(rt: HostRuntime) -> Result<(), Fail> {
    let mut progress = Progress::new(rt.alloc()).ok().ok_or("memory")?;
    progress.begin(EVENTS, RecNo(5));
    let mode = progress.ask();
    assert!(rt; answered(&mut progress, mode, GAP_AND_PART, &[RUN_5]).is_some());
    assert_eq!(rt; progress.joined(), b"\x00\x00\x00\x08".as_slice());
    let mode = progress.ask();
    let whole = [Effect::Content { number: RecNo(6) }];
    assert!(rt; answered(&mut progress, mode, REST_OF_6, &whole).is_some());
    assert_eq!(rt;
        progress.joined(),
        b"\x00\x00\x00\x08\x00\x00\x00\x09\xCC\xDD".as_slice()
    );
    Ok(())
}
