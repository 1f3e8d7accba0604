//! `collect`: one round over all tables of an archive.
ghost use Rattle.std.specs.Prelude.{◌≡◌, ◌≢◌, ◌<◌, ◌≤◌, Some, false, length, slice_get};
ghost use Rattle.pb_archive.specs.Opened.{IsOpen, register_of};
ghost use Rattle.pb_archive.specs.Seen.{seen_table};
ghost use Rattle.pb_archive.specs.declared.held.Held.{Held};
ghost use Rattle.pb_collect.specs.Kept.{Keeps};
ghost use Rattle.pb_collect.specs.Round.{AreInOrder};
ghost use Rattle.pb_io.specs.Outside.{output_view};
ghost use Rattle.pb_io.specs.Page.{Adds, printing};
ghost use Rattle.pb_tool.specs.Causes.{Counts};
ghost use Rattle.pb_tool.specs.Collect.{RanCollect, RanRound, budget_of, end_text, fault_line, line_text, numbers_text, redefined_text, report_text, round_status, told_text};
ghost use Rattle.pb_tool.specs.Order.{Collect};
ghost use Rattle.pb_tool.specs.Words.{IsAllowed, IsBudget};

use crate::Status;
use crate::check::push_names;
use crate::closing::finish;
use crate::refusal::refuse;
use pb_archive::{Archive, TableView};
use pb_collect::{Collector, End, Outcome, RoundResult};
use pb_io::{Page, Part, Sink, Site};
use pb_show::push_hex;
use pb_trans::Limits;
use std::alloc::Global;

/// How often a request is sent at most, and after how many quiet ticks it is sent again or given up.
pub(crate) const SENDS: u8 = 3;

pub(crate) const QUIETS: u16 = 5;

/// How many requests a table may take, where no number is given.
const BUDGET: u32 = 10_000;

/// Opens the archive, collects each of its tables, with at most `budget` requests each, and prints a line for each table that
/// came to its end. All memory is taken at the opening.
pub fn print<S: Site, O: Sink>(
    alloc: Global,
    budget: Option<u32>,
    site: &mut S,
    out: &mut O,
) -> Status
    requires { IsAllowed (Collect budget) }
    ensures ran { RanCollect (budget_of budget) result (S.view site.old) (S.view site.new)
        (output_view O.Sink out.old) (output_view O.Sink out.new) }
    ensures keeps { Keeps (S.view site.old) (S.view site.new) }
    ensures disk { Counts Status.DiskFault result (S.view site.old).faults (S.view site.new).faults }
    ensures link { Counts Status.LinkFault result (S.view site.old).link.faults
        (S.view site.new).link.faults }
    ensures writes { Counts Status.WriteFault result (O.write_faults out.old) (O.write_faults out.new) }
    ensures read_fault { result ≢ Status.ReadFault }
{
    let budget = budget_of(budget);
    match Collector::open(alloc, site) {
        Ok(mut collector) => round(&mut collector, budget, site, out),
        Err(fault) => refuse(fault, out),
    }
}

fn budget_of(budget: Option<u32>) -> u32
    requires { IsAllowed (Collect budget) }
    ensures budget { result ≡ budget_of budget }
    ensures range { IsBudget result }
{
    match budget {
        None => BUDGET,
        Some(budget) => budget,
    }
}

// Makes a round over an archive that is open, and says what came of it.
fn round<S: Site, O: Sink>(
    collector: &mut Collector,
    budget: u32,
    site: &mut S,
    out: &mut O,
) -> Status
    requires budget { IsBudget budget }
    requires opened { IsOpen collector.old.archive (S.view site.old) }
    requires usable { collector.old.ended ≡ false }
    ensures ran { RanRound budget result (register_of collector.old.archive) (S.view site.old)
        (S.view site.new)
        (output_view O.Sink out.old) (output_view O.Sink out.new) }
    ensures keeps { Keeps (S.view site.old) (S.view site.new) }
    ensures disk { Counts Status.DiskFault result (S.view site.old).faults (S.view site.new).faults }
    ensures link { Counts Status.LinkFault result (S.view site.old).link.faults
        (S.view site.new).link.faults }
    ensures writes { Counts Status.WriteFault result (O.write_faults out.old) (O.write_faults out.new) }
    ensures read_fault { result ≢ Status.ReadFault }
{
    let limits = Limits {
        budget,
        sends: SENDS,
        quiets: QUIETS,
    };
    let result = collector.round(site, limits);
    let mut page = Page::new();
    push_report(&mut page, collector.archive(), collector.outcomes(), out);
    push_fault(&mut page, result, out);
    finish(&mut page, out, status_of(result))
}

fn status_of(round: RoundResult) -> Status
    ensures { result ≡ round_status round }
{
    match round {
        RoundResult::Done => Status::Done,
        RoundResult::Incomplete => Status::Incomplete,
        RoundResult::DiskFault => Status::DiskFault,
        RoundResult::LinkFault => Status::LinkFault,
    }
}

// Adds the closing line of a round that was broken off.
#[tactic(auto, unfolding(crate::specs::Collect::fault_line))]
fn push_fault<O: Sink>(page: &mut Page, round: RoundResult, out: &mut O)
    ensures { Adds (fault_line round) (printing O.Sink page.old out.old)
        (printing O.Sink page.new out.new) }
{
    match round {
        RoundResult::Done => {}
        RoundResult::Incomplete => {}
        RoundResult::DiskFault => page.push(b"pakbus: disk fault\n", out),
        RoundResult::LinkFault => page.push(b"pakbus: link fault\n", out),
    }
}

// Adds the lines of the tables that came to their ends.
fn push_report<O: Sink>(page: &mut Page, archive: &Archive, outcomes: &[Outcome], out: &mut O)
    requires order { AreInOrder 0 outcomes.now }
    requires there { length outcomes.now ≤ length archive.now.tables }
    ensures { Adds (report_text archive.now.plan archive.now.tables outcomes.now)
        (printing O.Sink page.old out.old)
        (printing O.Sink page.new out.new) }
{
    for outcome in outcomes {
        push_outcome_at(page, archive, outcome, out);
    }
}

// Adds the line of the table of an outcome.
fn push_outcome_at<O: Sink>(page: &mut Page, archive: &Archive, outcome: &Outcome, out: &mut O)
    requires { outcome.now.table.0 < length archive.now.tables }
    ensures { (t : Held) → slice_get archive.now.tables outcome.now.table.0 ≡ Some t
        → Adds (line_text archive.now.plan t outcome.now) (printing O.Sink page.old out.old)
        (printing O.Sink page.new out.new) }
{
    if let Some(table) = archive.table(outcome.table) {
        push_outcome(page, archive, table, outcome, out);
    }
}

// Adds the line of a table that came to its end.
#[tactic(auto, unfolding(crate::specs::Collect::line_text))]
fn push_outcome<O: Sink>(
    page: &mut Page,
    archive: &Archive,
    table: TableView,
    outcome: &Outcome,
    out: &mut O,
)
    ensures { Adds (line_text archive.now.plan (seen_table table.entry) outcome.now)
        (printing O.Sink page.old out.old)
        (printing O.Sink page.new out.new) }
{
    push_names(page, archive, table, out);
    push_numbers(page, outcome, out);
    push_end(page, outcome.end, out);
    page.push(b"\n", out);
}

// Adds a table's fronts, the gap numbers that were added, and the requests made.
#[tactic(auto, unfolding(crate::specs::Collect::numbers_text))]
fn push_numbers<O: Sink>(page: &mut Page, outcome: &Outcome, out: &mut O)
    ensures { Adds (numbers_text outcome.now) (printing O.Sink page.old out.old)
        (printing O.Sink page.new out.new) }
{
    page.put(
        &[
            Part::Text(b" "),
            Part::Number(u64::from(outcome.from.0)),
            Part::Text(b" "),
            Part::Number(u64::from(outcome.to.0)),
            Part::Text(b" gap "),
            Part::Number(u64::from(outcome.gaps)),
            Part::Text(b" asked "),
            Part::Number(u64::from(outcome.asked)),
            Part::Text(b" "),
        ],
        out,
    );
}

// Adds how a table ended.
#[tactic(auto, unfolding(crate::specs::Collect::end_text))]
fn push_end<O: Sink>(page: &mut Page, end: End, out: &mut O)
    ensures { Adds (end_text end) (printing O.Sink page.old out.old) (printing O.Sink page.new out.new) }
{
    match end {
        End::Done => page.push(b"done", out),
        End::NoAnswer => page.push(b"no answer", out),
        End::Flooded => page.push(b"flooded", out),
        End::Undelivered(code) => page.put(
            &[Part::Text(b"undelivered "), Part::Number(u64::from(code))],
            out,
        ),
        End::Refused(code) => page.put(
            &[Part::Text(b"refused "), Part::Number(u64::from(code))],
            out,
        ),
        End::Redefined { old, told } => push_redefined(page, old, told, out),
        End::Budget => page.push(b"budget", out),
    }
}

// Adds the signature that the archive has, and the one that the station has now, where it was told.
fn push_redefined<O: Sink>(page: &mut Page, old: u16, told: Option<u16>, out: &mut O)
    ensures { Adds (redefined_text old told) (printing O.Sink page.old out.old)
        (printing O.Sink page.new out.new) }
{
    page.push(b"redefined ", out);
    push_hex(page, &old.to_be_bytes(), out);
    page.push(b" ", out);
    push_told(page, told, out);
}

#[tactic(auto, unfolding(crate::specs::Collect::told_text))]
fn push_told<O: Sink>(page: &mut Page, told: Option<u16>, out: &mut O)
    ensures { Adds (told_text told) (printing O.Sink page.old out.old) (printing O.Sink page.new out.new) }
{
    match told {
        None => page.push(b"-", out),
        Some(signature) => push_hex(page, &signature.to_be_bytes(), out),
    }
}
