//! `check`: a line for each table of an archive.
ghost use Rattle.std.specs.Prelude.{◌≡◌, ◌≢◌, ◌<◌, Some, length, slice_get};
ghost use Rattle.pb_archive.specs.declared.held.Held.{Held};
ghost use Rattle.pb_archive.specs.Seen.{seen_table};
ghost use Rattle.pb_archive.specs.Opened.{register_of};
ghost use Rattle.pb_io.specs.Outside.{output_view};
ghost use Rattle.pb_io.specs.Page.{Adds, printing};
ghost use Rattle.pb_io.specs.Settled.{Leaves};
ghost use Rattle.pb_journal.specs.Changes.{Keeps};
ghost use Rattle.pb_tool.specs.Causes.{Counts};
ghost use Rattle.pb_tool.specs.Check.{check_text, names_text, table_text, numbers_text, station_name, answer_text, answer_status, answered, RanCheck};

use crate::Status;
use crate::closing::finish;
use crate::refusal::{push_refused, status_of_refusal};
use pb_archive::{Archive, ArchiveFault, TableView};
use pb_base::TableId;
use pb_io::{Page, Part, Sink, Site};
use pb_show::push_escaped;
use std::alloc::Global;

/// Opens the archive, and prints a line for each of its tables.
pub fn print<S: Site, O: Sink>(alloc: Global, site: &mut S, out: &mut O) -> Status
    ensures ran { RanCheck result (S.view site.old) (S.view site.new) (output_view O.Sink out.old)
        (output_view O.Sink out.new) }
    ensures leaves { Leaves Keeps (S.view site.old) (S.view site.new) }
    ensures link { (S.view site.new).link ≡ (S.view site.old).link }
    ensures disk { Counts Status.DiskFault result (S.view site.old).faults (S.view site.new).faults }
    ensures writes { Counts Status.WriteFault result (O.write_faults out.old) (O.write_faults out.new) }
    ensures read_fault { result ≢ Status.ReadFault }
    ensures link_fault { result ≢ Status.LinkFault }
{
    let answer = Archive::open(alloc, site);
    let mut page = Page::new();
    push_answer(&mut page, &answer, out);
    finish(&mut page, out, status_of(&answer))
}

fn status_of(answer: &Result<Archive, ArchiveFault>) -> Status
    ensures { result ≡ answer_status (answered answer.now) }
{
    match answer {
        Ok(_) => Status::Done,
        Err(fault) => status_of_refusal(*fault),
    }
}

#[tactic(auto, unfolding(crate::specs::Check::answer_text))]
fn push_answer<O: Sink>(page: &mut Page, answer: &Result<Archive, ArchiveFault>, out: &mut O)
    ensures { Adds (answer_text (answered answer.now)) (printing O.Sink page.old out.old)
        (printing O.Sink page.new out.new) }
{
    match answer {
        Ok(archive) => push_tables(page, archive, out),
        Err(fault) => push_refused(page, *fault, out),
    }
}

// Adds the lines of all tables.
fn push_tables<O: Sink>(page: &mut Page, archive: &Archive, out: &mut O)
    ensures { Adds (check_text (register_of archive.now)) (printing O.Sink page.old out.old)
        (printing O.Sink page.new out.new) }
{
    for id in 0..archive.tables() {
        push_table_at(page, archive, TableId(id), out);
    }
}

// Adds the line of the table of this place.
fn push_table_at<O: Sink>(page: &mut Page, archive: &Archive, id: TableId, out: &mut O)
    requires { id.0 < length archive.now.tables }
    ensures { (t : Held) → slice_get archive.now.tables id.0 ≡ Some t
        → Adds (table_text archive.now.plan t) (printing O.Sink page.old out.old)
        (printing O.Sink page.new out.new) }
{
    if let Some(table) = archive.table(id) {
        push_table(page, archive, table, out);
    }
}

// Adds the line of a table.
#[tactic(auto, unfolding(crate::specs::Check::table_text))]
fn push_table<O: Sink>(page: &mut Page, archive: &Archive, table: TableView, out: &mut O)
    ensures { Adds (table_text archive.now.plan (seen_table table.entry))
        (printing O.Sink page.old out.old)
        (printing O.Sink page.new out.new) }
{
    push_names(page, archive, table, out);
    push_numbers(page, table, out);
}

/// Adds the names of a table's station and of the table.
pub fn push_names<O: Sink>(page: &mut Page, archive: &Archive, table: TableView, out: &mut O)
    ensures { Adds (names_text archive.now.plan (seen_table table.entry))
        (printing O.Sink page.old out.old)
        (printing O.Sink page.new out.new) }
{
    push_escaped(page, name_of(archive, table.station), out);
    page.push(b" ", out);
    push_escaped(page, table.table.name(), out);
}

/// The name of a station of the plan.
pub fn name_of(archive: &Archive, station: u8) -> &[u8]
    ensures { result.now ≡ station_name archive.now.plan station }
{
    match archive.plan().station(station) {
        Some(station) => station.name.bytes(),
        None => b"",
    }
}

// Adds a table's front, how many of its numbers are kept and how many are gaps, and whether it has a stop.
#[tactic(auto, unfolding(crate::specs::Check::numbers_text))]
fn push_numbers<O: Sink>(page: &mut Page, table: TableView, out: &mut O)
    ensures { Adds (numbers_text (seen_table table.entry)) (printing O.Sink page.old out.old)
        (printing O.Sink page.new out.new) }
{
    page.put(
        &[
            Part::Text(b" front "),
            Part::Number(u64::from(table.front.0)),
            Part::Text(b" kept "),
            Part::Number(u64::from(table.front.0.saturating_sub(table.gaps))),
            Part::Text(b" gap "),
            Part::Number(u64::from(table.gaps)),
            Part::Text(if table.stop.is_some() {
                b" stopped\n"
            } else {
                b"\n"
            }),
        ],
        out,
    );
}
