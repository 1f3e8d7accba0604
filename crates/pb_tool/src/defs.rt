//! `defs`: the table definitions of all stations of an archive.
ghost use Rattle.std.specs.Prelude.{◌≡◌, ◌≢◌, false};
ghost use Rattle.pb_archive.specs.Opened.{IsOpen, register_of};
ghost use Rattle.pb_collect.specs.Adding.{Adds as DefsAdds};
ghost use Rattle.pb_io.specs.Outside.{output_view};
ghost use Rattle.pb_io.specs.Page.{Adds, printing};
ghost use Rattle.pb_tool.specs.Causes.{Counts};
ghost use Rattle.pb_tool.specs.Defs.{RanDefs, RanReading, broken_line, fault_line, has_starred, failed_text, is_starred, line_text, redefined_text, report_text, rest_text, result_status, table_text};

use crate::Status;
use crate::cause::push_cause;
use crate::check::name_of;
use crate::closing::finish;
use crate::collect::{QUIETS, SENDS};
use crate::refusal::refuse;
use pb_archive::Archive;
use pb_collect::{Cause, Collector, DefsFault, DefsLine, DefsReport, DefsWhat};
use pb_io::{Page, Part, Sink, Site};
use pb_show::{push_escaped, push_hex};
use pb_trans::Limits;
use std::alloc::Global;

/// Opens the archive, asks each station for its table definitions, and prints a line for each table, or for a station that
/// fails.
pub fn print<S: Site, O: Sink>(alloc: Global, site: &mut S, out: &mut O) -> Status
    ensures ran { RanDefs result (S.view site.old) (S.view site.new) (output_view O.Sink out.old)
        (output_view O.Sink out.new) }
    ensures adds { DefsAdds (S.view site.old) (S.view site.new) }
    ensures disk { Counts Status.DiskFault result (S.view site.old).faults (S.view site.new).faults }
    ensures link { Counts Status.LinkFault result (S.view site.old).link.faults
        (S.view site.new).link.faults }
    ensures writes { Counts Status.WriteFault result (O.write_faults out.old) (O.write_faults out.new) }
    ensures read_fault { result ≢ Status.ReadFault }
{
    match Collector::open(alloc, site) {
        Ok(mut collector) => read(alloc, &mut collector, site, out),
        Err(fault) => refuse(fault, out),
    }
}

// Reads the stations' definitions into an archive that is open, and says what came of it.
fn read<S: Site, O: Sink>(
    alloc: Global,
    collector: &mut Collector,
    site: &mut S,
    out: &mut O,
) -> Status
    requires opened { IsOpen collector.old.archive (S.view site.old) }
    requires usable { collector.old.ended ≡ false }
    ensures ran { RanReading result (register_of collector.old.archive) (S.view site.old) (S.view site.new)
        (output_view O.Sink out.old) (output_view O.Sink out.new) }
    ensures adds { DefsAdds (S.view site.old) (S.view site.new) }
    ensures disk { Counts Status.DiskFault result (S.view site.old).faults (S.view site.new).faults }
    ensures link { Counts Status.LinkFault result (S.view site.old).link.faults
        (S.view site.new).link.faults }
    ensures writes { Counts Status.WriteFault result (O.write_faults out.old) (O.write_faults out.new) }
    ensures read_fault { result ≢ Status.ReadFault }
{
    let limits = Limits {
        budget: 1,
        sends: SENDS,
        quiets: QUIETS,
    };
    let mut report = DefsReport::new(alloc);
    let result = collector.fetch_definitions(alloc, site, limits, &mut report);
    let mut page = Page::new();
    push_report(&mut page, collector.archive(), report.lines(), out);
    push_fault(&mut page, result, out);
    finish(&mut page, out, status_of(result, report.lines()))
}

// Whether a line says that something isn't collected which might be.
fn is_star(what: DefsWhat) -> bool
    ensures { result ≡ is_starred what }
{
    match what {
        DefsWhat::Added | DefsWhat::Same | DefsWhat::NotText => false,
        DefsWhat::Redefined { .. }
        | DefsWhat::NotFull
        | DefsWhat::Failed(_)
        | DefsWhat::Bad { .. } => true,
    }
}

fn any_star(lines: &[DefsLine]) -> bool
    ensures { result ≡ has_starred lines.now }
{
    lines.iter().any(|line| is_star(line.what))
}

fn status_of(read: Result<(), DefsFault>, lines: &[DefsLine]) -> Status
    ensures { result ≡ result_status read (has_starred lines.now) }
{
    match read {
        Ok(()) => {
            if any_star(lines) {
                Status::Incomplete
            } else {
                Status::Done
            }
        }
        Err(DefsFault::DiskFault) => Status::DiskFault,
        Err(DefsFault::LinkFault) => Status::LinkFault,
        Err(DefsFault::Memory) => Status::Memory,
    }
}

// Adds the closing line where the reading was broken off.
fn push_fault<O: Sink>(page: &mut Page, read: Result<(), DefsFault>, out: &mut O)
    ensures { Adds (fault_line read) (printing O.Sink page.old out.old)
        (printing O.Sink page.new out.new) }
{
    match read {
        Ok(()) => {}
        Err(fault) => push_broken(page, fault, out),
    }
}

#[tactic(auto, unfolding(crate::specs::Defs::broken_line))]
fn push_broken<O: Sink>(page: &mut Page, fault: DefsFault, out: &mut O)
    ensures { Adds (broken_line fault) (printing O.Sink page.old out.old)
        (printing O.Sink page.new out.new) }
{
    match fault {
        DefsFault::DiskFault => page.push(b"pakbus: disk fault\n", out),
        DefsFault::LinkFault => page.push(b"pakbus: link fault\n", out),
        DefsFault::Memory => {}
    }
}

// Adds the lines.
fn push_report<O: Sink>(page: &mut Page, archive: &Archive, lines: &[DefsLine], out: &mut O)
    ensures { Adds (report_text archive.now.plan lines.now) (printing O.Sink page.old out.old)
        (printing O.Sink page.new out.new) }
{
    for line in lines {
        push_line(page, archive, line, out);
    }
}

// Adds a line.
#[tactic(auto, unfolding(crate::specs::Defs::line_text))]
fn push_line<O: Sink>(page: &mut Page, archive: &Archive, line: &DefsLine, out: &mut O)
    ensures { Adds (line_text archive.now.plan line.now) (printing O.Sink page.old out.old)
        (printing O.Sink page.new out.new) }
{
    push_escaped(page, name_of(archive, line.station), out);
    push_rest(page, line, out);
}

// Adds what comes after the station's name.
#[tactic(auto, unfolding(crate::specs::Defs::rest_text))]
fn push_rest<O: Sink>(page: &mut Page, line: &DefsLine, out: &mut O)
    ensures { Adds (rest_text line.now line.now.what) (printing O.Sink page.old out.old)
        (printing O.Sink page.new out.new) }
{
    match line.what {
        DefsWhat::Added => push_table(page, line, b" added\n", out),
        DefsWhat::Same => push_table(page, line, b" same\n", out),
        DefsWhat::Redefined { old } => push_redefined(page, line, old, out),
        DefsWhat::NotText => push_table(page, line, b" not collected text\n", out),
        DefsWhat::NotFull => push_table(page, line, b" not collected full\n", out),
        DefsWhat::Failed(cause) => push_failed(page, cause, out),
        DefsWhat::Bad { at } => page.put(
            &[
                Part::Text(b" - bad definitions at "),
                Part::Number(at as u64),
                Part::Text(b"\n"),
            ],
            out,
        ),
    }
}

// Adds a table's name, number and signature, and what came of it.
#[tactic(auto, unfolding(crate::specs::Defs::table_text))]
fn push_table<O: Sink>(page: &mut Page, line: &DefsLine, what: &[u8], out: &mut O)
    ensures { Adds (table_text line.now what.now) (printing O.Sink page.old out.old)
        (printing O.Sink page.new out.new) }
{
    page.push(b" ", out);
    push_escaped(page, line.name.bytes(), out);
    page.put(
        &[
            Part::Text(b" "),
            Part::Number(u64::from(line.number.0)),
            Part::Text(b" "),
        ],
        out,
    );
    push_hex(page, &line.sig.to_be_bytes(), out);
    page.push(what, out);
}

// Adds a table that its station has under another signature.
fn push_redefined<O: Sink>(page: &mut Page, line: &DefsLine, old: u16, out: &mut O)
    ensures { Adds (redefined_text line.now old) (printing O.Sink page.old out.old)
        (printing O.Sink page.new out.new) }
{
    push_table(page, line, b" redefined ", out);
    push_hex(page, &old.to_be_bytes(), out);
    page.push(b"\n", out);
}

// Adds why a station's file didn't come.
fn push_failed<O: Sink>(page: &mut Page, cause: Cause, out: &mut O)
    ensures { Adds (failed_text cause) (printing O.Sink page.old out.old)
        (printing O.Sink page.new out.new) }
{
    page.push(b" - ", out);
    push_cause(page, cause, out);
    page.push(b"\n", out);
}
