//! `serve`: plays the station of a script.
ghost use Rattle.std.specs.Prelude.{◌≡◌, ◌≢◌, Ok};
ghost use Rattle.pb_io.specs.Disk.{ReadsOnly};
ghost use Rattle.pb_io.specs.Outside.{outside};
ghost use Rattle.pb_io.specs.Page.{Adds, printing};
ghost use Rattle.pb_serve.specs.Talks.{Talks};
ghost use Rattle.pb_tool.specs.Causes.{Counts};
ghost use Rattle.pb_tool.specs.Serve.{CountsOf, Means, RanServe, ServeLeaves, answer_status, answer_text, end_status, end_text, fault_status, fault_text};

use crate::Status;
use crate::closing::finish;
use crate::input::{InputFault, push_input_fault, push_line, read_whole, status_of_input};
use pb_io::{Page, Sink, Site, Source};
use pb_script::{SCRIPT_TEXT_MAX, Script, ScriptFault};
use pb_serve::{End, Goal, Server};
use std::alloc::Global;

/// Why no station was played.
#[derive(Clone, Copy, Debug, Drop)]
pub enum ServeFault {
    /// The script's text wasn't read whole.
    Input(InputFault),
    /// This line of it, from 1, is refused.
    Line(u32),
    /// There was no memory for the script or the station.
    Memory,
}

/// Plays the station of the script that the input is, until so many good frames were heard.
pub fn print<S: Site, I: Source, O: Sink>(
    alloc: Global,
    goal: Goal,
    site: &mut S,
    input: &mut I,
    out: &mut O,
) -> Status
    ensures ran { RanServe goal result (outside S.Disk I.Source O.Sink site.old input.old out.old)
        (outside S.Disk I.Source O.Sink site.new input.new out.new) }
    ensures leaves { ServeLeaves (outside S.Disk I.Source O.Sink site.old input.old out.old)
        (outside S.Disk I.Source O.Sink site.new input.new out.new) }
    ensures disk { ReadsOnly (S.view site.old) (S.view site.new) }
    ensures disk_faults { (S.view site.new).faults ≡ (S.view site.old).faults }
    ensures reads { Counts Status.ReadFault result (I.read_faults input.old) (I.read_faults input.new) }
    ensures links { Counts Status.LinkFault result (S.view site.old).link.faults
        (S.view site.new).link.faults }
    ensures writes { Counts Status.WriteFault result (O.write_faults out.old) (O.write_faults out.new) }
    ensures disk_fault { result ≢ Status.DiskFault }
{
    let answer = serve(alloc, goal, site, input);
    let mut page = Page::new();
    push_answer(&mut page, &answer, out);
    finish(&mut page, out, status_of(&answer))
}

// Reads the script, and plays its station.
fn serve<S: Site, I: Source>(
    alloc: Global,
    goal: Goal,
    site: &mut S,
    input: &mut I,
) -> Result<End, ServeFault>
    ensures means { Means result goal (I.left input.old) (I.left input.new) (S.view site.old).link
        (S.view site.new).link }
    ensures talks { Talks (S.view site.old) (S.view site.new) }
    ensures counts { CountsOf result (I.read_faults input.old) (I.read_faults input.new)
        (S.view site.old).link.faults (S.view site.new).link.faults }
{
    let text = match read_whole(alloc, input, SCRIPT_TEXT_MAX) {
        Ok(text) => text,
        Err(fault) => return Err(ServeFault::Input(fault)),
    };
    let script = match Script::read_served(alloc, &text) {
        Ok(script) => script,
        Err(ScriptFault::Line(line)) => return Err(ServeFault::Line(line)),
        Err(ScriptFault::Memory) => return Err(ServeFault::Memory),
    };
    let station = match script.station(alloc) {
        Ok(station) => station,
        Err(_) => return Err(ServeFault::Memory),
    };
    let mut server = Server::new(station, goal);
    Ok(server.run(site))
}

fn status_of(answer: &Result<End, ServeFault>) -> Status
    ensures { result ≡ answer_status answer.now }
{
    match answer {
        Ok(end) => status_of_end(*end),
        Err(fault) => status_of_fault(*fault),
    }
}

fn status_of_end(end: End) -> Status
    ensures { result ≡ end_status end }
{
    match end {
        End::Done => Status::Done,
        End::Idle => Status::Incomplete,
        End::Flooded => Status::Incomplete,
        End::LinkFault => Status::LinkFault,
    }
}

fn status_of_fault(fault: ServeFault) -> Status
    ensures { result ≡ fault_status fault }
{
    match fault {
        ServeFault::Input(fault) => status_of_input(fault),
        ServeFault::Line(_) => Status::Format,
        ServeFault::Memory => Status::Memory,
    }
}

#[tactic(auto, unfolding(crate::specs::Serve::answer_text))]
fn push_answer<O: Sink>(page: &mut Page, answer: &Result<End, ServeFault>, out: &mut O)
    ensures { Adds (answer_text answer.now) (printing O.Sink page.old out.old)
        (printing O.Sink page.new out.new) }
{
    match answer {
        Ok(end) => push_end(page, *end, out),
        Err(fault) => push_fault(page, *fault, out),
    }
}

#[tactic(auto, unfolding(crate::specs::Serve::end_text))]
fn push_end<O: Sink>(page: &mut Page, end: End, out: &mut O)
    ensures { Adds (end_text end) (printing O.Sink page.old out.old) (printing O.Sink page.new out.new) }
{
    match end {
        End::Done => {}
        End::Idle => page.push(b"idle\n", out),
        End::Flooded => page.push(b"flooded\n", out),
        End::LinkFault => page.push(b"pakbus: link fault\n", out),
    }
}

#[tactic(auto, unfolding(crate::specs::Serve::fault_text))]
fn push_fault<O: Sink>(page: &mut Page, fault: ServeFault, out: &mut O)
    ensures { Adds (fault_text fault) (printing O.Sink page.old out.old)
        (printing O.Sink page.new out.new) }
{
    match fault {
        ServeFault::Input(fault) => push_input_fault(page, fault, SCRIPT_TEXT_MAX, out),
        ServeFault::Line(line) => push_line(page, line, out),
        ServeFault::Memory => {}
    }
}
