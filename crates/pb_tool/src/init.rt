//! `init`: makes an archive from a plan.
ghost use Rattle.std.specs.Prelude.{◌≡◌, ◌≢◌};
ghost use Rattle.pb_io.specs.Outside.{outside};
ghost use Rattle.pb_io.specs.Page.{Adds, printing};
ghost use Rattle.pb_tool.specs.Causes.{Counts};
ghost use Rattle.pb_tool.specs.Init.{Means, MayLeaveBy, CountsOf, fault_text, answer_text, fault_status, answer_status, RanInit, InitLeaves};

use crate::Status;
use crate::closing::finish;
use crate::input::{InputFault, push_input_fault, push_line, read_whole, status_of_input};
use crate::refusal::{push_refused, status_of_refusal};
use pb_archive::{ArchiveFault, Plan, PlanFault};
use pb_io::{Page, Sink, Site, Source};
use std::alloc::Global;

/// The most bytes of a plan's text.
pub const PLAN_TEXT_MAX: usize = 16_384;

/// Why no archive was made.
#[derive(Clone, Copy, Debug, Drop)]
pub enum InitFault {
    /// The plan's text wasn't read whole.
    Input(InputFault),
    /// This line of it, from 1, is refused.
    Line(u32),
    /// The archive is refused.
    Archive(ArchiveFault),
    /// There was no memory for the plan.
    Memory,
}

/// Makes an archive of the plan that the input is.
pub fn print<S: Site, I: Source, O: Sink>(
    alloc: Global,
    site: &mut S,
    input: &mut I,
    out: &mut O,
) -> Status
    ensures ran { RanInit result (outside S.Disk I.Source O.Sink site.old input.old out.old)
        (outside S.Disk I.Source O.Sink site.new input.new out.new) }
    ensures leaves { InitLeaves (outside S.Disk I.Source O.Sink site.old input.old out.old)
        (outside S.Disk I.Source O.Sink site.new input.new out.new) }
    ensures link { (S.view site.new).link ≡ (S.view site.old).link }
    ensures reads { Counts Status.ReadFault result (I.read_faults input.old) (I.read_faults input.new) }
    ensures disk { Counts Status.DiskFault result (S.view site.old).faults (S.view site.new).faults }
    ensures writes { Counts Status.WriteFault result (O.write_faults out.old) (O.write_faults out.new) }
    ensures link_fault { result ≢ Status.LinkFault }
{
    let answer = make(alloc, site, input);
    let mut page = Page::new();
    push_answer(&mut page, &answer, out);
    finish(&mut page, out, status_of(&answer))
}

// Reads the plan, and makes the archive.
fn make<S: Site, I: Source>(alloc: Global, site: &mut S, input: &mut I) -> Result<(), InitFault>
    ensures means { Means result (S.view site.old).file (S.view site.new).file (I.left input.old)
        (I.left input.new) }
    ensures leaves { MayLeaveBy (I.left input.old) (I.left input.new) (S.view site.old) (S.view site.new) }
    ensures link { (S.view site.new).link ≡ (S.view site.old).link }
    ensures counts { CountsOf result (I.read_faults input.old) (I.read_faults input.new)
        (S.view site.old).faults
        (S.view site.new).faults }
{
    let text = match read_whole(alloc, input, PLAN_TEXT_MAX) {
        Ok(text) => text,
        Err(fault) => return Err(InitFault::Input(fault)),
    };
    let plan = match Plan::read(alloc, &text) {
        Ok(plan) => plan,
        Err(PlanFault::Line(line)) => return Err(InitFault::Line(line)),
        Err(PlanFault::Memory) => return Err(InitFault::Memory),
    };
    match pb_archive::init(alloc, site, &plan) {
        Ok(()) => Ok(()),
        Err(fault) => Err(InitFault::Archive(fault)),
    }
}

fn status_of(answer: &Result<(), InitFault>) -> Status
    ensures { result ≡ answer_status answer.now }
{
    match answer {
        Ok(()) => Status::Done,
        Err(fault) => status_of_fault(*fault),
    }
}

fn status_of_fault(fault: InitFault) -> Status
    ensures { result ≡ fault_status fault }
{
    match fault {
        InitFault::Input(fault) => status_of_input(fault),
        InitFault::Line(_) => Status::Format,
        InitFault::Archive(fault) => status_of_refusal(fault),
        InitFault::Memory => Status::Memory,
    }
}

#[tactic(auto, unfolding(crate::specs::Init::answer_text))]
fn push_answer<O: Sink>(page: &mut Page, answer: &Result<(), InitFault>, out: &mut O)
    ensures { Adds (answer_text answer.now) (printing O.Sink page.old out.old)
        (printing O.Sink page.new out.new) }
{
    match answer {
        Ok(()) => {}
        Err(fault) => push_fault(page, *fault, out),
    }
}

#[tactic(auto, unfolding(crate::specs::Init::fault_text))]
fn push_fault<O: Sink>(page: &mut Page, fault: InitFault, out: &mut O)
    ensures { Adds (fault_text fault) (printing O.Sink page.old out.old)
        (printing O.Sink page.new out.new) }
{
    match fault {
        InitFault::Input(fault) => push_input_fault(page, fault, PLAN_TEXT_MAX, out),
        InitFault::Line(line) => push_line(page, line, out),
        InitFault::Archive(fault) => push_refused(page, fault, out),
        InitFault::Memory => {}
    }
}
