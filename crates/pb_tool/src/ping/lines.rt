//! The lines of `ping`.
ghost use Rattle.std.specs.Prelude.{◌≡◌, ◌≢◌};
ghost use Rattle.pb_io.specs.Disk.{ReadsOnly};
ghost use Rattle.pb_io.specs.Outside.{talk};
ghost use Rattle.pb_io.specs.Page.{Adds, printing};
ghost use Rattle.pb_io.specs.View.{LeavesOnly};
ghost use Rattle.pb_tool.specs.Causes.{Counts};
ghost use Rattle.pb_tool.specs.Ping.{Greets};
ghost use Rattle.pb_tool.specs.PingText.{clock_line, hello_line, line_start, no_hello_line, no_clock_line, fault_text, ping_text, ping_status, RanPing};
ghost use Rattle.pb_value.specs.TimeText.{time_text};

use crate::Status;
use crate::cause::push_cause;
use crate::closing::finish;
use crate::ping::answer::{PingFault, Pinged};
use crate::ping::greeting::ping;
use pb_base::{NodeId, Nsec};
use pb_collect::Cause;
use pb_io::{Page, Part, Sink, Site};
use pb_value::{TIME_TEXT_MAX, time_into};

/// Pings a node, and prints what it answered.
pub fn print<S: Site, O: Sink>(me: NodeId, node: NodeId, site: &mut S, out: &mut O) -> Status
    ensures ran { RanPing me node result (talk S.Disk O.Sink site.old out.old)
        (talk S.Disk O.Sink site.new out.new) }
    ensures links { Counts Status.LinkFault result (S.view site.old).link.faults
        (S.view site.new).link.faults }
    ensures writes { Counts Status.WriteFault result (O.write_faults out.old) (O.write_faults out.new) }
    ensures read_fault { result ≢ Status.ReadFault }
    ensures disk_fault { result ≢ Status.DiskFault }
    ensures leaves { LeavesOnly (S.view site.old) (S.view site.new) (Greets me node (S.view site.old)) }
    ensures disk { ReadsOnly (S.view site.old) (S.view site.new) }
    ensures disk_faults { (S.view site.new).faults ≡ (S.view site.old).faults }
{
    let answer = ping(site, me, node);
    let mut page = Page::new();
    push_answer(&mut page, node.get(), &answer, out);
    finish(&mut page, out, status_of(&answer))
}

fn status_of(answer: &Result<Pinged, PingFault>) -> Status
    ensures { result ≡ ping_status answer.now }
{
    match answer {
        Ok(_) => Status::Done,
        Err(PingFault::LinkFault) => Status::LinkFault,
        Err(PingFault::Hello(_)) => Status::Incomplete,
        Err(PingFault::Clock(..)) => Status::Incomplete,
    }
}

#[tactic(auto, unfolding(crate::specs::PingText::ping_text))]
fn push_answer<O: Sink>(page: &mut Page, node: u16, answer: &Result<Pinged, PingFault>, out: &mut O)
    ensures { Adds (ping_text node answer.now) (printing O.Sink page.old out.old)
        (printing O.Sink page.new out.new) }
{
    match *answer {
        Ok(pinged) => {
            push_hello(page, node, pinged.router, pinged.metric, pinged.verify, out);
            push_clock(page, node, pinged.time, out);
        }
        Err(fault) => push_fault(page, node, fault, out),
    }
}

#[tactic(auto, unfolding(crate::specs::PingText::fault_text))]
fn push_fault<O: Sink>(page: &mut Page, node: u16, fault: PingFault, out: &mut O)
    ensures { Adds (fault_text node fault) (printing O.Sink page.old out.old)
        (printing O.Sink page.new out.new) }
{
    match fault {
        PingFault::LinkFault => page.push(b"pakbus: link fault\n", out),
        PingFault::Hello(cause) => push_no_hello(page, node, cause, out),
        PingFault::Clock(cause, router, metric, verify) => {
            push_hello(page, node, router, metric, verify, out);
            push_no_clock(page, node, cause, out);
        }
    }
}

#[tactic(auto, unfolding(crate::specs::PingText::hello_line))]
fn push_hello<O: Sink>(page: &mut Page, node: u16, router: u8, metric: u8, verify: u16, out: &mut O)
    ensures { Adds (hello_line node router metric verify) (printing O.Sink page.old out.old)
        (printing O.Sink page.new out.new) }
{
    page.put(
        &[
            Part::Text(b"hello "),
            Part::Number(u64::from(node)),
            Part::Text(b" router "),
            Part::Number(u64::from(router)),
            Part::Text(b" metric "),
            Part::Number(u64::from(metric)),
            Part::Text(b" verify "),
            Part::Number(u64::from(verify)),
            Part::Text(b"\n"),
        ],
        out,
    );
}

fn push_start<O: Sink>(page: &mut Page, word: &[u8], node: u16, out: &mut O)
    ensures { Adds (line_start word.now node) (printing O.Sink page.old out.old)
        (printing O.Sink page.new out.new) }
{
    page.put(
        &[
            Part::Text(word),
            Part::Number(u64::from(node)),
            Part::Text(b" "),
        ],
        out,
    );
}

fn push_clock<O: Sink>(page: &mut Page, node: u16, time: Nsec, out: &mut O)
    ensures { Adds (clock_line node time) (printing O.Sink page.old out.old)
        (printing O.Sink page.new out.new) }
{
    push_start(page, b"clock ", node, out);
    push_time(page, time, out);
    page.push(b"\n", out);
}

fn push_time<O: Sink>(page: &mut Page, time: Nsec, out: &mut O)
    ensures { Adds (time_text time) (printing O.Sink page.old out.old) (printing O.Sink page.new out.new) }
{
    let mut text = [0; TIME_TEXT_MAX];
    let len = time_into(time, &mut text).unwrap();
    page.push(&text[..len], out);
}

fn push_no_hello<O: Sink>(page: &mut Page, node: u16, cause: Cause, out: &mut O)
    ensures { Adds (no_hello_line node cause) (printing O.Sink page.old out.old)
        (printing O.Sink page.new out.new) }
{
    push_start(page, b"hello ", node, out);
    push_cause(page, cause, out);
    page.push(b"\n", out);
}

fn push_no_clock<O: Sink>(page: &mut Page, node: u16, cause: Cause, out: &mut O)
    ensures { Adds (no_clock_line node cause) (printing O.Sink page.old out.old)
        (printing O.Sink page.new out.new) }
{
    push_start(page, b"clock ", node, out);
    push_cause(page, cause, out);
    page.push(b"\n", out);
}
