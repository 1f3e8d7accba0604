//! The commands: each has its words, its row in the tables of `run`, and a module of its own.
ghost use Rattle.std.specs.Prelude.{map, string_bytes};
ghost use Rattle.pb_io.specs.Outside.{outside};
ghost use Rattle.pb_tool.specs.Causes.{Causes};
ghost use Rattle.pb_tool.specs.Order.{order_of};
ghost use Rattle.pb_tool.specs.Ran.{Ran};
ghost use Rattle.pb_tool.specs.Uses.{uses, Leaves, MayLeave};
ghost use Rattle.pb_tool.specs.Words.{IsAllowed, Said};

use crate::closing::close;
use crate::words::{self, Command};
use crate::{Status, check, collect, defs, export, init, ping, serve, show};
use pb_io::{Sink, Site, Source};
use std::alloc::Global;

/// Runs the command that `words` name, all words after the program's name, and answers how it ended. Its lines go to
/// `out`, the closing ones too. Words of no listed form do nothing but print their closing line.
///
/// `show` reads `input` to its end, and `ping` greets a node over the link of `site`; neither takes memory. `init` makes an
/// archive of the plan that `input` is, in the file of `site`, and `check` tells what the archive there holds. `serve`
/// answers on the link of `site` as the station of the script that `input` is. `collect` asks the stations of the archive over
/// the link of `site`, and keeps what they answer in its file; `defs` asks them for their table definitions, and keeps those.
/// `export` writes the rows of a table of the archive as CSV.
pub fn run<S: Site, I: Source, O: Sink>(
    alloc: Global,
    words: &[String],
    site: &mut S,
    input: &mut I,
    out: &mut O,
) -> Status
    // What the command did, by its status: each command has its row.
    ensures ran { Said (map string_bytes words.now) (λ c. Ran c result
        (outside S.Disk I.Source O.Sink site.old input.old out.old)
        (outside S.Disk I.Source O.Sink site.new input.new out.new)) }

    // What a crash at any moment of it may leave, with the world of that moment.
    ensures may_leave { Said (map string_bytes words.now) (λ c. MayLeave c result
        (outside S.Disk I.Source O.Sink site.old input.old out.old)
        (outside S.Disk I.Source O.Sink site.new input.new out.new)) }

    // What it doesn't use is as it was.
    ensures leaves { Said (map string_bytes words.now) (λ c.
        Leaves S.Disk (uses c) site.old input.old site.new input.new) }

    // A fault's status comes only where its count rose in this call, and where a count rose the status tells of it.
    ensures causes { Causes result
        (outside S.Disk I.Source O.Sink site.old input.old out.old)
        (outside S.Disk I.Source O.Sink site.new input.new out.new) }
{
    match words::parse(words) {
        Some(command) => perform(alloc, &command, site, input, out),
        None => close(out, b"pakbus: usage\n", Status::Usage),
    }
}

// Runs a command.
fn perform<S: Site, I: Source, O: Sink>(
    alloc: Global,
    command: &Command,
    site: &mut S,
    input: &mut I,
    out: &mut O,
) -> Status
    requires { IsAllowed (order_of command.now) }
    ensures ran { Ran (Some (order_of command.now)) result
        (outside S.Disk I.Source O.Sink site.old input.old out.old)
        (outside S.Disk I.Source O.Sink site.new input.new out.new) }
    ensures may_leave { MayLeave (Some (order_of command.now)) result
        (outside S.Disk I.Source O.Sink site.old input.old out.old)
        (outside S.Disk I.Source O.Sink site.new input.new out.new) }
    ensures leaves { Leaves S.Disk (uses (Some (order_of command.now))) site.old input.old site.new
        input.new }
    ensures causes { Causes result
        (outside S.Disk I.Source O.Sink site.old input.old out.old)
        (outside S.Disk I.Source O.Sink site.new input.new out.new) }
{
    match *command {
        Command::Show => show::print(input, out),
        Command::Init => init::print(alloc, site, input, out),
        Command::Check => check::print(alloc, site, out),
        Command::Ping { me, node } => ping::print(me, node, site, out),
        Command::Serve { goal } => serve::print(alloc, goal, site, input, out),
        Command::Collect { budget } => collect::print(alloc, budget, site, out),
        Command::Export { asked } => export::print(alloc, asked, site, out),
        Command::Defs => defs::print(alloc, site, out),
    }
}
