//! `pakbus`: collects the records of dataloggers over PakBus. Here the real source, sink and site are made.
#![tactic(auto)]

ghost use Rattle.std.specs.Prelude.{◌≡◌, codes, map, get_or, string_bytes};

mod fault_count;
mod host_file;
mod host_link;
mod host_listener;
mod host_sink;
mod host_site;
mod host_source;
mod peer;
mod waiting;

use crate::host_sink::HostSink;
use crate::host_site::HostSite;
use crate::host_source::HostSource;
use crate::waiting::Waiting;
use std::env;
use std::io::{self, ErrorKind};
use std::process::ExitCode;
use std::rt::Env;

fn main(rt: HostRuntime) -> ExitCode {
    let words = match words(&rt) {
        Ok(words) => words,
        // Words that aren't text are no listed form.
        Err(error) if error.kind() == ErrorKind::InvalidData => Vec::new(rt.alloc()),
        Err(_) => return ExitCode::from(pb_tool::Status::Memory.code()),
    };
    let mut site = HostSite::new(&rt, word_at(&words, 0), word_at(&words, 1));
    let mut input = HostSource::new(Waiting::new(&rt, rt.stdin()));
    let mut out = HostSink::new(Waiting::new(&rt, rt.stdout()));
    let status = pb_tool::run(rt.alloc(), &words, &mut site, &mut input, &mut out);
    ExitCode::from(status.code())
}

// The first word names the archive's file, the second the peer. Where a word is missing there is none of them.
fn word_at(words: &[String], n: usize) -> &str
    ensures { result.now ≡ get_or (map string_bytes words.now) n (codes "-") }
{
    match words.get(n) {
        Some(word) => word.as_str(),
        None => "-",
    }
}

// All words after the program's name.
fn words<R: Env + AllocGlobal>(rt: &R) -> io::Result<Vec<String>> {
    Ok(env::args(rt)?.skip(1).collect(rt.alloc())?)
}
