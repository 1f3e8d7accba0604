//! An input that is read whole.
ghost use Rattle.std.specs.Prelude.{◌≡◌, IfOk, IfErr};
ghost use Rattle.pb_io.specs.Page.{Adds, printing};
ghost use Rattle.pb_tool.specs.Input.{ReadsWhole, InputRefuses, CountsReads, byte_text, input_fault_text, input_status, line_text};

use crate::Status;
use pb_io::{Page, Part, Sink, Source};
use std::alloc::Global;

/// Why an input wasn't read whole.
#[derive(Clone, Copy, Debug, Drop)]
pub enum InputFault {
    /// A read failed.
    ReadFault,
    /// It has more bytes than are allowed.
    PastLimit,
    /// There was no memory.
    Memory,
}

/// How many bytes are asked for at once.
const CHUNK: usize = 4096;

/// Reads an input of at most `limit` bytes to its end. Takes memory for the bytes.
pub fn read_whole<I: Source>(
    alloc: Global,
    input: &mut I,
    limit: usize,
) -> Result<Vec<u8>, InputFault>
    ensures whole { IfOk result (λ bytes. ReadsWhole limit (I.left input.old) (I.left input.new)
        bytes.items) }
    ensures refused { IfErr result (InputRefuses limit (I.left input.old) (I.left input.new)) }
    ensures reads { CountsReads result (I.read_faults input.old) (I.read_faults input.new) }
{
    let mut bytes = Vec::new(alloc);
    let mut chunk = [0; CHUNK];
    loop {
        let n = match input.read(&mut chunk) {
            Ok(n) => n,
            Err(_) => return Err(InputFault::ReadFault),
        };
        if n == 0 {
            return Ok(bytes);
        }
        if n > limit - bytes.len() {
            return Err(InputFault::PastLimit);
        }
        match bytes.extend_from_slice(&chunk[..n]) {
            Ok(()) => {}
            Err(_) => return Err(InputFault::Memory),
        }
    }
}

/// The status of an input that wasn't read whole.
pub fn status_of_input(fault: InputFault) -> Status
    ensures { result ≡ input_status fault }
{
    match fault {
        InputFault::ReadFault => Status::ReadFault,
        InputFault::PastLimit => Status::Format,
        InputFault::Memory => Status::Memory,
    }
}

/// Adds the closing line of an input that wasn't read whole, where this many bytes are allowed.
#[tactic(auto, unfolding(crate::specs::Input::input_fault_text))]
pub fn push_input_fault<O: Sink>(page: &mut Page, fault: InputFault, limit: usize, out: &mut O)
    ensures { Adds (input_fault_text limit fault) (printing O.Sink page.old out.old)
        (printing O.Sink page.new out.new) }
{
    match fault {
        InputFault::ReadFault => page.push(b"pakbus: read fault\n", out),
        InputFault::PastLimit => push_limit(page, limit, out),
        InputFault::Memory => {}
    }
}

// Adds the closing line of an input past its limit.
fn push_limit<O: Sink>(page: &mut Page, limit: usize, out: &mut O)
    ensures { Adds (byte_text limit) (printing O.Sink page.old out.old)
        (printing O.Sink page.new out.new) }
{
    page.put(
        &[
            Part::Text(b"pakbus: format at byte "),
            Part::Number(limit as u64),
            Part::Text(b"\n"),
        ],
        out,
    );
}

/// Adds the closing line of an input of which this line, from 1, is refused.
pub fn push_line<O: Sink>(page: &mut Page, line: u32, out: &mut O)
    ensures { Adds (line_text line) (printing O.Sink page.old out.old) (printing O.Sink page.new out.new) }
{
    page.put(
        &[
            Part::Text(b"pakbus: format at line "),
            Part::Number(u64::from(line)),
            Part::Text(b"\n"),
        ],
        out,
    );
}
