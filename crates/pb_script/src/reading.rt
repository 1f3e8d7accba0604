//! All lines of a script.
ghost use Rattle.std.specs.Prelude.{◌≡◌, ◌≤◌, List, ℕ, length, IfErr, IfOk, OnOk};
ghost use Rattle.pb_script.specs.ScriptRefusal.{ScriptRefuses};
ghost use Rattle.pb_script.specs.ScriptText.{Says, ServedText};

use crate::draft::{Draft, LineFault};
use crate::fault::ScriptFault;
use crate::line::{read_self, read_station};
use std::alloc::Global;

/// The most bytes of a script's text.
pub const SCRIPT_TEXT_MAX: usize = 1_048_576;

/// Reads a script's lines.
pub(crate) fn read_draft(alloc: Global, text: &[u8]) -> Result<Draft, ScriptFault>
    requires { length text.now ≤ SCRIPT_TEXT_MAX }
    ensures found { IfOk result (λ draft. ServedText draft text.now) }
    ensures refused { IfErr result (ScriptRefuses text.now) }
{
    let asker = match read_self(text) {
        Some(asker) => asker,
        None => return Err(ScriptFault::Line(1)),
    };
    let next = match read_station(asker.me, asker.rest) {
        Some(next) => next,
        None => return Err(ScriptFault::Line(2)),
    };
    let mut draft = Draft::new(alloc, asker.me, next.station);
    match read_lines(&mut draft, next.rest) {
        Ok(()) => Ok(draft),
        Err(fault) => Err(fault),
    }
}

// Adds what all further lines say.
fn read_lines(draft: &mut Draft, text: &[u8]) -> Result<(), ScriptFault>
    requires { length text.now ≤ SCRIPT_TEXT_MAX }
    ensures read { (whole : List ℕ) → Says whole 2 draft.old text.now
        → OnOk result (ServedText draft.new whole) }
    ensures refused { (whole : List ℕ) → Says whole 2 draft.old text.now
        → IfErr result (ScriptRefuses whole) }
{
    let mut rest = text;
    let mut lines = 2;
    while !rest.is_empty() {
        rest = match draft.take_line(rest) {
            Ok(rest) => rest,
            Err(LineFault::Refused) => return Err(ScriptFault::Line(lines + 1)),
            Err(LineFault::Memory) => return Err(ScriptFault::Memory),
        };
        lines += 1;
    }
    Ok(())
}
