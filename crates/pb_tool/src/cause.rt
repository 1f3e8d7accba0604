//! Why a request got no answer that serves, as text.
ghost use Rattle.pb_io.specs.Page.{Adds, printing};
ghost use Rattle.pb_tool.specs.CauseText.{cause_text};

use pb_collect::Cause;
use pb_io::{Page, Part, Sink};

/// Adds a cause.
#[tactic(auto, unfolding(crate::specs::CauseText::cause_text))]
pub fn push_cause<O: Sink>(page: &mut Page, cause: Cause, out: &mut O)
    ensures { Adds (cause_text cause) (printing O.Sink page.old out.old)
        (printing O.Sink page.new out.new) }
{
    match cause {
        Cause::NoAnswer => page.push(b"no answer", out),
        Cause::Flooded => page.push(b"flooded", out),
        Cause::Undelivered(code) => page.put(
            &[Part::Text(b"undelivered "), Part::Number(u64::from(code))],
            out,
        ),
        Cause::Refused(code) => page.put(
            &[Part::Text(b"refused "), Part::Number(u64::from(code))],
            out,
        ),
    }
}
