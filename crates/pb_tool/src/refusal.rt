//! The closing lines of an archive that is refused.
ghost use Rattle.std.specs.Prelude.{◌≡◌};
ghost use Rattle.pb_io.specs.Page.{Adds, printing};
ghost use Rattle.pb_tool.specs.Causes.{Counts};
ghost use Rattle.pb_tool.specs.Closing.{Closes};
ghost use Rattle.pb_tool.specs.Refusal.{refusal_text, refusal_status};

use crate::Status;
use crate::closing::finish;
use pb_archive::ArchiveFault;
use pb_io::{Page, Part, Sink};

/// The status of a refusal.
pub fn status_of_refusal(fault: ArchiveFault) -> Status
    ensures { result ≡ refusal_status fault }
{
    match fault {
        ArchiveFault::NotCreated => Status::NotCreated,
        ArchiveFault::Exists => Status::Exists,
        ArchiveFault::Format { .. } => Status::Format,
        ArchiveFault::Memory => Status::Memory,
        ArchiveFault::DiskFault
        | ArchiveFault::MustReopen
        | ArchiveFault::Stopped { .. }
        | ArchiveFault::TooMany => Status::DiskFault,
    }
}

/// Writes the closing line of a refusal, and answers its status, or that the write failed.
pub fn refuse<O: Sink>(fault: ArchiveFault, out: &mut O) -> Status
    ensures closed { Closes (refusal_status fault) result (refusal_text fault) (O.written out.old)
        (O.written out.new) }
    ensures writes { Counts Status.WriteFault result (O.write_faults out.old) (O.write_faults out.new) }
{
    let mut page = Page::new();
    push_refused(&mut page, fault, out);
    finish(&mut page, out, status_of_refusal(fault))
}

/// Adds the closing line of a refusal; want of memory has none.
#[tactic(auto, unfolding(crate::specs::Refusal::refusal_text))]
pub fn push_refused<O: Sink>(page: &mut Page, fault: ArchiveFault, out: &mut O)
    ensures { Adds (refusal_text fault) (printing O.Sink page.old out.old)
        (printing O.Sink page.new out.new) }
{
    match fault {
        ArchiveFault::NotCreated => page.push(b"pakbus: no archive\n", out),
        ArchiveFault::Exists => page.push(b"pakbus: archive exists\n", out),
        ArchiveFault::Format { at } => page.put(
            &[
                Part::Text(b"pakbus: format at byte "),
                Part::Number(at),
                Part::Text(b"\n"),
            ],
            out,
        ),
        ArchiveFault::Memory => {}
        ArchiveFault::DiskFault
        | ArchiveFault::MustReopen
        | ArchiveFault::Stopped { .. }
        | ArchiveFault::TooMany => page.push(b"pakbus: disk fault\n", out),
    }
}
