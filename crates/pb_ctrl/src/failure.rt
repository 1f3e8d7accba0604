//! The failure message.
ghost use Rattle.std.specs.Prelude.{◌≡◌, ◌<◌, IfOk, OnErr};
ghost use Rattle.pb_base.specs.Put.{IsWritten, DoesNotFit};
ghost use Rattle.pb_layout.specs.Reading.{reading, Gives};
ghost use Rattle.pb_ctrl.specs.Message.{message_of, failure, InRange, message_bytes};
ghost use Rattle.pb_ctrl.specs.declared.message.Ctrl.TheVariants as ctrl;

use crate::message::{Ctrl, FAILURE};
use pb_base::{Full, MessageFault};
use pb_layout::{Keys, Piece, write_pieces};

/// The most bytes that a failure carries of the message that failed.
const CARRIED_MAX: usize = 8;

#[tactic(auto, unfolding(pb_layout::specs::Reading::reading))]
pub(crate) fn read_failure<'a>(tran: u8, keys: &mut Keys<'a>) -> Result<Ctrl<'a>, MessageFault>
    ensures { Gives message_of result (reading (failure tran) keys.old) }
{
    let err = keys.byte()?;
    let (proto, dst) = keys.split()?;
    let (hops, src) = keys.split()?;
    let carried = keys.at_most(CARRIED_MAX);
    Ok(Ctrl::Failure {
        tran,
        err,
        proto,
        dst,
        hops,
        src,
        carried,
    })
}

pub(crate) fn write_failure(
    tran: u8,
    err: u8,
    to: (u8, u16),
    from: (u8, u16),
    carried: &[u8],
    out: &mut [u8],
) -> Result<usize, Full>
    requires to { (to.0 < 16) × (to.1 < 4096) }
    requires from { (from.0 < 16) × (from.1 < 4096) }
    ensures written { IfOk result
        (IsWritten (message_bytes (message_of (ctrl.Failure tran err to.0 to.1 from.0 from.1 carried.entry)))
        out.old out.new) }
    ensures full { OnErr result
        (DoesNotFit (message_bytes (message_of (ctrl.Failure tran err to.0 to.1 from.0 from.1 carried.entry)))
        out.old out.new) }
    ensures in_range { InRange (message_of (ctrl.Failure tran err to.0 to.1 from.0 from.1 carried.entry)) }
{
    let pieces = [
        Piece::Byte(FAILURE),
        Piece::Byte(tran),
        Piece::Byte(err),
        Piece::Half(u16::from(to.0) * 4096 + to.1),
        Piece::Half(u16::from(from.0) * 4096 + from.1),
        Piece::Bytes(carried),
    ];
    write_pieces(&pieces, out)
}
