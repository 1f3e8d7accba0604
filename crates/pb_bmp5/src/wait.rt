//! The please-wait message.
ghost use Rattle.std.specs.Prelude.{◌≡◌, [], ◌∷◌, ◌<◌, ◌^◌, IfOk, OnErr};
ghost use Rattle.pb_base.specs.Put.{IsWritten, DoesNotFit};
ghost use Rattle.pb_layout.specs.Reading.{reading, Gives};
ghost use Rattle.pb_bmp5.specs.declared.message.Bmp5.TheVariants as bmp5;
ghost use Rattle.pb_bmp5.specs.Message.{message_of, wait, InRange, message_bytes};

use crate::message::{Bmp5, WAIT};
use pb_base::{Full, MessageFault};
use pb_layout::{Keys, Piece, write_pieces};

#[tactic(auto, unfolding(pb_layout::specs::Reading::reading))]
pub(crate) fn read_wait<'a>(tran: u8, keys: &mut Keys<'a>) -> Result<Bmp5<'a>, MessageFault>
    ensures { Gives message_of result (reading (wait tran) keys.old) }
{
    let kind = keys.byte()?;
    let seconds = keys.half()?;
    Ok(Bmp5::Wait {
        tran,
        kind,
        seconds,
    })
}

pub(crate) fn write_wait(tran: u8, kind: u8, seconds: u16, out: &mut [u8]) -> Result<usize, Full>
    ensures written { IfOk result (IsWritten (message_bytes
        (message_of (bmp5.Wait tran kind seconds))) out.old out.new) }
    ensures full { OnErr result (DoesNotFit (message_bytes (message_of (bmp5.Wait tran kind seconds)))
        out.old out.new) }
    ensures in_range { InRange (message_of (bmp5.Wait tran kind seconds)) }
{
    let pieces = [
        Piece::Byte(WAIT),
        Piece::Byte(tran),
        Piece::Byte(kind),
        Piece::Half(seconds),
    ];
    write_pieces(&pieces, out)
}
