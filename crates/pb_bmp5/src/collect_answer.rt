//! The reply to a collect command, as a message.
ghost use Rattle.std.specs.Prelude.{◌≡◌, [], ◌∷◌, ◌<◌, ◌^◌, IfOk, OnErr};
ghost use Rattle.pb_base.specs.Put.{IsWritten, DoesNotFit};
ghost use Rattle.pb_layout.specs.Reading.{reading, Gives};
ghost use Rattle.pb_bmp5.specs.declared.message.Bmp5.TheVariants as bmp5;
ghost use Rattle.pb_bmp5.specs.Message.{message_of, collect_reply, InRange, message_bytes};

use crate::message::{Bmp5, COLLECT_REPLY};
use crate::refusal::write_refusal;
use pb_base::{Full, MessageFault};
use pb_layout::{Keys, Piece, write_pieces};

#[tactic(auto, unfolding(pb_layout::specs::Reading::reading))]
pub(crate) fn read_collect_reply<'a>(
    tran: u8,
    keys: &mut Keys<'a>,
) -> Result<Bmp5<'a>, MessageFault>
    ensures { Gives message_of result (reading (collect_reply tran) keys.old) }
{
    let resp = keys.byte()?;
    let bytes: &[u8] = match resp {
        0 => keys.rest(),
        _ => &[],
    };
    Ok(Bmp5::CollectReply { tran, resp, bytes })
}

pub(crate) fn write_collect_reply(
    tran: u8,
    resp: u8,
    bytes: &[u8],
    out: &mut [u8],
) -> Result<usize, Full>
    ensures written { IfOk result (IsWritten (message_bytes
        (message_of (bmp5.CollectReply tran resp bytes.entry))) out.old out.new) }
    ensures full { OnErr result (DoesNotFit (message_bytes
        (message_of (bmp5.CollectReply tran resp bytes.entry))) out.old out.new) }
    ensures in_range { InRange (message_of (bmp5.CollectReply tran resp bytes.entry)) }
{
    if resp != 0 {
        return write_refusal(COLLECT_REPLY, tran, resp, out);
    }
    let pieces = [
        Piece::Byte(COLLECT_REPLY),
        Piece::Byte(tran),
        Piece::Byte(resp),
        Piece::Bytes(bytes),
    ];
    write_pieces(&pieces, out)
}
