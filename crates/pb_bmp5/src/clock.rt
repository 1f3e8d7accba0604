//! The clock command and its reply.
ghost use Rattle.std.specs.Prelude.{◌≡◌, [], ◌∷◌, ◌<◌, ◌^◌, IfOk, OnErr};
ghost use Rattle.pb_base.specs.Put.{IsWritten, DoesNotFit};
ghost use Rattle.pb_layout.specs.Reading.{reading, Gives};
ghost use Rattle.pb_bmp5.specs.declared.message.Bmp5.TheVariants as bmp5;
ghost use Rattle.pb_bmp5.specs.Message.{message_of, clock, clock_reply, InRange, message_bytes};

use crate::message::{Bmp5, CLOCK, CLOCK_REPLY};
use crate::refusal::write_refusal;
use pb_base::{Full, MessageFault, Nsec};
use pb_layout::{Keys, Piece, write_pieces};

#[tactic(auto, unfolding(pb_layout::specs::Reading::reading))]
pub(crate) fn read_clock<'a>(tran: u8, keys: &mut Keys<'a>) -> Result<Bmp5<'a>, MessageFault>
    ensures { Gives message_of result (reading (clock tran) keys.old) }
{
    let code = keys.half()?;
    let adjust = keys.time()?;
    Ok(Bmp5::Clock { tran, code, adjust })
}

pub(crate) fn write_clock(tran: u8, code: u16, adjust: Nsec, out: &mut [u8]) -> Result<usize, Full>
    ensures written { IfOk result (IsWritten (message_bytes
        (message_of (bmp5.Clock tran code adjust))) out.old out.new) }
    ensures full { OnErr result (DoesNotFit (message_bytes (message_of (bmp5.Clock tran code adjust)))
        out.old out.new) }
    ensures in_range { InRange (message_of (bmp5.Clock tran code adjust)) }
{
    let pieces = [
        Piece::Byte(CLOCK),
        Piece::Byte(tran),
        Piece::Half(code),
        Piece::Time(adjust),
    ];
    write_pieces(&pieces, out)
}

#[tactic(auto, unfolding(pb_layout::specs::Reading::reading))]
pub(crate) fn read_clock_reply<'a>(tran: u8, keys: &mut Keys<'a>) -> Result<Bmp5<'a>, MessageFault>
    ensures { Gives message_of result (reading (clock_reply tran) keys.old) }
{
    let resp = keys.byte()?;
    let time = match resp {
        0 => keys.time()?,
        _ => Nsec { sec: 0, nano: 0 },
    };
    Ok(Bmp5::ClockReply { tran, resp, time })
}

pub(crate) fn write_clock_reply(
    tran: u8,
    resp: u8,
    time: Nsec,
    out: &mut [u8],
) -> Result<usize, Full>
    ensures written { IfOk result (IsWritten (message_bytes
        (message_of (bmp5.ClockReply tran resp time))) out.old out.new) }
    ensures full { OnErr result (DoesNotFit (message_bytes
        (message_of (bmp5.ClockReply tran resp time))) out.old out.new) }
    ensures in_range { InRange (message_of (bmp5.ClockReply tran resp time)) }
{
    if resp != 0 {
        return write_refusal(CLOCK_REPLY, tran, resp, out);
    }
    let pieces = [
        Piece::Byte(CLOCK_REPLY),
        Piece::Byte(tran),
        Piece::Byte(resp),
        Piece::Time(time),
    ];
    write_pieces(&pieces, out)
}
