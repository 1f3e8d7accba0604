//! The command that asks for the state of the programming, and its reply.
ghost use Rattle.std.specs.Prelude.{◌≡◌, [], ◌∷◌, ◌<◌, ◌^◌, IfOk, OnErr};
ghost use Rattle.pb_base.specs.Put.{IsWritten, DoesNotFit};
ghost use Rattle.pb_layout.specs.Reading.{reading, Gives};
ghost use Rattle.pb_bmp5.specs.declared.message.Bmp5.TheVariants as bmp5;
ghost use Rattle.pb_bmp5.specs.Message.{StatsReply, no_stats, message_of, stats, stats_reply, InRange, message_bytes};

use crate::message::{Bmp5, STATS, STATS_REPLY};
use pb_base::{Full, MessageFault, Nsec};
use pb_layout::{Keys, Piece, write_pieces};

#[tactic(auto, unfolding(pb_layout::specs::Reading::reading))]
pub(crate) fn read_stats<'a>(tran: u8, keys: &mut Keys<'a>) -> Result<Bmp5<'a>, MessageFault>
    ensures { Gives message_of result (reading (stats tran) keys.old) }
{
    let code = keys.half()?;
    Ok(Bmp5::Stats { tran, code })
}

pub(crate) fn write_stats(tran: u8, code: u16, out: &mut [u8]) -> Result<usize, Full>
    ensures written { IfOk result (IsWritten (message_bytes (message_of (bmp5.Stats tran code)))
        out.old out.new) }
    ensures full { OnErr result (DoesNotFit (message_bytes (message_of (bmp5.Stats tran code)))
        out.old out.new) }
    ensures in_range { InRange (message_of (bmp5.Stats tran code)) }
{
    let pieces = [Piece::Byte(STATS), Piece::Byte(tran), Piece::Half(code)];
    write_pieces(&pieces, out)
}

#[tactic(auto, unfolding(pb_layout::specs::Reading::reading))]
pub(crate) fn read_stats_reply<'a>(tran: u8, keys: &mut Keys<'a>) -> Result<Bmp5<'a>, MessageFault>
    ensures { Gives message_of result (reading (stats_reply tran) keys.old) }
{
    let resp = keys.byte()?;
    if resp != 0 {
        return Ok(refused(tran, resp));
    }
    Ok(Bmp5::StatsReply {
        tran,
        resp,
        osver: keys.text()?,
        ossig: keys.half()?,
        serial: keys.text()?,
        powerup: keys.text()?,
        state: keys.byte()?,
        prog: keys.text()?,
        progsig: keys.half()?,
        time: keys.time()?,
        result: keys.text()?,
    })
}

fn refused(tran: u8, resp: u8) -> Bmp5<'static>
    ensures { message_of result ≡ StatsReply tran resp no_stats }
{
    Bmp5::StatsReply {
        tran,
        resp,
        osver: &[],
        ossig: 0,
        serial: &[],
        powerup: &[],
        state: 0,
        prog: &[],
        progsig: 0,
        time: Nsec { sec: 0, nano: 0 },
        result: &[],
    }
}

pub(crate) fn write_stats_reply<'a>(
    tran: u8,
    osver: &'a [u8],
    ossig: u16,
    serial: &'a [u8],
    powerup: &'a [u8],
    state: u8,
    prog: &'a [u8],
    progsig: u16,
    time: Nsec,
    result_text: &'a [u8],
    out: &mut [u8],
) -> Result<usize, Full>
    ensures written { IfOk result (IsWritten (message_bytes
        (message_of (bmp5.StatsReply tran 0 osver.entry ossig serial.entry
        powerup.entry state prog.entry progsig time result_text.entry))) out.old out.new) }
    ensures full { OnErr result (DoesNotFit (message_bytes
        (message_of (bmp5.StatsReply tran 0 osver.entry ossig serial.entry
        powerup.entry state prog.entry progsig time result_text.entry))) out.old out.new) }
    ensures in_range { InRange (message_of (bmp5.StatsReply tran 0 osver.entry ossig serial.entry
        powerup.entry state prog.entry progsig time result_text.entry)) }
{
    let pieces = [
        Piece::Byte(STATS_REPLY),
        Piece::Byte(tran),
        Piece::Byte(0),
        Piece::Text(osver),
        Piece::Half(ossig),
        Piece::Text(serial),
        Piece::Text(powerup),
        Piece::Byte(state),
        Piece::Text(prog),
        Piece::Half(progsig),
        Piece::Time(time),
        Piece::Text(result_text),
    ];
    write_pieces(&pieces, out)
}
