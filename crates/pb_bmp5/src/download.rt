//! The download command and its reply.
ghost use Rattle.std.specs.Prelude.{◌≡◌, [], ◌∷◌, ◌<◌, ◌^◌, IfOk, OnErr};
ghost use Rattle.pb_base.specs.Put.{IsWritten, DoesNotFit};
ghost use Rattle.pb_layout.specs.Reading.{reading, Gives};
ghost use Rattle.pb_bmp5.specs.declared.message.Bmp5.TheVariants as bmp5;
ghost use Rattle.pb_bmp5.specs.Message.{message_of, download, download_reply, InRange, message_bytes};

use crate::message::{Bmp5, DOWNLOAD, DOWNLOAD_REPLY};
use crate::refusal::write_refusal;
use pb_base::{Full, MessageFault};
use pb_layout::{Keys, Piece, write_pieces};

#[tactic(auto, unfolding(pb_layout::specs::Reading::reading))]
pub(crate) fn read_download<'a>(tran: u8, keys: &mut Keys<'a>) -> Result<Bmp5<'a>, MessageFault>
    ensures { Gives message_of result (reading (download tran) keys.old) }
{
    let code = keys.half()?;
    let name = keys.text()?;
    let attr = keys.byte()?;
    let close = keys.byte()?;
    let offset = keys.word()?;
    let bytes = keys.rest();
    Ok(Bmp5::Download {
        tran,
        code,
        name,
        attr,
        close,
        offset,
        bytes,
    })
}

pub(crate) fn write_download<'a>(
    tran: u8,
    code: u16,
    name: &'a [u8],
    attr: u8,
    close: u8,
    offset: u32,
    bytes: &'a [u8],
    out: &mut [u8],
) -> Result<usize, Full>
    ensures written { IfOk result
        (IsWritten (message_bytes (message_of (bmp5.Download tran code name.entry attr close offset bytes.entry)))
        out.old out.new) }
    ensures full { OnErr result
        (DoesNotFit (message_bytes (message_of (bmp5.Download tran code name.entry attr close offset bytes.entry)))
        out.old out.new) }
    ensures in_range { InRange (message_of (bmp5.Download tran code name.entry attr close offset
        bytes.entry)) }
{
    let pieces = [
        Piece::Byte(DOWNLOAD),
        Piece::Byte(tran),
        Piece::Half(code),
        Piece::Text(name),
        Piece::Byte(attr),
        Piece::Byte(close),
        Piece::Word(offset),
        Piece::Bytes(bytes),
    ];
    write_pieces(&pieces, out)
}

#[tactic(auto, unfolding(pb_layout::specs::Reading::reading))]
pub(crate) fn read_download_reply<'a>(
    tran: u8,
    keys: &mut Keys<'a>,
) -> Result<Bmp5<'a>, MessageFault>
    ensures { Gives message_of result (reading (download_reply tran) keys.old) }
{
    let resp = keys.byte()?;
    let offset = match resp {
        0 => keys.word()?,
        _ => 0,
    };
    Ok(Bmp5::DownloadReply { tran, resp, offset })
}

pub(crate) fn write_download_reply(
    tran: u8,
    resp: u8,
    offset: u32,
    out: &mut [u8],
) -> Result<usize, Full>
    ensures written { IfOk result (IsWritten (message_bytes
        (message_of (bmp5.DownloadReply tran resp offset))) out.old out.new) }
    ensures full { OnErr result (DoesNotFit (message_bytes
        (message_of (bmp5.DownloadReply tran resp offset))) out.old out.new) }
    ensures in_range { InRange (message_of (bmp5.DownloadReply tran resp offset)) }
{
    if resp != 0 {
        return write_refusal(DOWNLOAD_REPLY, tran, resp, out);
    }
    let pieces = [
        Piece::Byte(DOWNLOAD_REPLY),
        Piece::Byte(tran),
        Piece::Byte(resp),
        Piece::Word(offset),
    ];
    write_pieces(&pieces, out)
}
