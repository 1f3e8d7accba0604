//! The upload command and its reply.
ghost use Rattle.std.specs.Prelude.{◌≡◌, [], ◌∷◌, ◌<◌, ◌^◌, IfOk, OnErr};
ghost use Rattle.pb_base.specs.Put.{IsWritten, DoesNotFit};
ghost use Rattle.pb_layout.specs.Reading.{reading, Gives};
ghost use Rattle.pb_bmp5.specs.declared.message.Bmp5.TheVariants as bmp5;
ghost use Rattle.pb_bmp5.specs.Message.{message_of, upload, upload_reply, InRange, message_bytes};

use crate::message::{Bmp5, UPLOAD, UPLOAD_REPLY};
use crate::refusal::write_refusal;
use pb_base::{Full, MessageFault};
use pb_layout::{Keys, Piece, write_pieces};

#[tactic(auto, unfolding(pb_layout::specs::Reading::reading))]
pub(crate) fn read_upload<'a>(tran: u8, keys: &mut Keys<'a>) -> Result<Bmp5<'a>, MessageFault>
    ensures { Gives message_of result (reading (upload tran) keys.old) }
{
    let code = keys.half()?;
    let name = keys.text()?;
    let close = keys.byte()?;
    let offset = keys.word()?;
    let swath = keys.half()?;
    Ok(Bmp5::Upload {
        tran,
        code,
        name,
        close,
        offset,
        swath,
    })
}

pub(crate) fn write_upload(
    tran: u8,
    code: u16,
    name: &[u8],
    close: u8,
    offset: u32,
    swath: u16,
    out: &mut [u8],
) -> Result<usize, Full>
    ensures written { IfOk result
        (IsWritten (message_bytes (message_of (bmp5.Upload tran code name.entry close offset swath))) out.old out.new) }
    ensures full { OnErr result
        (DoesNotFit (message_bytes (message_of (bmp5.Upload tran code name.entry close offset swath))) out.old out.new) }
    ensures in_range { InRange (message_of (bmp5.Upload tran code name.entry close offset swath)) }
{
    let pieces = [
        Piece::Byte(UPLOAD),
        Piece::Byte(tran),
        Piece::Half(code),
        Piece::Text(name),
        Piece::Byte(close),
        Piece::Word(offset),
        Piece::Half(swath),
    ];
    write_pieces(&pieces, out)
}

#[tactic(auto, unfolding(pb_layout::specs::Reading::reading))]
pub(crate) fn read_upload_reply<'a>(tran: u8, keys: &mut Keys<'a>) -> Result<Bmp5<'a>, MessageFault>
    ensures { Gives message_of result (reading (upload_reply tran) keys.old) }
{
    let resp = keys.byte()?;
    if resp != 0 {
        return Ok(Bmp5::UploadReply {
            tran,
            resp,
            offset: 0,
            bytes: &[],
        });
    }
    let offset = keys.word()?;
    let bytes = keys.rest();
    Ok(Bmp5::UploadReply {
        tran,
        resp,
        offset,
        bytes,
    })
}

pub(crate) fn write_upload_reply(
    tran: u8,
    resp: u8,
    offset: u32,
    bytes: &[u8],
    out: &mut [u8],
) -> Result<usize, Full>
    ensures written { IfOk result
        (IsWritten (message_bytes (message_of (bmp5.UploadReply tran resp offset bytes.entry))) out.old out.new) }
    ensures full { OnErr result
        (DoesNotFit (message_bytes (message_of (bmp5.UploadReply tran resp offset bytes.entry))) out.old out.new) }
    ensures in_range { InRange (message_of (bmp5.UploadReply tran resp offset bytes.entry)) }
{
    if resp != 0 {
        return write_refusal(UPLOAD_REPLY, tran, resp, out);
    }
    let pieces = [
        Piece::Byte(UPLOAD_REPLY),
        Piece::Byte(tran),
        Piece::Byte(resp),
        Piece::Word(offset),
        Piece::Bytes(bytes),
    ];
    write_pieces(&pieces, out)
}
