//! The four messages on settings.
ghost use Rattle.std.specs.Prelude.{◌≡◌, IfOk, OnErr};
ghost use Rattle.pb_base.specs.Put.{IsWritten, DoesNotFit};
ghost use Rattle.pb_layout.specs.Reading.{reading, Gives};
ghost use Rattle.pb_ctrl.specs.Message.{GetSettings, GetSettingsReply, SetSettings, SetSettingsReply, message_of, get_settings, get_settings_reply, set_settings, set_settings_reply, InRange, message_bytes};

use crate::message::{Ctrl, GET_SETTINGS, GET_SETTINGS_REPLY, SET_SETTINGS, SET_SETTINGS_REPLY};
use pb_base::{Full, MessageFault};
use pb_layout::{Keys, Piece, write_pieces};

#[tactic(auto, unfolding(pb_layout::specs::Reading::reading))]
pub(crate) fn read_get_settings<'a>(tran: u8, keys: &mut Keys<'a>) -> Result<Ctrl<'a>, MessageFault>
    ensures { Gives message_of result (reading (get_settings tran) keys.old) }
{
    let code = keys.half()?;
    let first = keys.half()?;
    Ok(Ctrl::GetSettings { tran, code, first })
}

pub(crate) fn write_get_settings(
    tran: u8,
    code: u16,
    first: u16,
    out: &mut [u8],
) -> Result<usize, Full>
    ensures written { IfOk result (IsWritten (message_bytes (GetSettings tran code first)) out.old
        out.new) }
    ensures full { OnErr result (DoesNotFit (message_bytes (GetSettings tran code first)) out.old
        out.new) }
    ensures in_range { InRange (GetSettings tran code first) }
{
    let pieces = [
        Piece::Byte(GET_SETTINGS),
        Piece::Byte(tran),
        Piece::Half(code),
        Piece::Half(first),
    ];
    write_pieces(&pieces, out)
}

#[tactic(auto, unfolding(pb_layout::specs::Reading::reading))]
pub(crate) fn read_get_settings_reply<'a>(
    tran: u8,
    keys: &mut Keys<'a>,
) -> Result<Ctrl<'a>, MessageFault>
    ensures { Gives message_of result (reading (get_settings_reply tran) keys.old) }
{
    let outcome = keys.byte()?;
    let more = keys.byte()?;
    let settings = keys.settings()?;
    Ok(Ctrl::GetSettingsReply {
        tran,
        outcome,
        more,
        settings,
    })
}

pub(crate) fn write_get_settings_reply(
    tran: u8,
    outcome: u8,
    more: u8,
    settings: &[u8],
    out: &mut [u8],
) -> Result<usize, Full>
    ensures written { IfOk result (IsWritten (message_bytes
        (GetSettingsReply tran outcome more settings.now)) out.old out.new) }
    ensures full { OnErr result (DoesNotFit (message_bytes
        (GetSettingsReply tran outcome more settings.now)) out.old out.new) }
    ensures in_range { InRange (GetSettingsReply tran outcome more settings.now) }
{
    let pieces = [
        Piece::Byte(GET_SETTINGS_REPLY),
        Piece::Byte(tran),
        Piece::Byte(outcome),
        Piece::Byte(more),
        Piece::Bytes(settings),
    ];
    write_pieces(&pieces, out)
}

#[tactic(auto, unfolding(pb_layout::specs::Reading::reading))]
pub(crate) fn read_set_settings<'a>(tran: u8, keys: &mut Keys<'a>) -> Result<Ctrl<'a>, MessageFault>
    ensures { Gives message_of result (reading (set_settings tran) keys.old) }
{
    let code = keys.half()?;
    let settings = keys.settings()?;
    Ok(Ctrl::SetSettings {
        tran,
        code,
        settings,
    })
}

pub(crate) fn write_set_settings(
    tran: u8,
    code: u16,
    settings: &[u8],
    out: &mut [u8],
) -> Result<usize, Full>
    ensures written { IfOk result (IsWritten (message_bytes (SetSettings tran code settings.now))
        out.old out.new) }
    ensures full { OnErr result (DoesNotFit (message_bytes (SetSettings tran code settings.now))
        out.old out.new) }
    ensures in_range { InRange (SetSettings tran code settings.now) }
{
    let pieces = [
        Piece::Byte(SET_SETTINGS),
        Piece::Byte(tran),
        Piece::Half(code),
        Piece::Bytes(settings),
    ];
    write_pieces(&pieces, out)
}

#[tactic(auto, unfolding(pb_layout::specs::Reading::reading))]
pub(crate) fn read_set_settings_reply<'a>(
    tran: u8,
    keys: &mut Keys<'a>,
) -> Result<Ctrl<'a>, MessageFault>
    ensures { Gives message_of result (reading (set_settings_reply tran) keys.old) }
{
    let outcome = keys.byte()?;
    let number = keys.half()?;
    Ok(Ctrl::SetSettingsReply {
        tran,
        outcome,
        number,
    })
}

pub(crate) fn write_set_settings_reply(
    tran: u8,
    outcome: u8,
    number: u16,
    out: &mut [u8],
) -> Result<usize, Full>
    ensures written { IfOk result (IsWritten (message_bytes (SetSettingsReply tran outcome number))
        out.old out.new) }
    ensures full { OnErr result (DoesNotFit (message_bytes (SetSettingsReply tran outcome number))
        out.old out.new) }
    ensures in_range { InRange (SetSettingsReply tran outcome number) }
{
    let pieces = [
        Piece::Byte(SET_SETTINGS_REPLY),
        Piece::Byte(tran),
        Piece::Byte(outcome),
        Piece::Half(number),
    ];
    write_pieces(&pieces, out)
}
