//! The collect command, with the modes of asking for records.
ghost use Rattle.std.specs.Prelude.{◌≡◌, ◌++◌, Ok, Err, IfOk, IfErr, OnErr};
ghost use Rattle.pb_base.specs.Put.{IsWritten, DoesNotFit};
ghost use Rattle.pb_layout.specs.Pieces.{piece_bytes};
ghost use Rattle.pb_layout.specs.Layout.{MessageLayout};
ghost use Rattle.pb_layout.specs.Reading.{reading, Gives};
ghost use Rattle.pb_bmp5.specs.declared.message.Mode.{Mode as AnyMode};
ghost use Rattle.pb_bmp5.specs.declared.message.Bmp5.TheVariants as bmp5;
ghost use Rattle.pb_bmp5.specs.Message.{Message, message_of, parameters, collect, InRange, message_bytes};
ghost use Rattle.pb_bmp5.specs.Modes.{mode_number, parameter_bytes, ModeFits};

use crate::message::{Bmp5, COLLECT, Mode};
use pb_base::{Full, MessageFault, TableNo};
use pb_layout::{Keys, Piece, write_pieces};

/// The numbers of the modes.
const ALL: u8 = 3;

const FROM: u8 = 4;

const NEWEST: u8 = 5;

const RANGE: u8 = 6;

const TIMES: u8 = 7;

const PART: u8 = 8;

/// The place of the mode in its message.
const MODE_AT: usize = 4;

#[tactic(auto, unfolding(pb_layout::specs::Reading::reading))]
pub(crate) fn read_collect_command<'a>(
    tran: u8,
    keys: &mut Keys<'a>,
) -> Result<Bmp5<'a>, MessageFault>
    ensures { Gives message_of result (reading (collect tran) keys.old) }
{
    let code = keys.half()?;
    let number = keys.between(ALL, PART)?;
    let table = keys.half()?;
    let sig = keys.half()?;
    let mode = read_parameters(number, keys)?;
    let fields = keys.numbers()?;
    Ok(Bmp5::Collect {
        tran,
        code,
        mode,
        table: TableNo(table),
        sig,
        fields,
    })
}

#[tactic(auto, unfolding(pb_layout::specs::Reading::reading))]
fn read_parameters(number: u8, keys: &mut Keys) -> Result<Mode, MessageFault>
    ensures read { IfOk result
        (λ mode. (next : AnyMode → MessageLayout Message)
        → reading (parameters number next) keys.old ≡ reading (next mode) keys.new) }
    ensures refused { IfErr result
        (λ fault. (next : AnyMode → MessageLayout Message) → reading (parameters number next) keys.old ≡ Err fault) }
{
    match number {
        ALL => Ok(Mode::All),
        FROM => Ok(Mode::From(keys.word()?)),
        NEWEST => Ok(Mode::Newest(keys.word()?)),
        RANGE => {
            let first = keys.word()?;
            Ok(Mode::Range(first, keys.word()?))
        }
        TIMES => {
            let first = keys.time()?;
            Ok(Mode::Times(first, keys.time()?))
        }
        PART => {
            let record = keys.word()?;
            Ok(Mode::Part(record, keys.word()?))
        }
        _ => Err(MessageFault::Malformed { at: MODE_AT }),
    }
}

pub(crate) fn write_collect_command(
    tran: u8,
    code: u16,
    mode: Mode,
    table: TableNo,
    sig: u16,
    fields: &[u8],
    out: &mut [u8],
) -> Result<usize, Full>
    ensures written { IfOk result
        (IsWritten (message_bytes (message_of (bmp5.Collect tran code mode table sig fields.entry))) out.old out.new) }
    ensures full { OnErr result
        (DoesNotFit (message_bytes (message_of (bmp5.Collect tran code mode table sig fields.entry))) out.old out.new) }
    ensures in_range { InRange (message_of (bmp5.Collect tran code mode table sig fields.entry)) }
{
    let asked = asked_by(mode);
    let pieces = [
        Piece::Byte(COLLECT),
        Piece::Byte(tran),
        Piece::Half(code),
        Piece::Byte(asked.number),
        Piece::Half(table.0),
        Piece::Half(sig),
        asked.first,
        asked.second,
        Piece::Numbers(fields),
    ];
    write_pieces(&pieces, out)
}

/// A mode's number and its parameters; a parameter that it doesn't have is no bytes.
#[derive(Clone, Copy)]
struct Asked {
    number: u8,
    first: Piece<'static>,
    second: Piece<'static>,
}

fn asked_by(mode: Mode) -> Asked
    ensures number { result.number ≡ mode_number mode }
    ensures parameters { piece_bytes result.first ++ piece_bytes result.second ≡ parameter_bytes mode }
    ensures in_range { ModeFits mode }
{
    let none = Piece::Bytes(&[]);
    let (number, first, second) = match mode {
        Mode::All => (ALL, none, none),
        Mode::From(first) => (FROM, Piece::Word(first), none),
        Mode::Newest(count) => (NEWEST, Piece::Word(count), none),
        Mode::Range(first, last) => (RANGE, Piece::Word(first), Piece::Word(last)),
        Mode::Times(first, last) => (TIMES, Piece::Time(first), Piece::Time(last)),
        Mode::Part(record, offset) => (PART, Piece::Word(record), Piece::Word(offset)),
    };
    Asked {
        number,
        first,
        second,
    }
}
