//! The upload of a station's file of table definitions: it is asked for piece by piece, until it ends.
ghost use Rattle.std.specs.Prelude.{◌≡◌, ℕ, List, [], ◌++◌, ◌+◌, ◌*◌, ◌^◌, ◌<◌, ◌≤◌, length, drop, vec_capacity, IfOk, OnOk, OnErr};
ghost use Rattle.pb_frame.specs.Hearing.{HoldsContent};
ghost use Rattle.pb_io.specs.Disk.{ReadsOnly};
ghost use Rattle.pb_io.specs.Faults.{HasCause};
ghost use Rattle.pb_tdf.specs.Definition.{file_bytes_max};
ghost use Rattle.pb_ask.specs.Asking.{Asks, Stops};
ghost use Rattle.pb_collect.specs.Adding.{Adds};
ghost use Rattle.pb_collect.specs.Tables.{channel};
ghost use Rattle.pb_collect.specs.Upload.{Brings, MeansUpload, wanted_piece};
ghost use Rattle.pb_collect.specs.Uploads.{HoldsReply, PieceStops, StepIs, UploadComes, UploadStops};

use crate::command::Contact;
use crate::report::Cause;
use crate::upload::{FileReply, UploadCommand};
use pb_ask::{Conclusion, Listener, law_message};
use pb_bmp5::Bmp5;
use pb_io::{Failed, Site};
use pb_tdf::FILE_BYTES_MAX;
use pb_trans::Limits;

/// The most bytes of one answer, and those of the longest message.
pub(crate) const PIECE_MAX: usize = 1000;

/// What came of one request.
#[derive(Clone, Copy, Debug, PartialEq, Eq)]
pub(crate) enum Step {
    /// An answer with bytes.
    Came,
    /// An answer without bytes: the file ends.
    Ends,
    /// No answer with bytes of the file.
    Fails(Cause),
}

// Asks for a piece of the file.
fn ask_piece<S: Site>(
    listener: &mut Listener,
    site: &mut S,
    limits: Limits,
    command: &UploadCommand,
) -> Result<Conclusion<FileReply>, Failed>
    requires sends { 1 ≤ limits.sends }
    requires quiets { 1 ≤ limits.quiets }
    requires count { listener.old.ear.count ≤ 2 ^ 61 }
    ensures asks { IfOk result (λ conclusion. Asks (wanted_piece command.now) limits listener.old
        (S.view site.old).link conclusion listener.new (S.view site.new).link) }
    ensures stops { OnErr result (Stops (wanted_piece command.now) limits listener.old
        (S.view site.old).link listener.new
        (S.view site.new).link) }
    ensures holds { IfOk result (λ conclusion. HoldsReply command.now conclusion listener.new) }
    ensures adds { Adds (S.view site.old) (S.view site.new) }
    ensures disk { ReadsOnly (S.view site.old) (S.view site.new) }
    ensures disk_faults { (S.view site.new).faults ≡ (S.view site.old).faults }
    ensures cause { HasCause (S.view site.old).link.faults (S.view site.new).link.faults result }
    ensures count { listener.new.ear.count ≤ listener.old.ear.count + 2 ^ 25 }
{
    command.asks_no_records();
    law_message::<UploadCommand>();
    let conclusion = listener.ask(site, limits, command)?;
    Ok(conclusion)
}

// The bytes that an answer brings.
fn bytes_in<'a>(command: &UploadCommand, message: &'a [u8]) -> &'a [u8]
    requires { MeansUpload command.now FileReply.Data message.now }
    ensures brings { Brings command.now result.now message.now }
    ensures few { length result.now ≤ length message.now }
{
    match pb_bmp5::read(message) {
        Ok(
            Bmp5::UploadReply {
                tran: _,
                resp: _,
                offset: _,
                bytes,
            },
        ) => bytes,
        Ok(_) => unreachable!(),
        Err(_) => unreachable!(),
    }
}

// Adds the bytes of the answer at hand to those joined so far, and says how many there are.
fn join(listener: &Listener, command: &UploadCommand, file: &mut Vec<u8>) -> usize
    requires holds { HoldsReply command.now (Conclusion.Answer FileReply.Data) listener.now }
    requires room { length file.old.items + 1000 ≤ vec_capacity file.old }
    ensures joined { (bytes : List ℕ) × (file.new.items ≡ file.old.items ++ bytes)
        × (result ≡ length bytes)
        × Brings command.now bytes (drop 8 listener.now.ear.content) }
    ensures few { result ≤ 1000 }
    ensures room { vec_capacity file.old ≤ vec_capacity file.new }
{
    let bytes = bytes_in(command, listener.message());
    match file.extend_from_slice(bytes) {
        Ok(()) => bytes.len(),
        Err(_) => unreachable!(),
    }
}

// Asks for what follows the bytes joined so far, and joins it.
fn next_piece<S: Site>(
    listener: &mut Listener,
    site: &mut S,
    tran: &mut u8,
    limits: Limits,
    contact: &Contact,
    file: &mut Vec<u8>,
) -> Result<Step, Failed>
    requires sends { 1 ≤ limits.sends }
    requires quiets { 1 ≤ limits.quiets }
    requires count { listener.old.ear.count ≤ 2 ^ 61 }
    requires few { length file.old.items ≤ file_bytes_max }
    requires room { length file.old.items + 1000 ≤ vec_capacity file.old }
    ensures step { IfOk result (λ step. StepIs limits contact.now step file.old.items file.new.items
        (channel listener.old (S.view site.old).link) (channel listener.new (S.view site.new).link)) }
    ensures stops { OnErr result (PieceStops limits contact.now (length file.old.items)
        (channel listener.old (S.view site.old).link) (S.view site.new).link) }
    ensures room { vec_capacity file.old ≤ vec_capacity file.new }
    ensures small { length file.new.items ≤ length file.old.items + 1000 }
    ensures adds { Adds (S.view site.old) (S.view site.new) }
    ensures disk { ReadsOnly (S.view site.old) (S.view site.new) }
    ensures disk_faults { (S.view site.new).faults ≡ (S.view site.old).faults }
    ensures cause { HasCause (S.view site.old).link.faults (S.view site.new).link.faults result }
    ensures count { listener.new.ear.count ≤ listener.old.ear.count + 2 ^ 25 }
{
    let command = UploadCommand {
        contact: *contact,
        tran: *tran,
        offset: file.len() as u32,
    };
    *tran = tran.wrapping_add(1);
    match ask_piece(listener, site, limits, &command) {
        Err(Failed) => Err(Failed),
        Ok(Conclusion::Answer(FileReply::Data)) => {
            if join(listener, &command, file) == 0 {
                Ok(Step::Ends)
            } else {
                Ok(Step::Came)
            }
        }
        Ok(Conclusion::Answer(FileReply::Refused(code))) => Ok(Step::Fails(Cause::Refused(code))),
        Ok(Conclusion::Undelivered(code)) => Ok(Step::Fails(Cause::Undelivered(code))),
        Ok(Conclusion::NoAnswer) => Ok(Step::Fails(Cause::NoAnswer)),
        Ok(Conclusion::Flooded) => Ok(Step::Fails(Cause::Flooded)),
    }
}

/// Asks a station for its file until that ends, or has more bytes than a file may have, and joins it. Answers why it didn't
/// come. Each request has the next transaction number.
pub(crate) fn upload<S: Site>(
    listener: &mut Listener,
    site: &mut S,
    tran: &mut u8,
    limits: Limits,
    contact: &Contact,
    file: &mut Vec<u8>,
) -> Result<Option<Cause>, Failed>
    requires sends { 1 ≤ limits.sends }
    requires quiets { 1 ≤ limits.quiets }
    requires count { listener.old.ear.count ≤ 2 ^ 60 }
    requires empty { file.old.items ≡ [] }
    requires room { file_bytes_max + 1000 ≤ vec_capacity file.old }
    ensures comes { IfOk result (λ cause. UploadComes limits contact.now cause file.new.items
        (channel listener.old (S.view site.old).link) (channel listener.new (S.view site.new).link)) }
    ensures stops { OnErr result (UploadStops limits contact.now
        (channel listener.old (S.view site.old).link)
        (S.view site.new).link) }
    ensures room { vec_capacity file.old ≤ vec_capacity file.new }
    ensures adds { Adds (S.view site.old) (S.view site.new) }
    ensures disk { ReadsOnly (S.view site.old) (S.view site.new) }
    ensures disk_faults { (S.view site.new).faults ≡ (S.view site.old).faults }
    ensures cause { HasCause (S.view site.old).link.faults (S.view site.new).link.faults result }
    ensures count { listener.new.ear.count ≤ listener.old.ear.count + 2 ^ 44 }
{
    'pieces: while file.len() <= FILE_BYTES_MAX {
        match next_piece(listener, site, tran, limits, contact, file) {
            Err(Failed) => return Err(Failed),
            Ok(Step::Came) => {}
            Ok(Step::Ends) => return Ok(None),
            Ok(Step::Fails(cause)) => return Ok(Some(cause)),
        }
    }
    Ok(None)
}
