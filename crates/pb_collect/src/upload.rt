//! Upload commands as questions: their frames, and which replies answer them.
ghost use Rattle.std.specs.Prelude.{◌≡◌, ◌≤◌, ◌<◌, length, take, MatchOption};
ghost use Rattle.pb_bmp5.specs.Message.{Upload, InRange};
ghost use Rattle.pb_collect.specs.Upload.{AsksNoRecords, MeansUpload, upload_frame, upload_keys, upload_message};

use crate::command::{Contact, write_command};
use pb_ask::Question;
use pb_bmp5::{Bmp5, written_message_is_read};
use pb_packet::{PROTO_BMP5, written_is_read};
use pb_trans::Asked;

/// The type of an upload command's message (BMP5).
const UPLOAD: u8 = 0x1D;

/// How many bytes are asked for at once, at most (of this project).
const SWATH: u16 = 900;

/// An upload command for a piece of a station's file of table definitions.
#[derive(Clone, Copy, Debug, PartialEq, Eq)]
pub struct UploadCommand {
    /// How the station is asked.
    pub contact: Contact,
    /// The transaction number.
    pub tran: u8,
    /// The place in the file from which on its bytes are asked for.
    pub offset: u32,
}

/// What a reply to it says.
#[derive(Clone, Copy, Debug, PartialEq, Eq, Drop)]
pub enum FileReply {
    /// It has bytes of the file, from the asked place on; none where the file ends there.
    Data,
    /// The station refuses, with this response code, which isn't 0.
    Refused(u8),
}

impl Question for UploadCommand {
    type Answer = FileReply;

    ghost use Rattle.pb_collect.specs.Upload.{wanted_piece};

    ghost wanted = { wanted_piece };

    fn asked(&self) -> Asked {
        Asked {
            me: self.contact.me,
            station: self.contact.station,
            proto: PROTO_BMP5,
            kind: UPLOAD,
            tran: self.tran,
        }
    }

    fn write(&self, out: &mut [u8]) -> usize {
        self.write_frame(out)
    }

    fn judge(&self, message: &[u8]) -> Option<FileReply> {
        self.answer_in(message)
    }
}

impl UploadCommand {
    // Writes the frame.
    fn write_frame(&self, out: &mut [u8]) -> usize
        requires { 2022 ≤ length out.old }
        ensures within { result ≤ length out.old }
        ensures some { 0 < result }
        ensures frame { take result out.new ≡ upload_frame self.now }
    {
        let mut message = [0; 32];
        let len = self.write_message(&mut message);
        write_command(&self.contact, &message[..len], out)
    }

    // Writes the message.
    fn write_message(&self, out: &mut [u8]) -> usize
        requires { 32 ≤ length out.old }
        ensures within { result ≤ 32 }
        ensures message { take result out.new ≡ upload_message self.now }
        ensures in_range { InRange (Upload self.now.tran (upload_keys self.now)) }
    {
        let command = Bmp5::Upload {
            tran: self.tran,
            code: self.contact.code,
            name: b".TDF",
            close: 0,
            offset: self.offset,
            swath: SWATH,
        };
        pb_bmp5::write(&command, out).unwrap()
    }

    // What a message says that answers the command.
    fn answer_in(&self, message: &[u8]) -> Option<FileReply>
        ensures { MatchOption result ((reply : FileReply) → MeansUpload self.now reply message.now → ⊥)
            (λ reply. MeansUpload self.now reply message.now) }
    {
        written_message_is_read();
        match pb_bmp5::read(message) {
            Ok(
                Bmp5::UploadReply {
                    tran,
                    resp,
                    offset,
                    bytes: _,
                },
            ) => {
                if tran != self.tran {
                    None
                } else if resp != 0 {
                    Some(FileReply::Refused(resp))
                } else if offset == self.offset {
                    Some(FileReply::Data)
                } else {
                    None
                }
            }
            Ok(_) => None,
            Err(_) => None,
        }
    }

    /// Its frame asks for no records.
    pub fn asks_no_records(&self)
        ensures { AsksNoRecords self.now }
    {
        let _ = (
            self.contact.me.get(),
            self.contact.via.get(),
            self.contact.station.get(),
        );
        let mut message = [0; 32];
        let _ = self.write_message(&mut message);
        written_is_read();
        written_message_is_read();
    }
}
