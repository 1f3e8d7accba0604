//! Collect commands as questions: their frames, and which replies answer them.
ghost use Rattle.std.specs.Prelude.{◌≡◌, ◌≤◌, ◌<◌, length, take, MatchOption};
ghost use Rattle.pb_bmp5.specs.Message.{Collect, InRange};
ghost use Rattle.pb_collect.specs.Question.{AsksOnce, MeansReply, command_frame, command_keys, command_message};

use crate::answer::{Said, fits};
use crate::command::{Contact, write_command};
use pb_ask::Question;
use pb_base::{Layout, NodeId, TableNo};
use pb_bmp5::{Bmp5, Mode, read_collect, written_message_is_read};
use pb_packet::PROTO_BMP5;
use pb_trans::Asked;
use pb_truth::written_frames_ask_once;

/// The type of a collect command's message, and of its reply's (BMP5).
const COLLECT: u8 = 0x09;

const COLLECT_REPLY: u8 = 0x89;

/// A collect command for a table, without a list of fields.
#[derive(Clone, Copy, Debug, PartialEq, Eq)]
pub struct CollectCommand {
    /// The address that asks, the neighbour to which the frame goes, and the station.
    pub me: NodeId,
    pub via: NodeId,
    pub station: NodeId,
    /// The station's security code.
    pub code: u16,
    /// The transaction number.
    pub tran: u8,
    /// The table's number and the signature of its definition.
    pub table: TableNo,
    pub sig: u16,
    /// How its records are cut.
    pub layout: Layout,
    /// What is asked for.
    pub mode: Mode,
}

impl Question for CollectCommand {
    type Answer = Said;

    ghost use Rattle.pb_collect.specs.Question.{wanted_reply};

    ghost wanted = { wanted_reply };

    fn asked(&self) -> Asked {
        Asked {
            me: self.me,
            station: self.station,
            proto: PROTO_BMP5,
            kind: COLLECT,
            tran: self.tran,
        }
    }

    fn write(&self, out: &mut [u8]) -> usize {
        self.write_frame(out)
    }

    fn judge(&self, message: &[u8]) -> Option<Said> {
        self.answer_in(message)
    }
}

impl CollectCommand {
    // Writes the frame.
    fn write_frame(&self, out: &mut [u8]) -> usize
        requires { 2022 ≤ length out.old }
        ensures within { result ≤ length out.old }
        ensures some { 0 < result }
        ensures frame { take result out.new ≡ command_frame self.now }
    {
        let mut message = [0; 32];
        let len = self.write_message(&mut message);
        let contact = Contact {
            me: self.me,
            via: self.via,
            station: self.station,
            code: self.code,
        };
        write_command(&contact, &message[..len], out)
    }

    // Writes the message.
    fn write_message(&self, out: &mut [u8]) -> usize
        requires { 32 ≤ length out.old }
        ensures within { result ≤ 32 }
        ensures message { take result out.new ≡ command_message self.now }
        ensures in_range { InRange (Collect self.now.tran (command_keys self.now)) }
    {
        let command = Bmp5::Collect {
            tran: self.tran,
            code: self.code,
            mode: self.mode,
            table: self.table,
            sig: self.sig,
            fields: &[],
        };
        pb_bmp5::write(&command, out).unwrap()
    }

    // What a message says that answers the command.
    fn answer_in(&self, message: &[u8]) -> Option<Said>
        ensures { MatchOption result ((said : Said) → MeansReply self.now said message.now → ⊥)
            (λ said. MeansReply self.now said message.now) }
    {
        if message.is_empty() || message[0] != COLLECT_REPLY {
            return None;
        }
        let Ok(reply) = read_collect(message, self.table, &self.layout) else {
            return None;
        };
        if !fits(self.mode, &reply) {
            return None;
        }
        Some(Said {
            resp: reply.resp,
            more: reply.more,
        })
    }

    /// Its frame asks for nothing else.
    pub fn asks_once(&self)
        ensures { AsksOnce self.now }
    {
        let _ = (self.me.get(), self.via.get(), self.station.get());
        let mut message = [0; 32];
        let _ = self.write_message(&mut message);
        written_frames_ask_once();
        written_message_is_read();
    }
}
