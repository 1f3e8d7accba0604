//! What a station answers to PakCtrl messages.
ghost use Rattle.std.specs.Prelude.{◌≡◌};
ghost use Rattle.pb_packet.specs.Packet.{FitsHeader};
ghost use Rattle.pb_ctrl.specs.Message.{message_of};
ghost use Rattle.pb_station.specs.Answer.{FitsPacket, hear_ctrl, to_ctrl, answer_get, answer_set, fault_code};
ghost use Rattle.pb_station.specs.Inside.Answered.{IsGiven};

use crate::device::Device;
use crate::reply::{PACKET_MAX, fail, reply_ctrl};
use crate::settings::{SETTINGS_BYTES_MAX, SetResult};
use crate::station::Answered;
use pb_base::MessageFault;
use pb_ctrl::Ctrl;
use pb_packet::Header;

/// The codes of failures.
pub(crate) const UNKNOWN_PROTOCOL: u8 = 2;

const UNKNOWN_MESSAGE: u8 = 4;

const MALFORMED: u8 = 5;

/// What a station says of itself in answer to a hello: its response time class, and the seconds between verifications.
const METRIC: u8 = 2;

const VERIFY: u16 = 1800;

/// The code of the failure that a message gets which can't be read.
pub(crate) fn fault_code(fault: MessageFault) -> u8
    ensures { result ≡ fault_code fault }
{
    match fault {
        MessageFault::UnknownType(_) => UNKNOWN_MESSAGE,
        MessageFault::Malformed { .. } => MALFORMED,
    }
}

impl Device {
    /// Answers a PakCtrl message, which may be none.
    pub(crate) fn answer_ctrl(
        &mut self,
        header: &Header,
        message: &[u8],
        out: &mut [u8; PACKET_MAX],
    ) -> Answered
        requires { FitsHeader header.now }
        ensures answered { let answer = hear_ctrl self.old header.now message.now in
            IsGiven answer self.old self.new header.now out.old out.new result }
        ensures within { FitsPacket result }
    {
        match pb_ctrl::read(message) {
            Ok(read) => self.answer_to_ctrl(header, &read, out),
            Err(fault) => fail(self.address(), header, fault_code(fault), message, out),
        }
    }

    fn answer_to_ctrl(
        &mut self,
        header: &Header,
        message: &Ctrl,
        out: &mut [u8; PACKET_MAX],
    ) -> Answered
        ensures answered { let answer = to_ctrl self.old (message_of message.now) in
            IsGiven answer self.old self.new header.now out.old out.new result }
        ensures within { FitsPacket result }
    {
        match *message {
            Ctrl::Hello { tran, .. } => {
                let reply = Ctrl::HelloReply {
                    tran,
                    router: 0,
                    metric: METRIC,
                    verify: VERIFY,
                };
                reply_ctrl(self.address(), header, &reply, out)
            }
            Ctrl::GetSettings { tran, code, first } => {
                self.answer_get(header, tran, code, first, out)
            }
            Ctrl::SetSettings {
                tran,
                code,
                settings,
            } => self.answer_set(header, tran, code, settings, out),
            Ctrl::HelloReply { .. } => Answered::Silent,
            Ctrl::Bye { .. } => Answered::Silent,
            Ctrl::HelloRequest { .. } => Answered::Silent,
            Ctrl::Failure { .. } => Answered::Silent,
            Ctrl::GetSettingsReply { .. } => Answered::Silent,
            Ctrl::SetSettingsReply { .. } => Answered::Silent,
        }
    }

    fn answer_get(
        &self,
        header: &Header,
        tran: u8,
        code: u16,
        first: u16,
        out: &mut [u8; PACKET_MAX],
    ) -> Answered
        ensures answered { let answer = answer_get self.now tran code first in
            IsGiven answer self.now self.now header.now out.old out.new result }
        ensures within { FitsPacket result }
    {
        if self.is_wrong(code) {
            let refusal = Ctrl::GetSettingsReply {
                tran,
                outcome: 1,
                more: 0,
                settings: &[],
            };
            return reply_ctrl(self.address(), header, &refusal, out);
        }
        let mut settings = [0; SETTINGS_BYTES_MAX];
        let len = self.settings_into(first, &mut settings);
        let reply = Ctrl::GetSettingsReply {
            tran,
            outcome: 0,
            more: 0,
            settings: &settings[..len],
        };
        reply_ctrl(self.address(), header, &reply, out)
    }

    fn answer_set(
        &mut self,
        header: &Header,
        tran: u8,
        code: u16,
        settings: &[u8],
        out: &mut [u8; PACKET_MAX],
    ) -> Answered
        ensures answered { let answer = answer_set self.old tran code settings.now in
            IsGiven answer self.old self.new header.now out.old out.new result }
        ensures within { FitsPacket result }
    {
        if self.is_wrong(code) {
            let refusal = Ctrl::SetSettingsReply {
                tran,
                outcome: 1,
                number: 0,
            };
            return reply_ctrl(self.address(), header, &refusal, out);
        }
        let address = self.address();
        let SetResult { outcome, number } = self.set(settings);
        let reply = Ctrl::SetSettingsReply {
            tran,
            outcome,
            number,
        };
        reply_ctrl(address, header, &reply, out)
    }
}
