//! What a station answers to BMP5 messages.
ghost use Rattle.std.specs.Prelude.{◌≡◌, min, List, [], take, drop};
ghost use Rattle.pb_packet.specs.Packet.{FitsHeader};
ghost use Rattle.pb_bmp5.specs.Message.{message_of};
ghost use Rattle.pb_station.specs.State.{Table, TablesStandFor};
ghost use Rattle.pb_station.specs.Files.{part_max};
ghost use Rattle.pb_station.specs.Answer.{FitsPacket, hear_bmp5, to_bmp5, answer_collect, answer_clock, answer_stats, answer_download, answer_upload};
ghost use Rattle.pb_station.specs.Inside.Answered.{IsGiven};
ghost use Rattle.pb_station.specs.Inside.Commands.{collect_keys, download_keys, upload_keys};

use crate::collect::{BODY_MAX, Command, collect};
use crate::ctrl_answers::fault_code;
use crate::device::Device;
use crate::files::{DENIED, NO_FILE};
use crate::refusing::{
    NO_TIME, clock_refusal, collect_refusal, download_refusal, stats_refusal, upload_refusal,
};
use crate::reply::{PACKET_MAX, fail, reply_bmp5};
use crate::settings::VERSION;
use crate::station::Answered;
use crate::table::HeldTable;
use itoa::Buffer;
use pb_base::Nsec;
use pb_bmp5::Bmp5;
use pb_packet::Header;

/// The response code of an adjustment that leaves no time.
const OUT_OF_RANGE: u8 = 2;

/// The most bytes of a file that one upload gives.
const PART_MAX: usize = 960;

/// Answers a BMP5 message, which may be none.
pub(crate) fn answer_bmp5(
    device: &mut Device,
    tables: &[HeldTable],
    header: &Header,
    message: &[u8],
    out: &mut [u8; PACKET_MAX],
) -> Answered
    requires { FitsHeader header.now }
    ensures answered { (all : List Table) → TablesStandFor tables.now all
        → let answer = hear_bmp5 (record { device = device.old; tables = all }) header.now message.now in
        IsGiven answer device.old device.new header.now out.old out.new result }
    ensures within { FitsPacket result }
{
    match pb_bmp5::read(message) {
        Ok(read) => answer_to_bmp5(device, tables, header, &read, out),
        Err(fault) => fail(device.address(), header, fault_code(fault), message, out),
    }
}

fn answer_to_bmp5(
    device: &mut Device,
    tables: &[HeldTable],
    header: &Header,
    message: &Bmp5,
    out: &mut [u8; PACKET_MAX],
) -> Answered
    ensures answered { (all : List Table) → TablesStandFor tables.now all
        → let answer = to_bmp5 (record { device = device.old; tables = all }) (message_of message.now) in
        IsGiven answer device.old device.new header.now out.old out.new result }
    ensures within { FitsPacket result }
{
    match *message {
        Bmp5::Collect {
            tran,
            code,
            mode,
            table,
            sig,
            fields,
        } => {
            let asked = Command {
                table,
                sig,
                fields,
                mode,
            };
            device.answer_collect(tables, header, tran, code, asked, out)
        }
        Bmp5::Clock { tran, code, adjust } => device.answer_clock(header, tran, code, adjust, out),
        Bmp5::Stats { tran, code } => device.answer_stats(header, tran, code, out),
        Bmp5::Download {
            tran,
            code,
            name,
            offset,
            bytes,
            ..
        } => {
            let part = Part {
                name,
                offset,
                bytes,
            };
            device.answer_download(header, tran, code, part, out)
        }
        Bmp5::Upload {
            tran,
            code,
            name,
            offset,
            swath,
            ..
        } => {
            let part = Wanted {
                name,
                offset,
                swath,
            };
            device.answer_upload(header, tran, code, part, out)
        }
        Bmp5::CollectReply { .. } => Answered::Silent,
        Bmp5::ClockReply { .. } => Answered::Silent,
        Bmp5::StatsReply { .. } => Answered::Silent,
        Bmp5::DownloadReply { .. } => Answered::Silent,
        Bmp5::UploadReply { .. } => Answered::Silent,
        Bmp5::Wait { .. } => Answered::Silent,
    }
}

/// A part of a file that is downloaded.
#[derive(Clone, Copy, Debug)]
struct Part<'a> {
    name: &'a [u8],
    offset: u32,
    bytes: &'a [u8],
}

/// A part of a file that is wanted.
#[derive(Clone, Copy, Debug)]
struct Wanted<'a> {
    name: &'a [u8],
    offset: u32,
    swath: u16,
}

impl Device {
    fn answer_collect(
        &self,
        tables: &[HeldTable],
        header: &Header,
        tran: u8,
        code: u16,
        asked: Command,
        out: &mut [u8; PACKET_MAX],
    ) -> Answered
        ensures answered { (all : List Table) → TablesStandFor tables.now all
            → let answer = answer_collect (record { device = self.now; tables = all }) tran
            (collect_keys code asked.entry) in
            IsGiven answer self.now self.now header.now out.old out.new result }
        ensures within { FitsPacket result }
    {
        if self.is_wrong(code) {
            return reply_bmp5(self.address(), header, &collect_refusal(tran, DENIED), out);
        }
        let mut body = [0; BODY_MAX];
        match collect(tables, asked, &mut body) {
            Ok(len) => {
                let reply = Bmp5::CollectReply {
                    tran,
                    resp: 0,
                    bytes: &body[..len],
                };
                reply_bmp5(self.address(), header, &reply, out)
            }
            Err(resp) => reply_bmp5(self.address(), header, &collect_refusal(tran, resp), out),
        }
    }

    fn answer_clock(
        &mut self,
        header: &Header,
        tran: u8,
        code: u16,
        adjust: Nsec,
        out: &mut [u8; PACKET_MAX],
    ) -> Answered
        ensures answered { let answer = answer_clock self.old tran code adjust in
            IsGiven answer self.old self.new header.now out.old out.new result }
        ensures within { FitsPacket result }
    {
        if self.is_wrong(code) {
            return reply_bmp5(self.address(), header, &clock_refusal(tran, DENIED), out);
        }
        let Some(time) = self.adjust_clock(adjust) else {
            return reply_bmp5(
                self.address(),
                header,
                &clock_refusal(tran, OUT_OF_RANGE),
                out,
            );
        };
        let reply = Bmp5::ClockReply {
            tran,
            resp: 0,
            time,
        };
        reply_bmp5(self.address(), header, &reply, out)
    }

    fn answer_stats(
        &self,
        header: &Header,
        tran: u8,
        code: u16,
        out: &mut [u8; PACKET_MAX],
    ) -> Answered
        ensures answered { let answer = answer_stats self.now tran code in
            IsGiven answer self.now self.now header.now out.old out.new result }
        ensures within { FitsPacket result }
    {
        if self.is_wrong(code) {
            return reply_bmp5(self.address(), header, &stats_refusal(tran), out);
        }
        let mut digits = Buffer::new();
        let reply = Bmp5::StatsReply {
            tran,
            resp: 0,
            osver: VERSION,
            ossig: 0,
            serial: digits.format(self.address().get()).as_bytes(),
            powerup: &[],
            state: 1,
            prog: &[],
            progsig: self.definitions_signature(),
            time: NO_TIME,
            result: &[],
        };
        reply_bmp5(self.address(), header, &reply, out)
    }

    fn answer_download(
        &mut self,
        header: &Header,
        tran: u8,
        code: u16,
        part: Part,
        out: &mut [u8; PACKET_MAX],
    ) -> Answered
        ensures answered { let answer = answer_download self.old tran (download_keys code part.entry) in
            IsGiven answer self.old self.new header.now out.old out.new result }
        ensures within { FitsPacket result }
    {
        if self.is_wrong(code) {
            return reply_bmp5(self.address(), header, &download_refusal(tran, DENIED), out);
        }
        let resp = self.download(part.name, part.offset, part.bytes);
        if resp != 0 {
            return reply_bmp5(self.address(), header, &download_refusal(tran, resp), out);
        }
        let reply = Bmp5::DownloadReply {
            tran,
            resp: 0,
            offset: part.offset,
        };
        reply_bmp5(self.address(), header, &reply, out)
    }

    fn answer_upload(
        &self,
        header: &Header,
        tran: u8,
        code: u16,
        wanted: Wanted,
        out: &mut [u8; PACKET_MAX],
    ) -> Answered
        ensures answered { let answer = answer_upload self.now tran (upload_keys code wanted.entry) in
            IsGiven answer self.now self.now header.now out.old out.new result }
        ensures within { FitsPacket result }
    {
        if self.is_wrong(code) {
            return reply_bmp5(self.address(), header, &upload_refusal(tran, DENIED), out);
        }
        let Some(bytes) = self.file_of(wanted.name) else {
            return reply_bmp5(self.address(), header, &upload_refusal(tran, NO_FILE), out);
        };
        let reply = Bmp5::UploadReply {
            tran,
            resp: 0,
            offset: wanted.offset,
            bytes: part_of(bytes, wanted.offset, wanted.swath),
        };
        reply_bmp5(self.address(), header, &reply, out)
    }
}

/// What an upload gives of a file.
fn part_of(bytes: &[u8], offset: u32, swath: u16) -> &[u8]
    ensures { result.now ≡ take (min swath part_max) (drop offset bytes.now) }
{
    let from = bytes.len().min(offset as usize);
    let len = usize::from(swath).min(PART_MAX).min(bytes.len() - from);
    &bytes[from..from + len]
}
