//! Refusals of BMP5 commands: replies that end after their response code.
ghost use Rattle.std.specs.Prelude.{◌≡◌, ◌<◌, []};
ghost use Rattle.pb_bmp5.specs.Message.{message_of, CollectReply, ClockReply, StatsReply, DownloadReply, UploadReply, no_time, no_stats};
ghost use Rattle.pb_station.specs.Answer.{denied};
ghost use Rattle.pb_station.specs.Inside.Answered.{FitsReply};

use crate::files::DENIED;
use pb_base::Nsec;
use pb_bmp5::Bmp5;

/// The time in a reply that has none.
pub(crate) const NO_TIME: Nsec = Nsec { sec: 0, nano: 0 };

pub(crate) fn collect_refusal(tran: u8, resp: u8) -> Bmp5<'static>
    requires { 0 < resp }
    ensures says { message_of result ≡ CollectReply tran resp [] }
    ensures fits { FitsReply (message_of result) }
{
    Bmp5::CollectReply {
        tran,
        resp,
        bytes: &[],
    }
}

pub(crate) fn clock_refusal(tran: u8, resp: u8) -> Bmp5<'static>
    requires { 0 < resp }
    ensures says { message_of result ≡ ClockReply tran resp no_time }
    ensures fits { FitsReply (message_of result) }
{
    Bmp5::ClockReply {
        tran,
        resp,
        time: NO_TIME,
    }
}

pub(crate) fn stats_refusal(tran: u8) -> Bmp5<'static>
    ensures says { message_of result ≡ StatsReply tran denied no_stats }
    ensures fits { FitsReply (message_of result) }
{
    Bmp5::StatsReply {
        tran,
        resp: DENIED,
        osver: &[],
        ossig: 0,
        serial: &[],
        powerup: &[],
        state: 0,
        prog: &[],
        progsig: 0,
        time: NO_TIME,
        result: &[],
    }
}

pub(crate) fn download_refusal(tran: u8, resp: u8) -> Bmp5<'static>
    requires { 0 < resp }
    ensures says { message_of result ≡ DownloadReply tran resp 0 }
    ensures fits { FitsReply (message_of result) }
{
    Bmp5::DownloadReply {
        tran,
        resp,
        offset: 0,
    }
}

pub(crate) fn upload_refusal(tran: u8, resp: u8) -> Bmp5<'static>
    requires { 0 < resp }
    ensures says { message_of result ≡ UploadReply tran resp 0 [] }
    ensures fits { FitsReply (message_of result) }
{
    Bmp5::UploadReply {
        tran,
        resp,
        offset: 0,
        bytes: &[],
    }
}
