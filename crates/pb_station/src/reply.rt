//! Replies, written as packets.
ghost use Rattle.std.specs.Prelude.{◌≡◌, ◌≤◌, length, take};
ghost use Rattle.pb_packet.specs.Packet.{FitsHeader, header_bytes};
ghost use Rattle.pb_ctrl.specs.Message as ctrl;
ghost use Rattle.pb_bmp5.specs.Message as bmp5;
ghost use Rattle.pb_station.specs.Answer.{FitsPacket, Replies, ctrl_packet, bmp5_packet, reply_header, IsSaid, failure};
ghost use Rattle.pb_station.specs.Inside.Steps.{IsHeaded};

use crate::station::Answered;
use pb_base::NodeId;
use pb_bmp5::Bmp5;
use pb_ctrl::Ctrl;
use pb_packet::{Header, LinkState, Packet, Phys};

/// The most bytes of a packet.
pub(crate) const PACKET_MAX: usize = 1008;

/// The bytes of a packet before its message.
const HEADER_LEN: usize = 8;

/// The protocols.
pub(crate) const CTRL: u8 = 0;

pub(crate) const BMP5: u8 = 1;

/// The most bytes of a message that a failure carries.
const CARRIED_MAX: usize = 8;

/// Writes a PakCtrl reply, from this address, to a packet.
pub(crate) fn reply_ctrl(
    address: NodeId,
    header: &Header,
    message: &Ctrl,
    out: &mut [u8; PACKET_MAX],
) -> Answered
    requires valid { ctrl.Valid (ctrl.message_of message.now) }
    requires fits { length (ctrl.message_bytes (ctrl.message_of message.now)) ≤ 1000 }
    ensures answered { Replies (ctrl_packet address header.now (ctrl.message_of message.now)) out.old
        out.new result }
    ensures within { FitsPacket result }
{
    let len = pb_ctrl::write(message, &mut out[HEADER_LEN..]).unwrap();
    write_header(reply_header(address, header, CTRL, 2), out);
    Answered::Reply(HEADER_LEN + len)
}

/// Writes a BMP5 reply, from this address, to a packet.
pub(crate) fn reply_bmp5(
    address: NodeId,
    header: &Header,
    message: &Bmp5,
    out: &mut [u8; PACKET_MAX],
) -> Answered
    requires valid { bmp5.Valid (bmp5.message_of message.now) }
    requires fits { length (bmp5.message_bytes (bmp5.message_of message.now)) ≤ 1000 }
    ensures answered { Replies (bmp5_packet address header.now (bmp5.message_of message.now)) out.old
        out.new result }
    ensures within { FitsPacket result }
{
    let len = pb_bmp5::write(message, &mut out[HEADER_LEN..]).unwrap();
    write_header(reply_header(address, header, BMP5, 0), out);
    Answered::Reply(HEADER_LEN + len)
}

/// Writes a failure, which says what the packet's header was and how its message begins.
pub(crate) fn fail(
    address: NodeId,
    header: &Header,
    err: u8,
    message: &[u8],
    out: &mut [u8; PACKET_MAX],
) -> Answered
    requires { FitsHeader header.now }
    ensures answered { IsSaid address header.now (failure err header.now message.now) out.old out.new
        result }
    ensures within { FitsPacket result }
{
    let tran = if message.len() < 2 { 0 } else { message[1] };
    let failure = Ctrl::Failure {
        tran,
        err,
        proto: header.proto,
        dst: header.dst.get(),
        hops: header.hops,
        src: header.src.get(),
        carried: &message[..message.len().min(CARRIED_MAX)],
    };
    reply_ctrl(address, header, &failure, out)
}

fn reply_header(address: NodeId, header: &Header, proto: u8, more: u8) -> Header
    ensures { result ≡ reply_header address proto more header.now }
{
    Header {
        phys: Phys {
            state: LinkState::Ready,
            dst: header.phys.src,
            more,
            priority: 1,
            src: address,
        },
        proto,
        dst: header.src,
        hops: 0,
        src: address,
    }
}

fn write_header(header: Header, out: &mut [u8; PACKET_MAX])
    requires { FitsHeader header }
    ensures { IsHeaded (header_bytes header) out.old out.new }
{
    let words = Packet::Full(header, &[]);
    let _len = pb_packet::write(&words, &mut out[..HEADER_LEN]).unwrap();
}
