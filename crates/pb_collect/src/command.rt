//! How a station is asked, and the frames of commands to it.
ghost use Rattle.std.specs.Prelude.{◌≡◌, ◌≤◌, ◌<◌, length, take};
ghost use Rattle.pb_collect.specs.Command.{frame_to, header_to};

use pb_base::NodeId;
use pb_frame::frame_into;
use pb_packet::{Header, LinkState, PROTO_BMP5, Packet, Phys};

/// How a station is asked.
#[derive(Clone, Copy, Debug, PartialEq, Eq)]
pub struct Contact {
    /// The address that asks.
    pub me: NodeId,
    /// The neighbour to which the frames go.
    pub via: NodeId,
    /// The station.
    pub station: NodeId,
    /// The station's security code.
    pub code: u16,
}

/// Writes the frame of a command to the front of `out`, and answers how many bytes it has.
pub(crate) fn write_command(contact: &Contact, message: &[u8], out: &mut [u8]) -> usize
    requires room { 2022 ≤ length out.old }
    requires short { length message.now ≤ 32 }
    ensures within { result ≤ length out.old }
    ensures some { 0 < result }
    ensures frame { take result out.new ≡ frame_to contact.now message.now }
{
    let packet = Packet::Full(header(contact), message);
    let mut content = [0; 64];
    let len = pb_packet::write(&packet, &mut content).unwrap();
    frame_into(&content[..len], out).unwrap()
}

fn header(contact: &Contact) -> Header
    ensures { result ≡ header_to contact.now }
{
    Header {
        phys: Phys {
            state: LinkState::Ready,
            dst: contact.via,
            more: 1,
            priority: 1,
            src: contact.me,
        },
        proto: PROTO_BMP5,
        dst: contact.station,
        hops: 0,
        src: contact.me,
    }
}
