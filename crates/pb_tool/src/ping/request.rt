//! The frames of the requests.
ghost use Rattle.std.specs.Prelude.{◌≡◌, ◌≤◌, ◌<◌, length, take};
ghost use Rattle.pb_tool.specs.Ping.Requests.{request_frame, request_header, request_message};

use crate::ping::questions::{CLOCK_TRAN, HELLO_TRAN};
use pb_base::{NodeId, Nsec};
use pb_bmp5::Bmp5;
use pb_ctrl::Ctrl;
use pb_frame::frame_into;
use pb_packet::{Header, LinkState, PROTO_BMP5, PROTO_PAKCTRL, Packet, Phys};

/// What is asked.
#[derive(Clone, Copy, Debug, PartialEq, Eq)]
pub enum Request {
    Hello,
    Clock,
}

/// Writes the frame of a request to the front of `out`, and answers how many bytes it has.
pub fn write_request(request: Request, me: NodeId, node: NodeId, out: &mut [u8]) -> usize
    requires { 2022 ≤ length out.old }
    ensures within { result ≤ length out.old }
    ensures some { 0 < result }
    ensures frame { take result out.new ≡ request_frame request me node }
{
    let mut message = [0; 32];
    let len = write_message(request, &mut message);
    let packet = Packet::Full(header(request, me, node), &message[..len]);
    let mut content = [0; 64];
    let len = pb_packet::write(&packet, &mut content).unwrap();
    frame_into(&content[..len], out).unwrap()
}

// The message of a request.
fn write_message(request: Request, out: &mut [u8]) -> usize
    requires { 32 ≤ length out.old }
    ensures within { result ≤ 16 }
    ensures message { take result out.new ≡ request_message request }
{
    match request {
        Request::Hello => {
            let hello = Ctrl::Hello {
                tran: HELLO_TRAN,
                router: 0,
                metric: 2,
                verify: 1800,
            };
            pb_ctrl::write(&hello, out).unwrap()
        }
        Request::Clock => {
            let clock = Bmp5::Clock {
                tran: CLOCK_TRAN,
                code: 0,
                adjust: Nsec { sec: 0, nano: 0 },
            };
            pb_bmp5::write(&clock, out).unwrap()
        }
    }
}

// The header of a command: a PakCtrl command is neutral about what is to come, a BMP5 command expects more.
fn header(request: Request, me: NodeId, node: NodeId) -> Header
    ensures { result ≡ request_header request me node }
{
    let (more, proto) = match request {
        Request::Hello => (2, PROTO_PAKCTRL),
        Request::Clock => (1, PROTO_BMP5),
    };
    Header {
        phys: Phys {
            state: LinkState::Ready,
            dst: node,
            more,
            priority: 1,
            src: me,
        },
        proto,
        dst: node,
        hops: 0,
        src: me,
    }
}
