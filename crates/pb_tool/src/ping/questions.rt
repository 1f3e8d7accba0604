//! What `ping` asks: a hello, and the time.
ghost use Rattle.std.specs.Prelude.{◌<◌, MatchOption};
ghost use Rattle.pb_tool.specs.Ping.Requests.{IsGreeting, IsReading};

use crate::ping::request::{Request, write_request};
use pb_ask::Question;
use pb_base::{NodeId, Nsec};
use pb_bmp5::Bmp5;
use pb_ctrl::Ctrl;
use pb_packet::{PROTO_BMP5, PROTO_PAKCTRL};
use pb_trans::Asked;

/// The type of the hello's message, and its transaction number.
const HELLO: u8 = 0x09;

pub const HELLO_TRAN: u8 = 1;

/// Those of the clock command.
const CLOCK: u8 = 0x17;

pub const CLOCK_TRAN: u8 = 2;

/// What a node says of itself in reply to a hello.
#[derive(Clone, Copy, Debug, PartialEq, Eq)]
pub struct Greeting {
    pub router: u8,
    pub metric: u8,
    pub verify: u16,
}

/// The response code to a clock command, and the time.
#[derive(Clone, Copy, Debug, PartialEq, Eq)]
pub struct Reading {
    pub resp: u8,
    pub time: Nsec,
}

/// A hello to a node.
#[derive(Clone, Copy, Debug, PartialEq, Eq)]
pub struct HelloTo {
    pub me: NodeId,
    pub node: NodeId,
}

/// A question for a node's time.
#[derive(Clone, Copy, Debug, PartialEq, Eq)]
pub struct ClockOf {
    pub me: NodeId,
    pub node: NodeId,
}

impl Question for HelloTo {
    type Answer = Greeting;

    ghost use Rattle.pb_tool.specs.Ping.Requests.{hello};

    ghost wanted = { λ q. hello q.me q.node };

    fn asked(&self) -> Asked {
        Asked {
            me: self.me,
            station: self.node,
            proto: PROTO_PAKCTRL,
            kind: HELLO,
            tran: HELLO_TRAN,
        }
    }

    fn write(&self, out: &mut [u8]) -> usize {
        write_request(Request::Hello, self.me, self.node, out)
    }

    fn judge(&self, message: &[u8]) -> Option<Greeting> {
        hello_reply(message)
    }
}

impl Question for ClockOf {
    type Answer = Reading;

    ghost use Rattle.pb_tool.specs.Ping.Requests.{clock};

    ghost wanted = { λ q. clock q.me q.node };

    fn asked(&self) -> Asked {
        Asked {
            me: self.me,
            station: self.node,
            proto: PROTO_BMP5,
            kind: CLOCK,
            tran: CLOCK_TRAN,
        }
    }

    fn write(&self, out: &mut [u8]) -> usize {
        write_request(Request::Clock, self.me, self.node, out)
    }

    fn judge(&self, message: &[u8]) -> Option<Reading> {
        clock_reply(message)
    }
}

fn hello_reply(message: &[u8]) -> Option<Greeting>
    ensures { MatchOption result ((g : Greeting) → IsGreeting g message.now → ⊥)
        (λ g. IsGreeting g message.now) }
{
    match pb_ctrl::read(message) {
        Ok(
            Ctrl::HelloReply {
                tran,
                router,
                metric,
                verify,
            },
        ) => {
            if tran == HELLO_TRAN {
                Some(Greeting {
                    router,
                    metric,
                    verify,
                })
            } else {
                None
            }
        }
        Ok(_) => None,
        Err(_) => None,
    }
}

fn clock_reply(message: &[u8]) -> Option<Reading>
    ensures { MatchOption result ((r : Reading) → IsReading r message.now → ⊥)
        (λ r. IsReading r message.now) }
{
    match pb_bmp5::read(message) {
        Ok(Bmp5::ClockReply { tran, resp, time }) => {
            if tran == CLOCK_TRAN {
                Some(Reading { resp, time })
            } else {
                None
            }
        }
        Ok(_) => None,
        Err(_) => None,
    }
}
