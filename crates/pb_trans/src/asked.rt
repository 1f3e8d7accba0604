//! What is asked, within which limits, and what an input means for it.
use pb_base::NodeId;

/// The bytes heard since a sending at which a request is given up.
pub const FLOOD: usize = 65_536;

/// The most quiet ticks that a please-wait adds to the limit.
pub const WAIT_MAX: u16 = 60;

/// What is asked of whom: a request of this protocol, type and transaction, from `me` to `station`.
#[derive(Clone, Copy, Debug, PartialEq, Eq)]
pub struct Asked {
    pub me: NodeId,
    pub station: NodeId,
    /// The protocol, 0 to 15.
    pub proto: u8,
    /// The type of the request's message; its reply has the type `kind + 0x80`.
    pub kind: u8,
    /// The transaction number.
    pub tran: u8,
}

/// How many requests may be made, how often each is sent, and how many quiet ticks are waited after each sending.
#[derive(Clone, Copy, Debug, PartialEq, Eq)]
pub struct Limits {
    /// The requests of one round; an exchange, which is one request, doesn't look at it.
    pub budget: u32,
    /// The sendings of one request, 1 or more.
    pub sends: u8,
    /// The quiet ticks after a sending, 1 or more.
    pub quiets: u16,
}

/// What an input means for a request.
#[derive(Clone, Copy, Debug, PartialEq, Eq)]
pub enum Step {
    /// Nothing yet: listen on.
    Wait,
    /// The quiet ticks of this sending are over: send the request again.
    Resend,
    /// The packet is a reply to the request.
    Answer,
    /// The quiet ticks of the last sending are over.
    NoAnswer,
    /// At least 65,536 bytes were heard since the last sending.
    Flooded,
    /// The packet is a delivery failure for the request, with this code.
    Undelivered(u8),
}
