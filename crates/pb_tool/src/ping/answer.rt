//! What comes of a ping.
use pb_base::Nsec;
use pb_collect::Cause;

/// What a node answered to a ping.
#[derive(Clone, Copy, Debug, PartialEq, Eq)]
pub struct Pinged {
    /// 1 where the node is a router.
    pub router: u8,
    /// The response time class.
    pub metric: u8,
    /// The seconds between verifications of the link.
    pub verify: u16,
    /// The node's time.
    pub time: Nsec,
}

/// Why a ping failed.
#[derive(Clone, Copy, Debug, PartialEq, Eq)]
pub enum PingFault {
    /// A call of the link failed.
    LinkFault,
    /// The hello got no answer.
    Hello(Cause),
    /// The hello was answered with this router, metric and verify interval, and the clock was not.
    Clock(Cause, u8, u8, u16),
}
