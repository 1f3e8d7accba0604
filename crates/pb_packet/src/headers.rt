//! The headers of packets.
use pb_base::NodeId;

/// The protocol of PakCtrl messages.
pub const PROTO_PAKCTRL: u8 = 0;

/// The protocol of BMP5 messages.
pub const PROTO_BMP5: u8 = 1;

/// What a packet says of the link that it goes over (PakBus).
#[derive(Clone, Copy, Debug, PartialEq, Eq)]
pub enum LinkState {
    OffLine,
    Ring,
    Ready,
    Finished,
    Pause,
}

/// The two physical words of a header: the nodes at the two ends of one link.
#[derive(Clone, Copy, Debug, PartialEq, Eq)]
pub struct Phys {
    pub state: LinkState,
    pub dst: NodeId,
    /// Whether more is to come, 0 to 3: last, expect more, neutral, reverse.
    pub more: u8,
    /// 0 (low) to 3 (extra high).
    pub priority: u8,
    pub src: NodeId,
}

/// The four words before a message: those of the link, and those of the nodes between which it goes.
#[derive(Clone, Copy, Debug, PartialEq, Eq)]
pub struct Header {
    pub phys: Phys,
    /// The protocol of the message, 0 to 15, as `PROTO_PAKCTRL` or `PROTO_BMP5`.
    pub proto: u8,
    pub dst: NodeId,
    /// How many routers the packet has passed, 0 to 15.
    pub hops: u8,
    pub src: NodeId,
}

/// A packet: of a link's state alone, or with a message.
#[derive(Clone, Copy, Debug, PartialEq, Eq)]
pub enum Packet<'a> {
    Link(Phys),
    Full(Header, &'a [u8]),
}

/// Why a content is no packet.
#[derive(Clone, Copy, Debug, PartialEq, Eq)]
pub enum PacketFault {
    /// The first four bits are this number, which is no link state.
    ReservedState(u8),
    /// The address in this word, from 0, is 0; those of the words before it are not.
    NullAddress { word: u8 },
}
