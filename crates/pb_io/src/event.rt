//! What happens on the link of a site and at its stations.
use pb_base::{Layout, NodeId, Nsec, RecNo, TableNo};

/// Something that happened on the link of a site or at one of its stations.
#[derive(Drop)]
pub enum Event {
    /// A stream began.
    Begin,
    /// A frame was sent.
    Sent(Vec<u8>),
    /// Bytes were heard, in this order.
    Heard(Vec<u8>),
    /// A tick was quiet.
    Quiet,
    /// A table was defined, perhaps anew: its definition's bytes, their signature, and the layout that they say.
    Defined {
        station: NodeId,
        number: TableNo,
        bytes: Vec<u8>,
        signature: u16,
        layout: Layout,
    },
    /// A record was stored: its time and its field bytes.
    Stored {
        station: NodeId,
        number: TableNo,
        time: Nsec,
        bytes: Vec<u8>,
    },
    /// The lowest record that a table still holds became `n`.
    Oldest {
        station: NodeId,
        number: TableNo,
        n: RecNo,
    },
}
