//! PakBus packets: the words of their headers, and the message behind them.
#![tactic(auto)]

mod headers;
mod laws;
mod reading;
mod writing;

pub use headers::{Header, LinkState, PROTO_BMP5, PROTO_PAKCTRL, Packet, PacketFault, Phys};
pub use laws::written_is_read;
pub use reading::read;
pub use writing::write;

#[cfg(test)]
mod tests;
