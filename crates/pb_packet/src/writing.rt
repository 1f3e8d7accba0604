//! Writing packets.
ghost use Rattle.std.specs.Prelude.{◌≡◌, ◌≤◌, ◌++◌, IfOk, OnErr};
ghost use Rattle.pb_base.specs.Put.{IsWritten, DoesNotFit};
ghost use Rattle.pb_packet.specs.Packet.{seen_of, code_of, word, phys_bytes, header_bytes, packet_bytes, FitsPhys, FitsHeader, Fits, IsAddress, IsValidPhys, IsValidHeader, IsValid};

use crate::{Header, LinkState, Packet, Phys};
use pb_base::{Full, NodeId, Put};

/// Writes a packet, as the content of a frame, to the front of `out`, and answers how many bytes it has. Where it
/// doesn't fit nothing is written.
pub fn write(packet: &Packet, out: &mut [u8]) -> Result<usize, Full>
    requires { Fits (seen_of packet.now) }
    ensures written { IfOk result (IsWritten (packet_bytes (seen_of packet.now)) out.old out.new) }
    ensures full { OnErr result (DoesNotFit (packet_bytes (seen_of packet.now)) out.old out.new) }
    // So what was written is read as this packet.
    ensures valid { IsValid (seen_of packet.now) }
{
    match *packet {
        Packet::Link(phys) => write_parts(&phys_words(phys), &[], out),
        Packet::Full(header, message) => write_parts(&header_words(header), message, out),
    }
}

// The words, and behind them the message.
fn write_parts(words: &[u8], message: &[u8], out: &mut [u8]) -> Result<usize, Full>
    ensures written { IfOk result (IsWritten (words.now ++ message.now) out.old out.new) }
    ensures full { OnErr result (DoesNotFit (words.now ++ message.now) out.old out.new) }
{
    if out.len() < words.len() || out.len() - words.len() < message.len() {
        return Err(Full);
    }
    let mut put = Put::new(out);
    put.bytes(words)?;
    put.bytes(message)?;
    Ok(put.len())
}

// The words of the link.
fn phys_words(phys: Phys) -> [u8; 4]
    requires { FitsPhys phys }
    ensures bytes { result ≡ phys_bytes phys }
    ensures valid { IsValidPhys phys }
{
    let [a, b] = join(state_bits(phys.state), phys.dst);
    let [c, d] = join(phys.more * 4 + phys.priority, phys.src);
    [a, b, c, d]
}

// The words of the link, and those of the nodes.
fn header_words(header: Header) -> [u8; 8]
    requires { FitsHeader header }
    ensures bytes { result ≡ header_bytes header }
    ensures valid { IsValidHeader header }
{
    let [a, b, c, d] = phys_words(header.phys);
    let [e, f] = join(header.proto, header.dst);
    let [g, h] = join(header.hops, header.src);
    [a, b, c, d, e, f, g, h]
}

// A word of four bits and an address.
fn join(bits: u8, address: NodeId) -> [u8; 2]
    requires { bits ≤ 15 }
    ensures bytes { result ≡ word bits address }
    ensures address { IsAddress address }
{
    let address = address.get();
    [bits * 16 + (address / 256) as u8, (address % 256) as u8]
}

fn state_bits(state: LinkState) -> u8
    ensures value { result ≡ code_of state }
    ensures small { result ≤ 15 }
{
    match state {
        LinkState::OffLine => 8,
        LinkState::Ring => 9,
        LinkState::Ready => 10,
        LinkState::Finished => 11,
        LinkState::Pause => 12,
    }
}
