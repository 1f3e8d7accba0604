//! Reading packets.
ghost use Rattle.std.specs.Prelude.{◌≡◌, ◌+◌, ◌*◌, ◌/◌, ◌%◌, ◌<◌, ◌≤◌, ◌⊎◌, ◌==◌, length, if◌then◌else◌, IfOk, MatchResult, IsOkAnd};
ghost use Rattle.pb_packet.specs.Packet.{Seen, seen_of, packet_of, phys_of, header_of, with_state, PacketBytes};

use crate::{Header, LinkState, Packet, PacketFault, Phys};
use pb_base::NodeId;

/// Reads the content of a frame, its body without the nullifier, as a packet.
pub fn read(content: &[u8]) -> Result<Packet<'_>, PacketFault>
    requires { (length content.now ≡ 4) ⊎ (8 ≤ length content.now) }
    ensures exact { MatchResult result (λ p. packet_of content.now ≡ Ok (seen_of p))
        (λ e. packet_of content.now ≡ Err e) }
    ensures found { IfOk result (λ p. PacketBytes (seen_of p) content.now) }
    ensures only { (p : Seen) → PacketBytes p content.now → IsOkAnd result (λ q. seen_of q ≡ p) }
{
    packet(content)
}

// The packet, or the first fault.
fn packet(content: &[u8]) -> Result<Packet<'_>, PacketFault>
    requires { (length content.now ≡ 4) ⊎ (8 ≤ length content.now) }
    ensures { MatchResult result (λ p. packet_of content.now ≡ Ok (seen_of p))
        (λ e. packet_of content.now ≡ Err e) }
{
    let phys = phys(content)?;
    if content.len() == 4 {
        return Ok(Packet::Link(phys));
    }
    Ok(Packet::Full(header(phys, content)?, &content[8..]))
}

// The words of the link.
fn phys(content: &[u8]) -> Result<Phys, PacketFault>
    requires { 4 ≤ length content.now }
    ensures { result ≡ phys_of content.now }
{
    let (bits, dst) = split(content[0], content[1]);
    let state = link_state(bits)?;
    let dst = node(0, dst)?;
    let (bits, src) = split(content[2], content[3]);
    let src = node(1, src)?;
    Ok(Phys {
        state,
        dst,
        more: bits / 4,
        priority: bits % 4,
        src,
    })
}

// The words of the nodes, behind those of the link.
fn header(phys: Phys, content: &[u8]) -> Result<Header, PacketFault>
    requires { 8 ≤ length content.now }
    ensures { result ≡ header_of phys content.now }
{
    let (proto, dst) = split(content[4], content[5]);
    let dst = node(2, dst)?;
    let (hops, src) = split(content[6], content[7]);
    let src = node(3, src)?;
    Ok(Header {
        phys,
        proto,
        dst,
        hops,
        src,
    })
}

// The four bits of a word, and its address.
fn split(high: u8, low: u8) -> (u8, u16)
    ensures bits { result.0 ≡ high / 16 }
    ensures address { result.1 ≡ (high % 16) * 256 + low }
{
    (high / 16, u16::from(high % 16) * 256 + u16::from(low))
}

fn node(word: u8, address: u16) -> Result<NodeId, PacketFault>
    requires { address < 4096 }
    ensures { result ≡ (if address == 0 then Err (PacketFault.NullAddress word) else Ok address) }
{
    NodeId::new(address).ok_or(PacketFault::NullAddress { word })
}

fn link_state(bits: u8) -> Result<LinkState, PacketFault>
    ensures { result ≡ with_state bits Ok }
{
    match bits {
        8 => Ok(LinkState::OffLine),
        9 => Ok(LinkState::Ring),
        10 => Ok(LinkState::Ready),
        11 => Ok(LinkState::Finished),
        12 => Ok(LinkState::Pause),
        _ => Err(PacketFault::ReservedState(bits)),
    }
}
