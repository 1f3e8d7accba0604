//! The lines of `show`: one for each packet and each damage.
ghost use Rattle.std.specs.Prelude.{◌≡◌, ◌+◌, ◌≤◌, ◌⊎◌, [], ◌∷◌, length, codes, decimal};
ghost use Rattle.pb_frame.specs.Framing.{Whole, Faulty, IsContentSize};
ghost use Rattle.pb_io.specs.Page.{Adds, joined, printing};
ghost use Rattle.pb_packet.specs.Packet.{FitsPhys, packet_of};
ghost use Rattle.pb_show.specs.PacketText.{state_text, route_text, order_text, phys_text, proto_text, hops_text, nodes_text, header_text, fault_text, content_text, is_damaged_content};
ghost use Rattle.pb_show.specs.LineText.{line, why_text};

use crate::message::push_message;
use pb_frame::Why;
use pb_io::{Page, Part, Sink};
use pb_packet::{Header, LinkState, PROTO_BMP5, PROTO_PAKCTRL, Packet, PacketFault, Phys};

/// Adds the line of a piece with a good body, whose content this is; whether the line reports damage: of a content that is
/// no packet, or of a malformed message. `piece` is the place in the stream at which the piece begins.
pub fn push_body<O: Sink>(page: &mut Page, piece: u64, content: &[u8], out: &mut O) -> bool
    requires { IsContentSize (length content.now) }
    ensures text { Adds (line (record { piece = piece; outcome = Whole content.now }))
        (printing O.Sink page.old out.old) (printing O.Sink page.new out.new) }
    ensures damaged { result ≡ is_damaged_content (packet_of content.now) }
{
    push_place(page, piece, out);
    let is_damaged = push_content(page, content, out);
    page.push(b"\n", out);
    is_damaged
}

// Adds where a piece begins, and a space.
fn push_place<O: Sink>(page: &mut Page, piece: u64, out: &mut O)
    ensures { Adds (joined (decimal piece ∷ codes " " ∷ [])) (printing O.Sink page.old out.old)
        (printing O.Sink page.new out.new) }
{
    page.push_decimal(piece, out);
    page.push(b" ", out);
}

/// Adds the line of a piece without a good body, which went wrong at the place `at` of the stream. Such a line reports
/// damage.
#[tactic(auto, unfolding(crate::specs::LineText::line, crate::specs::LineText::outcome_text))]
pub fn push_bad<O: Sink>(page: &mut Page, piece: u64, at: u64, why: Why, out: &mut O)
    ensures { Adds (line (record { piece = piece; outcome = Faulty at why }))
        (printing O.Sink page.old out.old)
        (printing O.Sink page.new out.new) }
{
    push_place(page, piece, out);
    page.put(
        &[
            Part::Text(b"bad "),
            Part::Text(why_name(why)),
            Part::Text(b" at "),
            Part::Number(at),
        ],
        out,
    );
    page.push(b"\n", out);
}

fn why_name(why: Why) -> &'static [u8]
    ensures { result.now ≡ why_text why }
{
    match why {
        Why::Quote => b"quote",
        Why::Long => b"long",
        Why::Short => b"short",
        Why::Signature => b"signature",
    }
}

// Adds a content, as a packet or as what is wrong with it; whether it is damaged.
#[tactic(auto, unfolding(crate::specs::PacketText::content_text, crate::specs::PacketText::packet_text))]
fn push_content<O: Sink>(page: &mut Page, content: &[u8], out: &mut O) -> bool
    requires { (length content.now ≡ 4) ⊎ (8 ≤ length content.now) }
    ensures text { Adds (content_text (packet_of content.now)) (printing O.Sink page.old out.old)
        (printing O.Sink page.new out.new) }
    ensures damaged { result ≡ is_damaged_content (packet_of content.now) }
{
    match pb_packet::read(content) {
        Ok(Packet::Link(phys)) => {
            push_phys(page, &phys, out);
            false
        }
        Ok(Packet::Full(header, message)) => {
            push_header(page, &header, out);
            push_message(page, header.proto, message, out)
        }
        Err(fault) => {
            push_fault(page, fault, out);
            true
        }
    }
}

fn push_phys<O: Sink>(page: &mut Page, phys: &Phys, out: &mut O)
    requires { FitsPhys phys.now }
    ensures { Adds (phys_text phys.now) (printing O.Sink page.old out.old)
        (printing O.Sink page.new out.new) }
{
    page.push(state_name(phys.state), out);
    push_route(page, phys.src.get(), phys.dst.get(), out);
    push_order(page, phys, out);
}

// Single pushes of constants are much faster than a list of parts, and there may be millions of such lines.
fn push_route<O: Sink>(page: &mut Page, src: u16, dst: u16, out: &mut O)
    ensures { Adds (route_text src dst) (printing O.Sink page.old out.old)
        (printing O.Sink page.new out.new) }
{
    page.push_decimal(u64::from(src), out);
    page.push(b">", out);
    page.push_decimal(u64::from(dst), out);
}

fn push_order<O: Sink>(page: &mut Page, phys: &Phys, out: &mut O)
    requires { FitsPhys phys.now }
    ensures { Adds (order_text phys.now) (printing O.Sink page.old out.old)
        (printing O.Sink page.new out.new) }
{
    page.push(&order(phys), out);
}

// Both numbers have one digit, so the text is added at once.
fn order(phys: &Phys) -> [u8; 13]
    requires { FitsPhys phys.now }
    ensures { result ≡ order_text phys.now }
{
    let more = b'0' + phys.more;
    let priority = b'0' + phys.priority;
    [
        b' ', b'm', b'o', b'r', b'e', b' ', more, b' ', b'p', b'r', b'i', b' ', priority,
    ]
}

fn state_name(state: LinkState) -> &'static [u8]
    ensures { result.now ≡ state_text state }
{
    match state {
        LinkState::OffLine => b"offline ",
        LinkState::Ring => b"ring ",
        LinkState::Ready => b"ready ",
        LinkState::Finished => b"finished ",
        LinkState::Pause => b"pause ",
    }
}

// Adds all words of a header.
fn push_header<O: Sink>(page: &mut Page, header: &Header, out: &mut O)
    requires { FitsPhys header.now.phys }
    ensures { Adds (header_text header.now) (printing O.Sink page.old out.old)
        (printing O.Sink page.new out.new) }
{
    push_phys(page, &header.phys, out);
    push_proto(page, header.proto, out);
    push_nodes(page, header, out);
}

fn push_nodes<O: Sink>(page: &mut Page, header: &Header, out: &mut O)
    ensures { Adds (nodes_text header.now) (printing O.Sink page.old out.old)
        (printing O.Sink page.new out.new) }
{
    page.push(b" ", out);
    push_route(page, header.src.get(), header.dst.get(), out);
    push_hops(page, header.hops, out);
}

fn push_hops<O: Sink>(page: &mut Page, hops: u8, out: &mut O)
    ensures { Adds (hops_text hops) (printing O.Sink page.old out.old) (printing O.Sink page.new out.new) }
{
    page.push(b" hops ", out);
    page.push_decimal(u64::from(hops), out);
    page.push(b" ", out);
}

#[tactic(auto, unfolding(crate::specs::PacketText::proto_text))]
fn push_proto<O: Sink>(page: &mut Page, proto: u8, out: &mut O)
    ensures { Adds (proto_text proto) (printing O.Sink page.old out.old)
        (printing O.Sink page.new out.new) }
{
    match proto {
        PROTO_PAKCTRL => page.push(b" pakctrl", out),
        PROTO_BMP5 => page.push(b" bmp5", out),
        _ => page.put(
            &[Part::Text(b" proto"), Part::Number(u64::from(proto))],
            out,
        ),
    }
}

#[tactic(auto, unfolding(crate::specs::PacketText::fault_text))]
fn push_fault<O: Sink>(page: &mut Page, fault: PacketFault, out: &mut O)
    ensures { Adds (fault_text fault) (printing O.Sink page.old out.old)
        (printing O.Sink page.new out.new) }
{
    match fault {
        PacketFault::ReservedState(state) => page.put(
            &[
                Part::Text(b"bad packet state "),
                Part::Number(u64::from(state)),
            ],
            out,
        ),
        PacketFault::NullAddress { word } => page.put(
            &[
                Part::Text(b"bad packet address "),
                Part::Number(u64::from(word)),
            ],
            out,
        ),
    }
}
