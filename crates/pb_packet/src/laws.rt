//! A law: a packet that is written is read again.
ghost use Rattle.std.specs.Prelude.{◌≡◌, List, ℕ, Ok};
ghost use Rattle.pb_packet.specs.Packet.{Seen, packet_of, packet_bytes, IsValid, PacketBytes};

/// What is written of a packet is read as it, and a packet that was read has been written so.
pub fn written_is_read()
    ensures again { (p : Seen) → IsValid p → packet_of (packet_bytes p) ≡ Ok p }
    ensures one_text { (p : Seen) (a b : List ℕ) → PacketBytes p a → PacketBytes p b → a ≡ b }
    ensures one_packet { (p q : Seen) (content : List ℕ) → PacketBytes p content
        → PacketBytes q content → p ≡ q }
{}
