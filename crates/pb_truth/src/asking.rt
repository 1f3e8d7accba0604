//! Laws of what is asked.
ghost use Rattle.std.specs.Prelude.{◌≡◌, ℕ, [], ◌∷◌, ◌++◌, List, length};
ghost use Rattle.pb_base.specs.World.{World, Sent};
ghost use Rattle.pb_base.specs.Request.{Request};
ghost use Rattle.pb_frame.specs.Framing.{frame, IsContentSize};
ghost use Rattle.pb_packet.specs.declared.headers.Header.{Header};
ghost use Rattle.pb_packet.specs.declared.headers.TheConstants.{PROTO_BMP5};
ghost use Rattle.pb_packet.specs.Packet.{full, PacketBytes};
ghost use Rattle.pb_bmp5.specs.Message.{Collect, CollectKeys, MessageReads};
ghost use Rattle.pb_archive.specs.Archive.{Archive, Extends};
ghost use Rattle.pb_truth.specs.Asked.{request_of, IsIn, AsksNothing, Allows, IsOwn, AskedBelow};

use pb_bmp5::written_message_is_read;
use pb_packet::written_is_read;

/// What was asked stays below the fronts: while nothing is asked, where each request of a frame that is sent is allowed, and
/// in an archive that goes on from the one that allowed it. It was below them at every earlier moment.
pub fn requests_stay_below_the_fronts()
    ensures quietly { (w more : World) (a : Archive) → AskedBelow w a → AsksNothing more
        → AskedBelow (w ++ more) a }
    ensures sent { (w : World) (a : Archive) (frame : List ℕ) → AskedBelow w a
        → ((r : Request) → IsIn r frame → IsOwn a r.me → Allows a r)
        → AskedBelow (w ++ Sent frame ∷ []) a }
    ensures extends { (w : World) (a b : Archive) → Extends a b → AskedBelow w a → AskedBelow w b }
    ensures earlier { (w more : World) (a : Archive) → AskedBelow (w ++ more) a → AskedBelow w a }
{}

/// The frame of a collect command holds that one request: its sending asks for nothing else.
pub fn written_frames_ask_once()
    ensures one { (content message : List ℕ) (header : Header) (tran : ℕ) (keys : CollectKeys)
        (r : Request)
        → IsContentSize (length content) → PacketBytes (full header message) content
        → MessageReads (Collect tran keys) message
        → IsIn r (frame content) → r ≡ request_of header tran keys }
    ensures asks { (content message : List ℕ) (header : Header) (tran : ℕ) (keys : CollectKeys)
        → IsContentSize (length content) → PacketBytes (full header message) content
        → MessageReads (Collect tran keys) message
        → header.proto ≡ PROTO_BMP5 → IsIn (request_of header tran keys) (frame content) }
{
    written_is_read();
    written_message_is_read();
}
