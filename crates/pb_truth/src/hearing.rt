//! Laws of what is heard.
ghost use Rattle.std.specs.Prelude.{◌≡◌, ℕ, ◌++◌, List, Some, length, slice_get};
ghost use Rattle.pb_base.specs.World.{World};
ghost use Rattle.pb_base.specs.History.{history};
ghost use Rattle.pb_frame.specs.Framing.{frame, IsContentSize};
ghost use Rattle.pb_bmp5.specs.CollectReply.{SeenReply};
ghost use Rattle.pb_bmp5.specs.TrueReply.{Delivered};
ghost use Rattle.pb_archive.specs.Archive.{Archive, record_layout};
ghost use Rattle.pb_truth.specs.Asked.{HasContent, IsOwn, HasOneEach, AskedBelow};
ghost use Rattle.pb_truth.specs.Honest.{EndsGoodPiece, IsCollectReply, IsAnswer, WasHeard, RepliesFor, Honest};
ghost use Rattle.pb_truth.specs.Learning.{Known, SoundKnown, FitsKnown, learned};

use pb_frame::{law_cut, law_good, law_nullifier, law_pieces, law_quoted};

/// A good piece of a stream ends some beginning of the stream, and it does so whatever bytes came earlier. A written frame
/// has its content, and ends with it.
pub fn good_pieces_end_streams()
    ensures ends { (stream content : List ℕ) → HasContent stream content
        → (prefix rest : List ℕ) × (stream ≡ prefix ++ rest) × EndsGoodPiece prefix content }
    ensures later { (earlier stream content : List ℕ) → EndsGoodPiece stream content
        → EndsGoodPiece (earlier ++ stream) content }
    ensures has { (content : List ℕ) → IsContentSize (length content)
        → HasContent (frame content) content }
    ensures written { (content : List ℕ) → IsContentSize (length content)
        → EndsGoodPiece (frame content) content }
{
    law_quoted();
    law_nullifier();
    law_cut();
    law_good();
    law_pieces();
}

/// A collect reply to an own address that was heard in an honest world is an answer: at an earlier moment it was a true reply
/// to a request that had been sent.
pub fn heard_replies_are_answers()
    ensures { (w : World) (a : Archive) (m : Delivered) → Honest w a → WasHeard w m → IsCollectReply m
        → IsOwn a m.dst
        → (earlier later : World) × (w ≡ earlier ++ later) × IsAnswer earlier m }
{
    good_pieces_end_streams();
}

/// In an honest world in which nothing was asked above the fronts, a reply for a table that fits what is asked next leaves
/// what is known of the table true, to whichever request and after whatever time it comes.
pub fn heard_replies_teach_the_truth()
    ensures { (w : World) (a : Archive) (id : ℕ) (k : Known) (m : Delivered) (reply : SeenReply)
        → Honest w a → AskedBelow w a → HasOneEach a
        → slice_get a.tables id ≡ Some k.table → SoundKnown k (history w k.table.key)
        → WasHeard w m → RepliesFor k.table m reply → FitsKnown k reply.fragments
        → SoundKnown (learned (record_layout k.table.definition) k reply.fragments)
        (history w k.table.key) }
{
    good_pieces_end_streams();
}
