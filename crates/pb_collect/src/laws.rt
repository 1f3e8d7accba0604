//! Laws of what is asked and taken.
ghost use Rattle.std.specs.Prelude.{◌≡◌, ℕ, List};
ghost use Rattle.pb_bmp5.specs.CollectReply.{SeenReply, CollectReads};
ghost use Rattle.pb_archive.specs.Archive.{front};
ghost use Rattle.pb_bmp5.specs.Asking.{asked_mode};
ghost use Rattle.pb_truth.specs.Asked.{AsksFromAtMost};
ghost use Rattle.pb_truth.specs.Learning.{Known, FitsKnown};
ghost use Rattle.pb_collect.specs.Ends.{kept_partial, asked_once_more, known_after};
ghost use Rattle.pb_collect.specs.Progress.{Progress, IsAt, question, Suits, CanTakeAll};

/// The fragments of a reply that was read and fits what is asked can be taken one after the other; and the reply fits what
/// is known.
pub fn answers_can_be_taken()
    ensures taken { (p : Progress) (table : ℕ) (reply : SeenReply) (message : List ℕ)
        → CollectReads table p.layout reply message
        → reply.resp ≡ 0 → Suits (question p) reply → CanTakeAll p reply.fragments }
    ensures known { (p : Progress) (k : Known) (reply : SeenReply) → IsAt p k → reply.resp ≡ 0
        → Suits (question p) reply
        → FitsKnown k reply.fragments }
{}

/// What is asked is asked from the front or below, and what is known stays so with the next request.
pub fn questions_are_allowed()
    ensures below { (p : Progress) (k : Known) → IsAt p k
        → AsksFromAtMost (front k.table) (asked_mode (question p)) }
    ensures next { (p : Progress) (k : Known) → IsAt p k
        → IsAt (asked_once_more (kept_partial p)) (known_after p k) }
{}
