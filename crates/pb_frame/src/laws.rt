//! Laws on framing.
ghost use Rattle.std.specs.Prelude.{◌≡◌, ℕ, ◌+◌, ◌<◌, ◌≤◌, ◌↔◌, true, List, [], ◌∷◌, ◌++◌, length, All, flat_map, Some, None};
ghost use Rattle.pb_frame.specs.declared.limits.TheConstants.{BODY_MAX, FRAME_MAX};
ghost use Rattle.pb_frame.specs.declared.why.Why.{Why};
ghost use Rattle.pb_frame.specs.Signature.{start, step, sig, null};
ghost use Rattle.pb_frame.specs.Framing.{body_max, frame_max, flag, Quoted, quoted, frame, cut, Piece, pieces, IsGood, IsContentSize, content_of, outcome, Whole, Faulty, Verdict, verdicts, unfinished, whole_at};
ghost use Rattle.pb_frame.specs.Hearing.{HasNoFlag};
ghost use Rattle.pb_frame.specs.Faults.{HasFault, IsHeardBefore, IsPiece};

/// The limits of the code are those of the format.
pub fn law_limits()
    ensures body { BODY_MAX ≡ body_max }
    ensures frame { FRAME_MAX ≡ frame_max }
    ensures enough { (content : List ℕ) → IsContentSize (length content)
        → length (frame content) ≤ frame_max }
{}

/// A content with its nullifier has signature 0.
pub fn law_nullifier()
    ensures { (content : List ℕ) → sig (content ++ null (sig content start)) start ≡ 0 }
{}

/// The step of the signature is one to one in the signature, and in the byte.
pub fn law_step()
    ensures signature { (s t byte : ℕ) → s < 65536 → t < 65536 → step s byte ≡ step t byte → s ≡ t }
    ensures byte { (s x y : ℕ) → x < 256 → y < 256 → step s x ≡ step s y → x ≡ y }
{}

/// Each body has one text, and each text stands for one body at most.
pub fn law_quoted()
    ensures text { (body text : List ℕ) → Quoted body text ↔ (text ≡ quoted body) }
    ensures body { (a b text : List ℕ) → Quoted a text → Quoted b text → a ≡ b }
{}

/// A stream is what stands before its first flag byte and then each text behind a flag byte, and none of them has one.
pub fn law_cut()
    ensures whole { (stream : List ℕ) → (cut stream).head ++ flat_map (λ text. flag ∷ text)
        (cut stream).texts ≡ stream }
    ensures head { (stream : List ℕ) → HasNoFlag (cut stream).head }
    ensures texts { (stream : List ℕ) → HasNoFlag (flat_map (λ text. text) (cut stream).texts) }
{}

/// The pieces of a stream have bytes, and no flag byte.
pub fn law_pieces()
    ensures { (stream : List ℕ) → All IsPiece (pieces stream) }
{}

/// An ended piece that is good is heard as the content of its body, and nothing else is heard as a content.
pub fn law_good()
    ensures good { (piece : Piece) (good : IsGood piece.text) → piece.ended ≡ true
        → outcome piece ≡ Some (Whole (content_of good.0)) }
    ensures whole { (piece : Piece) (content : List ℕ) → IsPiece piece
        → outcome piece ≡ Some (Whole content) → (piece.ended ≡ true)
        × ((good : IsGood piece.text) × (content ≡ content_of good.0)) }
{}

/// The fault that is heard is one that the piece has, and none comes before it.
pub fn law_fault()
    ensures has { (piece : Piece) (at : ℕ) (why : Why) → IsPiece piece
        → outcome piece ≡ Some (Faulty at why) → HasFault piece at why }
    ensures first { (piece : Piece) (at : ℕ) (why : Why) → HasFault piece at why
        → IsHeardBefore piece at why }
{}

/// A written frame is heard as its content, whatever stands before it, and leaves no open piece.
pub fn law_frame_heard()
    ensures heard { (front content : List ℕ) → IsContentSize (length content)
        → verdicts (front ++ frame content) ≡ verdicts (front ++ flag ∷ []) ++ whole_at
        (length front + 1) content }
    ensures next { (front content : List ℕ) → IsContentSize (length content)
        → verdicts ((front ++ flag ∷ []) ++ frame content)
        ≡ verdicts (front ++ flag ∷ []) ++ whole_at (length front + 2) content }
    ensures closed { (front content : List ℕ) → unfinished (front ++ frame content) ≡ None }
{}

/// More bytes add verdicts, and change none.
pub fn law_verdicts_grow()
    ensures { (front back : List ℕ) → (vs : List Verdict)
        × (verdicts (front ++ back) ≡ verdicts front ++ vs) }
{}
