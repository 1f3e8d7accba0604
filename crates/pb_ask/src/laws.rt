//! What a caller may take from a request that was asked.
ghost use Rattle.std.specs.Prelude.{◌≡◌, ℕ, ◌≤◌, List, ◌∷◌, ◌++◌, length, drop, All};
ghost use Rattle.pb_frame.specs.Framing.{Verdict};
ghost use Rattle.pb_frame.specs.Hearing.{Hearing, StandsFor};
ghost use Rattle.pb_base.specs.World.{World, Sent, sent};
ghost use Rattle.pb_io.specs.View.{Link};
ghost use Rattle.pb_trans.specs.declared.asked.Limits.{Limits};
ghost use Rattle.pb_ask.specs.declared.question.Conclusion.{Conclusion};
ghost use Rattle.pb_ask.specs.Asking.{Hears, Asks, Stops, Resent, JudgedAs};
ghost use Rattle.pb_ask.specs.Judging.{NoneShows, Holds};
ghost use Rattle.pb_ask.specs.Listening.{Listening, IsListening};
ghost use Rattle.pb_ask.specs.Stream.{Stream, AsksOn, StopsOn};
ghost use Rattle.pb_ask.specs.Wanted.{EndsBy};

use crate::question::{Ended, Question};

/// All that was judged in one call: the first frame that ends the request is the last that was judged, and where the
/// conclusion is none of a frame, or a call failed, none did. The content of an answer is that of one of the verdicts.
pub fn law_judged<Q: Question>()
    ensures asks { (q : Q) (limits : Limits) (old new : Listening) (a b : Link)
        (conclusion : Conclusion Q.Answer)
        (h : Asks (Q.wanted q) limits old a conclusion new b)
        → (all : Hears old (h.before ++ (Sent (Q.wanted q).frame ∷ h.last.heard)) new)
        × JudgedAs (Q.wanted q) conclusion all.shown }
    ensures held { (q : Q) (limits : Limits) (old new : Listening) (a b : Link) (answer : Q.Answer)
        (h : Asks (Q.wanted q) limits old a (Conclusion.Answer answer) new b)
        → (all : Hears old (h.before ++ (Sent (Q.wanted q).frame ∷ h.last.heard)) new)
        × Holds (EndsBy (Q.wanted q)) (Ended.Answer answer) all.shown new.ear }
    ensures stops { (q : Q) (limits : Limits) (old new : Listening) (a b : Link)
        (h : Stops (Q.wanted q) limits old a new b)
        → (all : Hears old (h.before ++ h.rest) new) × NoneShows (EndsBy (Q.wanted q)) all.shown }
{}

/// What was heard since the stream began is what was judged, and what waits: after a request as before it.
pub fn law_listening<Q: Question>()
    ensures asks { (q : Q) (limits : Limits) (old new : Listening) (a b : Link)
        (conclusion : Conclusion Q.Answer)
        (h : Asks (Q.wanted q) limits old a conclusion new b)
        (all : Hears old (h.before ++ (Sent (Q.wanted q).frame ∷ h.last.heard)) new) (judged : List ℕ)
        → IsListening a judged old.inbox → IsListening b (judged ++ all.pushed) new.inbox }
    ensures stops { (q : Q) (limits : Limits) (old new : Listening) (a b : Link)
        (h : Stops (Q.wanted q) limits old a new b)
        (all : Hears old (h.before ++ h.rest) new) (judged : List ℕ)
        → IsListening a judged old.inbox → IsListening b (judged ++ all.pushed) new.inbox }
{}

/// A request of a listener that stands for these bytes is one of their stream: all that its contract says is said in
/// the bytes and the verdicts of the stream, and the listener stands for the bytes that were judged then.
pub fn law_stream<Q: Question>()
    ensures asks { (q : Q) (limits : Limits) (old new : Listening) (a b : Link)
        (conclusion : Conclusion Q.Answer)
        (judged : List ℕ) → StandsFor old.ear judged
        → (h : Asks (Q.wanted q) limits old a conclusion new b)
        → (after : List ℕ) × StandsFor new.ear after
        × AsksOn (Q.wanted q) limits (record { judged = judged; waiting = old.inbox })
        (h.before ++ (Sent (Q.wanted q).frame ∷ h.last.heard)) conclusion (record { judged = after; waiting = new.inbox }) }
    ensures stops { (q : Q) (limits : Limits) (old new : Listening) (a b : Link) (judged : List ℕ)
        → StandsFor old.ear judged
        → (h : Stops (Q.wanted q) limits old a new b)
        → (after : List ℕ) × StandsFor new.ear after
        × StopsOn (Q.wanted q) limits (record { judged = judged; waiting = old.inbox })
        (h.before ++ h.rest) (record { judged = after; waiting = new.inbox }) }
{}

/// What was sent again so often is this frame, so often.
pub fn law_resent<Q: Question>()
    ensures { (q : Q) (limits : Limits) (n : ℕ) (old : Listening) (events : World) (new : Listening)
        → Resent (Q.wanted q) limits n old events new
        → (length (sent events) ≡ n) × All (λ (f : List ℕ). f ≡ (Q.wanted q).frame) (sent events) }
{}

/// Right after an answer the message that means it stands after the eight bytes of its header.
pub fn law_message<Q: Question>()
    ensures { (q : Q) (answer : Q.Answer) (shown : List Verdict) (ear : Hearing)
        → Holds (EndsBy (Q.wanted q)) (Ended.Answer answer) shown ear
        → (8 ≤ length ear.content) × (Q.wanted q).takes answer (drop 8 ear.content) }
{}
