//! What is asked of a station, and what comes of it.
ghost use Rattle.std.specs.Prelude.{◌≡◌, ℕ, ◌<◌, ◌≤◌, length, take, MatchOption};
ghost use Rattle.pb_ask.specs.Wanted.{Wanted};

use pb_trans::Asked;

/// How a frame that was heard ends a request.
#[derive(Drop)]
pub enum Ended<A> {
    /// It is the reply, and means this answer.
    Answer(A),
    /// It reports that the request wasn't delivered, with this code.
    Undelivered(u8),
}

/// What came of a request.
#[derive(Drop)]
pub enum Conclusion<A> {
    /// The reply came, and means this answer.
    Answer(A),
    /// It wasn't delivered, for the reason of this code.
    Undelivered(u8),
    /// It was sent as often as the limits say, and after each sending the quiet ticks came.
    NoAnswer,
    /// At least 65,536 bytes came after the last sending.
    Flooded,
}

/// A request: its frame, and what of the replies to it is an answer.
pub trait Question {
    type Answer;

    /// The frame, what is asked of whom, and which message means which answer.
    ghost wanted: { Self → Wanted Self.Answer };

    /// What is asked of whom.
    fn asked(&self) -> Asked
        ensures { result ≡ (wanted self.now).asked };

    /// Writes the frame to the front of `out`, and answers how many bytes it has.
    fn write(&self, out: &mut [u8]) -> usize
        requires { 2022 ≤ length out.old }
        ensures within { result ≤ length out.old }
        ensures some { 0 < result }
        ensures frame { take result out.new ≡ (wanted self.now).frame };

    /// The answer that the message of a reply means; `None` where it means none and is passed over.
    fn judge(&self, message: &[u8]) -> Option<Self::Answer>
        ensures { MatchOption result ((answer : Self.Answer)
            → (wanted self.now).takes answer message.now → ⊥)
            (λ answer. (wanted self.now).takes answer message.now) };
}
