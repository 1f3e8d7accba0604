//! What is judged of a heard content, and counted of what came.
ghost use Rattle.std.specs.Prelude.{◌≡◌, ℕ, ◌<◌, ◌≤◌, length, MatchOption};
ghost use Rattle.pb_frame.specs.Framing.{IsContentSize};
ghost use Rattle.pb_ask.specs.declared.question.Ended.{Ended};
ghost use Rattle.pb_ask.specs.Inside.{HeedsContent, Counted};
ghost use Rattle.pb_ask.specs.Wanted.{EndsAs, EndsBy, conclusion_is};
ghost use Rattle.pb_trans.specs.Waiting.{Hears};

use crate::question::{Conclusion, Ended, Question};
use pb_packet::{Header, Packet};
use pb_trans::{Exchange, Step};

/// Judges the content of a good body.
pub(crate) fn judge_content<Q: Question>(
    exchange: &mut Exchange,
    question: &Q,
    content: &[u8],
) -> Option<Ended<Q::Answer>>
    requires size { IsContentSize (length content.now) }
    requires asked { exchange.old.asked ≡ (Q.wanted question.now).asked }
    ensures ends { MatchOption result ((e : Ended Q.Answer)
        → EndsBy (Q.wanted question.now) e content.now → ⊥)
        (λ e. EndsBy (Q.wanted question.now) e content.now) }
    ensures heeds { HeedsContent content.now exchange.old exchange.new }
{
    let Ok(Packet::Full(header, message)) = pb_packet::read(content) else {
        return None;
    };
    judge_packet(exchange, question, &header, message)
}

// Judges a packet.
fn judge_packet<Q: Question>(
    exchange: &mut Exchange,
    question: &Q,
    header: &Header,
    message: &[u8],
) -> Option<Ended<Q::Answer>>
    requires { exchange.old.asked ≡ (Q.wanted question.now).asked }
    ensures ends { MatchOption result ((e : Ended Q.Answer)
        → EndsAs (Q.wanted question.now) e header.now message.now → ⊥)
        (λ e. EndsAs (Q.wanted question.now) e header.now message.now) }
    ensures hears { Hears exchange.old header.now message.now exchange.new }
{
    match exchange.hear(header, message) {
        Step::Answer => {
            let answer = question.judge(message)?;
            Some(Ended::Answer(answer))
        }
        Step::Undelivered(code) => Some(Ended::Undelivered(code)),
        _ => None,
    }
}

/// The conclusion of a request that a frame ended.
pub(crate) fn conclusion_of<A>(ended: Ended<A>) -> Conclusion<A>
    ensures { result ≡ conclusion_is ended }
{
    match ended {
        Ended::Answer(answer) => Conclusion::Answer(answer),
        Ended::Undelivered(code) => Conclusion::Undelivered(code),
    }
}

/// Counts what came: so many bytes, or a quiet tick.
pub(crate) fn count(exchange: &mut Exchange, n: usize) -> Step
    ensures { Counted exchange.old n result exchange.new }
{
    if n == 0 {
        return exchange.quiet();
    }
    exchange.bytes(n)
}
