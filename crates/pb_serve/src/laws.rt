//! What follows of how a station on a link goes on.
ghost use Rattle.std.specs.Prelude.{ℕ};
ghost use Rattle.pb_base.specs.World.{World};
ghost use Rattle.pb_station.specs.State.{State};
ghost use Rattle.pb_serve.specs.Serving.{AllSent, Ends, Moment, SentInTime, Serving};

use crate::server::End;

/// A law: at every moment all frames that are owed for the good frames judged so far were sent, in their order, and nothing
/// else.
pub fn what_a_server_sends()
    ensures { (first : State) (goal : ℕ) (w : World) (m : Moment) → Serving first goal w m
        → AllSent first w m }
{}

/// A law: before each quiet tick all frames that are owed for what came before it were sent; so too where a call failed.
pub fn what_a_server_sends_in_time()
    ensures moment { (first : State) (goal : ℕ) (w : World) (m : Moment) → Serving first goal w m
        → SentInTime first w }
    ensures end { (first : State) (goal : ℕ) (w : World) (end : End) → Ends first goal w end
        → SentInTime first w }
{}
