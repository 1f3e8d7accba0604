//! The answer to one good frame.
ghost use Rattle.std.specs.Prelude.{◌≡◌, [], ◌∷◌, length, take, MatchOption};
ghost use Rattle.pb_frame.specs.Framing.{IsContentSize, frame};
ghost use Rattle.pb_station.specs.State.{State, StandsFor};
ghost use Rattle.pb_io.specs.Faults.{HasCause};
ghost use Rattle.pb_serve.specs.Inside.{SendsOwed};
ghost use Rattle.pb_serve.specs.Owed.{owed};
ghost use Rattle.pb_serve.specs.Talks.{Talks};

use pb_frame::{FRAME_MAX, frame_into};
use pb_io::{Failed, Site};
use pb_packet::Packet;
use pb_station::{Answered, Station};

// The most bytes of a packet.
const PACKET_MAX: usize = 1008;

// Writes the packet that is owed for a good frame of this content, and answers how many bytes it has; none where nothing
// is owed.
fn reply(station: &mut Station, content: &[u8], packet: &mut [u8; PACKET_MAX]) -> Option<usize>
    requires size { IsContentSize (length content.now) }
    requires alive { (state : State) × StandsFor station.old state }
    ensures leaves { (state : State) → StandsFor station.old state
        → StandsFor station.new (owed state content.now).state }
    ensures owes { (state : State) → StandsFor station.old state
        → MatchOption result ((owed state content.now).frames ≡ [])
        (λ n. (owed state content.now).frames ≡ frame (take n packet.new) ∷ []) }
    ensures size { MatchOption result (Unit {0}) (λ n. IsContentSize n) }
{
    let Ok(Packet::Full(header, message)) = pb_packet::read(content) else {
        return None;
    };
    match station.answer(&header, message, packet) {
        Answered::Reply(n) => Some(n),
        _ => None,
    }
}

/// Sends what is owed for a good frame of this content.
pub(crate) fn send_reply<S: Site>(
    site: &mut S,
    station: &mut Station,
    content: &[u8],
) -> Result<(), Failed>
    requires size { IsContentSize (length content.now) }
    requires alive { (state : State) × StandsFor station.old state }
    ensures leaves { (state : State) → StandsFor station.old state
        → StandsFor station.new (owed state content.now).state }
    ensures sends { (state : State) → StandsFor station.old state
        → SendsOwed (owed state content.now).frames (S.view site.old).link.world
        (S.view site.new).link.world result }
    ensures talks { Talks (S.view site.old) (S.view site.new) }
    ensures cause { HasCause (S.view site.old).link.faults (S.view site.new).link.faults result }
{
    let mut packet = [0; PACKET_MAX];
    let Some(n) = reply(station, content, &mut packet) else {
        return Ok(());
    };
    let mut frame = [0; FRAME_MAX];
    let len = frame_into(&packet[..n], &mut frame).unwrap();
    site.send(&frame[..len])
}
