//! Says hello to a node, and asks it for its time.
ghost use Rattle.std.specs.Prelude.{◌≡◌, ◌<◌, ◌≤◌, Err};
ghost use Rattle.pb_io.specs.Disk.{ReadsOnly};
ghost use Rattle.pb_io.specs.Faults.{Rose};
ghost use Rattle.pb_io.specs.View.{LeavesOnly};
ghost use Rattle.pb_tool.specs.Ping.{Greets, Pinging, answered, concluded};

use crate::ping::answer::{PingFault, Pinged};
use crate::ping::questions::{ClockOf, Greeting, HelloTo, Reading};
use pb_ask::{Conclusion, Listener};
use pb_base::NodeId;
use pb_collect::Cause;
use pb_io::{Failed, Site};
use pb_trans::Limits;

/// Each request is sent three times at most, and five quiet ticks are waited after each sending.
const LIMITS: Limits = Limits {
    budget: 2,
    sends: 3,
    quiets: 5,
};

/// Says hello to a node, and asks it for its time. After a hello without an answer nothing more is asked. It takes no
/// memory.
pub fn ping<S: Site>(site: &mut S, me: NodeId, node: NodeId) -> Result<Pinged, PingFault>
    ensures pings { Pinging me node (S.view site.old).link (S.view site.new).link result }
    ensures link_fault { result ≡ Err PingFault.LinkFault
        → Rose (S.view site.old).link.faults (S.view site.new).link.faults }
    ensures later { (S.view site.old).link.faults ≤ (S.view site.new).link.faults }
    ensures link_reported { (S.view site.old).link.faults < (S.view site.new).link.faults
        → result ≡ Err PingFault.LinkFault }
    ensures leaves { LeavesOnly (S.view site.old) (S.view site.new) (Greets me node (S.view site.old)) }
    ensures disk { ReadsOnly (S.view site.old) (S.view site.new) }
    ensures disk_faults { (S.view site.new).faults ≡ (S.view site.old).faults }
{
    let mut listener = Listener::new();
    let greeted = match listener.ask(site, LIMITS, &HelloTo { me, node }) {
        Ok(greeted) => greeted,
        Err(Failed) => return Err(PingFault::LinkFault),
    };
    let greeting = match answer_of(greeted) {
        Ok(greeting) => greeting,
        Err(cause) => return Err(PingFault::Hello(cause)),
    };
    match listener.ask(site, LIMITS, &ClockOf { me, node }) {
        Ok(timed) => conclude(greeting, timed),
        Err(Failed) => Err(PingFault::LinkFault),
    }
}

// The answer, or why there is none.
fn answer_of<A>(conclusion: Conclusion<A>) -> Result<A, Cause>
    ensures { result ≡ answered conclusion }
{
    match conclusion {
        Conclusion::Answer(answer) => Ok(answer),
        Conclusion::NoAnswer => Err(Cause::NoAnswer),
        Conclusion::Flooded => Err(Cause::Flooded),
        Conclusion::Undelivered(code) => Err(Cause::Undelivered(code)),
    }
}

// What the ping comes to after an answered hello, by what came of the clock command.
fn conclude(greeting: Greeting, timed: Conclusion<Reading>) -> Result<Pinged, PingFault>
    ensures { result ≡ concluded greeting timed }
{
    let Greeting {
        router,
        metric,
        verify,
    } = greeting;
    match answer_of(timed) {
        Err(cause) => Err(PingFault::Clock(cause, router, metric, verify)),
        Ok(Reading { resp: 0, time }) => {
            Ok(Pinged {
                router,
                metric,
                verify,
                time,
            })
        }
        Ok(Reading { resp, .. }) => {
            Err(PingFault::Clock(Cause::Refused(resp), router, metric, verify))
        }
    }
}
