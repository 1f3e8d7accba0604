//! One collect request over a site.
ghost use Rattle.std.specs.Prelude.{◌≡◌, ◌+◌, ◌^◌, ◌≤◌, IfOk, OnOk, OnErr};
ghost use Rattle.pb_io.specs.Disk.{ReadsOnly};
ghost use Rattle.pb_io.specs.Faults.{HasCause};
ghost use Rattle.pb_ask.specs.Asking.{Asks, Stops};
ghost use Rattle.pb_collect.specs.Heard.{Listens, IsAllowedIn, HeardBy};
ghost use Rattle.pb_collect.specs.Kept.{Keeps};
ghost use Rattle.pb_collect.specs.Question.{AsksOnce, wanted_reply};

use crate::answer::Said;
use crate::question::CollectCommand;
use pb_ask::{Conclusion, Listener};
use pb_io::{Failed, Site};
use pb_trans::Limits;

/// Asks a station for records of a table that is allowed, and says how the request ended. No disk call is made.
pub(crate) fn ask<S: Site>(
    listener: &mut Listener,
    site: &mut S,
    limits: Limits,
    command: &CollectCommand,
) -> Result<Conclusion<Said>, Failed>
    requires sends { 1 ≤ limits.sends }
    requires quiets { 1 ≤ limits.quiets }
    requires count { listener.old.ear.count ≤ 2 ^ 61 }
    requires allowed { IsAllowedIn (S.view site.old) command.now }
    requires listens { Listens listener.old (S.view site.old).link }
    ensures asks { IfOk result (λ conclusion. Asks (wanted_reply command.now) limits listener.old
        (S.view site.old).link conclusion listener.new (S.view site.new).link) }
    ensures stops { OnErr result (Stops (wanted_reply command.now) limits listener.old
        (S.view site.old).link listener.new (S.view site.new).link) }
    ensures once { AsksOnce command.now }
    ensures listens { OnOk result (Listens listener.new (S.view site.new).link) }
    ensures heard { IfOk result (λ conclusion. HeardBy command.now conclusion listener.new
        (S.view site.new).link) }
    ensures keeps { Keeps (S.view site.old) (S.view site.new) }
    ensures disk { ReadsOnly (S.view site.old) (S.view site.new) }
    ensures disk_faults { (S.view site.new).faults ≡ (S.view site.old).faults }
    ensures cause { HasCause (S.view site.old).link.faults (S.view site.new).link.faults result }
    ensures count { listener.new.ear.count ≤ listener.old.ear.count + 2 ^ 25 }
{
    command.asks_once();
    let conclusion = listener.ask(site, limits, command)?;
    Ok(conclusion)
}
