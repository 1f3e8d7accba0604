//! The collecting of one table over a site: it is asked until it ends.
ghost use Rattle.std.specs.Prelude.{◌≡◌, ◌+◌, ◌^◌, ◌<◌, ◌≤◌, false, Some, length, slice_get, IfOk, IfErr, OnOk};
ghost use Rattle.pb_base.specs.Record.{content_len};
ghost use Rattle.pb_archive.specs.Entry.{advance_bytes_max};
ghost use Rattle.pb_archive.specs.Opened.{IsOpen, register_of};
ghost use Rattle.pb_archive.specs.Refusals.{NeedsOpening};
ghost use Rattle.pb_collect.specs.Changing.{ChangesOnly};
ghost use Rattle.pb_collect.specs.Commands.{IsCommandOf};
ghost use Rattle.pb_collect.specs.Exchanges.{BrokenBy, Goes};
ghost use Rattle.pb_collect.specs.Heard.{Listens};
ghost use Rattle.pb_collect.specs.Kept.{Keeps};
ghost use Rattle.pb_collect.specs.Ends.{asked_once_more};
ghost use Rattle.pb_collect.specs.Tables.{AreLimits, Asked, BreaksAt, BreaksFrom, BreaksOff, CameOut, EndedBy, EndsBy, HasStopOf, channel, end_of, point};
ghost use Rattle.pb_collect.specs.Progress.{question};
ghost use Rattle.pb_collect.specs.Taking.{IsReady};

use crate::broken::Broken;
use crate::ending::{End, Next};
use crate::exchanging::exchange;
use crate::outcome::Outcome;
use crate::progress::Progress;
use crate::question::CollectCommand;
use crate::state::{layout_of, state_of};
use pb_archive::Archive;
use pb_ask::Listener;
use pb_base::TableId;
use pb_bmp5::Mode;
use pb_io::Site;
use pb_trans::Limits;

// The command that asks for what a table is asked next.
fn command_of(
    archive: &Archive,
    id: TableId,
    progress: &Progress,
    tran: u8,
    mode: Mode,
) -> CollectCommand
    requires ready { IsReady archive.now id.0 progress.now }
    requires mode { mode ≡ question progress.now }
    ensures of { IsCommandOf archive.now id.0 progress.now result }
    ensures tran { result.tran ≡ tran }
{
    let view = archive.table(id).unwrap();
    let plan = archive.plan();
    let station = plan.station(view.station).unwrap();
    CollectCommand {
        me: plan.me(),
        via: plan.via(),
        station: station.addr,
        code: station.code,
        tran,
        table: view.number,
        sig: view.table.signature(),
        layout: progress.layout(),
        mode,
    }
}

// Asks for a table until it ends; none where it is to be stopped. Each request has the next transaction number.
fn ask_until_end<S: Site>(
    archive: &mut Archive,
    site: &mut S,
    listener: &mut Listener,
    progress: &mut Progress,
    tran: &mut u8,
    limits: Limits,
    id: TableId,
) -> Result<Option<End>, Broken>
    requires limits { AreLimits limits }
    requires none { progress.old.asked ≡ 0 }
    requires closed { progress.old.is_partial ≡ false }
    requires count { listener.old.ear.count ≤ 2 ^ 60 }
    requires listens { Listens listener.old (S.view site.old).link }
    requires small { content_len progress.old.layout ≤ advance_bytes_max }
    requires ready { IsReady archive.old id.0 progress.old }
    requires opened { IsOpen archive.old (S.view site.old) }
    requires usable { NeedsOpening archive.old false }
    ensures asks { IfOk result (λ end. (held : _) → slice_get archive.old.tables id.0 ≡ Some held
        → Asked limits archive.old.plan held progress.new.asked
        (point listener.old (S.view site.old).link (asked_once_more progress.old)) (end_of end)
        (point listener.new (S.view site.new).link progress.new)) }
    ensures breaks { IfErr result (λ broken. (held : _) → slice_get archive.old.tables id.0 ≡ Some held
        → BreaksAt broken limits archive.old.plan held
        (point listener.old (S.view site.old).link (asked_once_more progress.old)) (S.view site.new).link) }
    ensures asked { OnOk result ((1 ≤ progress.new.asked) × (progress.new.asked ≤ limits.budget)) }
    ensures ready { OnOk result (IsReady archive.new id.0 progress.new) }
    ensures goes { OnOk result (Goes archive.new (S.view site.old) (S.view site.new)) }
    ensures listens { OnOk result (Listens listener.new (S.view site.new).link) }
    ensures keeps { Keeps (S.view site.old) (S.view site.new) }
    ensures changes { ChangesOnly id.0 (register_of archive.old) (register_of archive.new) }
    ensures broken { IfErr result (λ broken. BrokenBy broken archive.new (S.view site.old)
        (S.view site.new)) }
    ensures count { listener.new.ear.count ≤ listener.old.ear.count + 2 ^ 46 }
{
    let mut mode = progress.ask();
    'requests: loop {
        let command = command_of(archive, id, progress, *tran, mode);
        *tran = tran.wrapping_add(1);
        match exchange(archive, site, listener, progress, limits, id, &command) {
            Err(broken) => return Err(broken),
            Ok(Next::Stop) => return Ok(None),
            Ok(Next::Ends(end)) => return Ok(Some(end)),
            Ok(Next::Ask(next)) => mode = next,
        }
    }
}

// Asks for a table until it ends, and stops it where its station has it under another signature.
fn end_of_table<S: Site>(
    archive: &mut Archive,
    site: &mut S,
    listener: &mut Listener,
    progress: &mut Progress,
    tran: &mut u8,
    limits: Limits,
    id: TableId,
    signature: u16,
) -> Result<End, Broken>
    requires limits { AreLimits limits }
    requires none { progress.old.asked ≡ 0 }
    requires closed { progress.old.is_partial ≡ false }
    requires count { listener.old.ear.count ≤ 2 ^ 60 }
    requires listens { Listens listener.old (S.view site.old).link }
    requires small { content_len progress.old.layout ≤ advance_bytes_max }
    requires ready { IsReady archive.old id.0 progress.old }
    requires opened { IsOpen archive.old (S.view site.old) }
    requires usable { NeedsOpening archive.old false }
    requires signature { (held : _) → slice_get archive.old.tables id.0 ≡ Some held
        → signature ≡ held.table.signature }
    ensures ended { IfOk result (λ end. (held : _) → slice_get archive.old.tables id.0 ≡ Some held
        → EndedBy limits archive.old.plan held progress.new.asked
        (point listener.old (S.view site.old).link (asked_once_more progress.old)) end
        (point listener.new (S.view site.new).link progress.new)) }
    ensures breaks { IfErr result (λ broken. (held : _) → slice_get archive.old.tables id.0 ≡ Some held
        → BreaksFrom broken limits archive.old.plan held
        (point listener.old (S.view site.old).link (asked_once_more progress.old)) (S.view site.new).link) }
    ensures front { OnOk result ((held : _) → slice_get archive.new.tables id.0 ≡ Some held
        → held.front ≡ progress.new.front) }
    ensures stopped { IfOk result (λ end. (held : _) → slice_get archive.new.tables id.0 ≡ Some held
        → HasStopOf end held) }
    ensures asked { OnOk result ((1 ≤ progress.new.asked) × (progress.new.asked ≤ limits.budget)) }
    ensures there { OnOk result (id.0 < length archive.new.tables) }
    ensures goes { OnOk result (Goes archive.new (S.view site.old) (S.view site.new)) }
    ensures listens { OnOk result (Listens listener.new (S.view site.new).link) }
    ensures keeps { Keeps (S.view site.old) (S.view site.new) }
    ensures changes { ChangesOnly id.0 (register_of archive.old) (register_of archive.new) }
    ensures broken { IfErr result (λ broken. BrokenBy broken archive.new (S.view site.old)
        (S.view site.new)) }
    ensures count { listener.new.ear.count ≤ listener.old.ear.count + 2 ^ 46 }
{
    match ask_until_end(archive, site, listener, progress, tran, limits, id) {
        Err(broken) => Err(broken),
        Ok(Some(end)) => Ok(end),
        Ok(None) => match archive.stop(site, id, None) {
            Ok(()) => Ok(End::Redefined {
                old: signature,
                told: None,
            }),
            Err(_) => Err(Broken::DiskFault),
        },
    }
}

/// Collects a table that is there: asks until it ends, and says what came of it. A table with a stop ends at once.
pub(crate) fn collect_table<S: Site>(
    archive: &mut Archive,
    site: &mut S,
    listener: &mut Listener,
    progress: &mut Progress,
    tran: &mut u8,
    limits: Limits,
    id: TableId,
) -> Result<Outcome, Broken>
    requires there { id.0 < length archive.old.tables }
    requires limits { AreLimits limits }
    requires count { listener.old.ear.count ≤ 2 ^ 60 }
    requires listens { Listens listener.old (S.view site.old).link }
    requires opened { IsOpen archive.old (S.view site.old) }
    requires usable { NeedsOpening archive.old false }
    ensures came { IfOk result (λ o. (before : _) (after : _)
        → slice_get archive.old.tables id.0 ≡ Some before
        → slice_get archive.new.tables id.0 ≡ Some after → CameOut id.0 before after o) }
    ensures ends { IfOk result (λ o. (held : _) → slice_get archive.old.tables id.0 ≡ Some held
        → EndsBy limits archive.old.plan held o (channel listener.old (S.view site.old).link)
        (channel listener.new (S.view site.new).link)) }
    ensures breaks { IfErr result (λ broken. (held : _) → slice_get archive.old.tables id.0 ≡ Some held
        → BreaksOff broken limits archive.old.plan held (channel listener.old (S.view site.old).link)
        (S.view site.new).link) }
    ensures table { IfOk result (λ o. o.table ≡ id) }
    ensures there { OnOk result (id.0 < length archive.new.tables) }
    ensures goes { OnOk result (Goes archive.new (S.view site.old) (S.view site.new)) }
    ensures listens { OnOk result (Listens listener.new (S.view site.new).link) }
    ensures keeps { Keeps (S.view site.old) (S.view site.new) }
    ensures changes { ChangesOnly id.0 (register_of archive.old) (register_of archive.new) }
    ensures broken { IfErr result (λ broken. BrokenBy broken archive.new (S.view site.old)
        (S.view site.new)) }
    ensures count { listener.new.ear.count ≤ listener.old.ear.count + 2 ^ 46 }
{
    let before = state_of(archive, id);
    match before.stop {
        Some(stop) => Ok(Outcome {
            table: id,
            from: before.front,
            to: before.front,
            gaps: 0,
            asked: 0,
            end: End::Redefined {
                old: before.signature,
                told: stop.told,
            },
        }),
        None => {
            progress.begin(layout_of(archive, id), before.front);
            let signature = before.signature;
            let end = match end_of_table(
                archive, site, listener, progress, tran, limits, id, signature,
            ) {
                Ok(end) => end,
                Err(broken) => return Err(broken),
            };
            let after = state_of(archive, id);
            Ok(Outcome {
                table: id,
                from: before.front,
                to: after.front,
                gaps: after.gaps.saturating_sub(before.gaps),
                asked: progress.asked(),
                end,
            })
        }
    }
}
