//! One request of a table: it is asked, its answer is taken into the archive, and what comes next is found.
ghost use Rattle.std.specs.Prelude.{◌≡◌, ◌+◌, ◌^◌, ◌≤◌, [], false, true, length, drop, OnOk, OnErr, IfOk, IfErr};
ghost use Rattle.pb_base.specs.Record.{content_len};
ghost use Rattle.pb_bmp5.specs.CollectReply.{SeenReply};
ghost use Rattle.pb_archive.specs.Entry as entry;
ghost use Rattle.pb_archive.specs.Opened.{IsOpen, register_of};
ghost use Rattle.pb_archive.specs.Refusals.{HasDiskCause, NeedsOpening};
ghost use Rattle.pb_truth.specs.Pairs.{AreGood};
ghost use Rattle.pb_frame.specs.Hearing.{HoldsContent};
ghost use Rattle.pb_collect.specs.Changing.{ChangesOnly};
ghost use Rattle.pb_collect.specs.Commands.{IsCommandOf};
ghost use Rattle.pb_collect.specs.Exchanges.{BreaksBy, BrokenBy, Exchanged, Goes, ReadsNow, TeachesTrue, Took, TookBy};
ghost use Rattle.pb_collect.specs.Heard.{HeardBy, Listens};
ghost use Rattle.pb_collect.specs.Kept.{HonestFrom, KeepsHonest, KeepsWhere, KnowsTrue};
ghost use Rattle.pb_collect.specs.Progress.{partial_bytes};
ghost use Rattle.pb_collect.specs.Question.{MeansReply};
ghost use Rattle.pb_collect.specs.Taking.{IsReady};

use crate::answer::Said;
use crate::asking::ask;
use crate::broken::Broken;
use crate::ending::Next;
use crate::laws::answers_can_be_taken;
use crate::progress::Progress;
use crate::question::CollectCommand;
use crate::taking::take_answer;
use pb_archive::{Archive, ArchiveFault};
use pb_ask::{Conclusion, Listener};
use pb_base::TableId;
use pb_bmp5::read_collect;
use pb_io::{Disk, Failed, Site};
use pb_trans::Limits;
use pb_truth::good_pieces_end_streams;

// Takes the answer at hand, which has response code 0, into the archive.
fn take_heard<D: Disk>(
    archive: &mut Archive,
    disk: &mut D,
    id: TableId,
    progress: &mut Progress,
    listener: &Listener,
    command: &CollectCommand,
    said: Said,
) -> Result<(), ArchiveFault>
    requires holds { HoldsContent listener.now.ear }
    requires full { 8 ≤ length listener.now.ear.content }
    requires means { MeansReply command.now said (drop 8 listener.now.ear.content) }
    requires served { said.resp ≡ 0 }
    requires command { IsCommandOf archive.old id.0 progress.old command.now }
    requires small { content_len progress.old.layout ≤ entry.advance_bytes_max }
    requires ready { IsReady archive.old id.0 progress.old }
    requires opened { IsOpen archive.old (D.view disk.old) }
    requires usable { NeedsOpening archive.old false }
    ensures took { OnOk result (Took command.now listener.now said progress.old progress.new) }
    ensures ready { OnOk result (IsReady archive.new id.0 progress.new) }
    ensures opened { OnOk result (IsOpen archive.new (D.view disk.new)) }
    ensures usable { OnOk result (NeedsOpening archive.new false) }
    ensures keeps { (reply : SeenReply) → ReadsNow command.now listener.now reply
        → KeepsWhere (KnowsTrue (D.view disk.old) id.0 (partial_bytes progress.old) reply.fragments)
        (D.view disk.old) (D.view disk.new) }
    ensures knows { OnOk result ((reply : SeenReply) → ReadsNow command.now listener.now reply
        → KnowsTrue (D.view disk.old) id.0 (partial_bytes progress.old) reply.fragments
        → KnowsTrue (D.view disk.new) id.0 (partial_bytes progress.new) []) }
    ensures changes { ChangesOnly id.0 (register_of archive.old) (register_of archive.new) }
    ensures link { (D.view disk.new).link ≡ (D.view disk.old).link }
    ensures refused { IfErr result (λ fault. fault ≡ ArchiveFault.DiskFault) }
    ensures must_reopen { OnErr result (NeedsOpening archive.new true) }
    ensures cause { HasDiskCause (D.view disk.old).faults (D.view disk.new).faults result }
{
    let message = listener.message();
    let Ok(reply) = read_collect(message, command.table, &command.layout) else {
        unreachable!()
    };
    answers_can_be_taken();
    take_answer(archive, disk, id, progress, reply.fragments())
}

// Takes the answer of a request into the archive, where it has response code 0.
fn settle<D: Disk>(
    archive: &mut Archive,
    disk: &mut D,
    id: TableId,
    progress: &mut Progress,
    listener: &Listener,
    command: &CollectCommand,
    conclusion: &Conclusion<Said>,
) -> Result<(), ArchiveFault>
    requires heard { HeardBy command.now conclusion.now listener.now (D.view disk.old).link }
    requires command { IsCommandOf archive.old id.0 progress.old command.now }
    requires small { content_len progress.old.layout ≤ entry.advance_bytes_max }
    requires ready { IsReady archive.old id.0 progress.old }
    requires opened { IsOpen archive.old (D.view disk.old) }
    requires usable { NeedsOpening archive.old false }
    ensures took { OnOk result (TookBy command.now listener.now conclusion.now progress.old progress.new) }
    ensures ready { OnOk result (IsReady archive.new id.0 progress.new) }
    ensures opened { OnOk result (IsOpen archive.new (D.view disk.new)) }
    ensures usable { OnOk result (NeedsOpening archive.new false) }
    ensures keeps { KeepsWhere (TeachesTrue command.now listener.now (D.view disk.old) id.0
        progress.old conclusion.now) (D.view disk.old) (D.view disk.new) }
    ensures knows { OnOk result (TeachesTrue command.now listener.now (D.view disk.old) id.0
        progress.old conclusion.now
        → KnowsTrue (D.view disk.old) id.0 (partial_bytes progress.old) []
        → KnowsTrue (D.view disk.new) id.0 (partial_bytes progress.new) []) }
    ensures changes { ChangesOnly id.0 (register_of archive.old) (register_of archive.new) }
    ensures link { (D.view disk.new).link ≡ (D.view disk.old).link }
    ensures refused { IfErr result (λ fault. fault ≡ ArchiveFault.DiskFault) }
    ensures must_reopen { OnErr result (NeedsOpening archive.new true) }
    ensures cause { HasDiskCause (D.view disk.old).faults (D.view disk.new).faults result }
{
    match *conclusion {
        Conclusion::Answer(said) => {
            if said.resp == 0 {
                return take_heard(archive, disk, id, progress, listener, command, said);
            }
            Ok(())
        }
        Conclusion::Undelivered(_) => Ok(()),
        Conclusion::NoAnswer => Ok(()),
        Conclusion::Flooded => Ok(()),
    }
}

/// Asks for what a table is asked next, takes the answer into the archive, and says what comes next.
pub(crate) fn exchange<S: Site>(
    archive: &mut Archive,
    site: &mut S,
    listener: &mut Listener,
    progress: &mut Progress,
    limits: Limits,
    id: TableId,
    command: &CollectCommand,
) -> Result<Next, Broken>
    requires sends { 1 ≤ limits.sends }
    requires quiets { 1 ≤ limits.quiets }
    requires budget { progress.old.asked ≤ limits.budget }
    requires count { listener.old.ear.count ≤ 2 ^ 61 }
    requires listens { Listens listener.old (S.view site.old).link }
    requires command { IsCommandOf archive.old id.0 progress.old command.now }
    requires small { content_len progress.old.layout ≤ entry.advance_bytes_max }
    requires ready { IsReady archive.old id.0 progress.old }
    requires opened { IsOpen archive.old (S.view site.old) }
    requires usable { NeedsOpening archive.old false }
    ensures exchanged { IfOk result (λ next. Exchanged command.now limits listener.old
        (S.view site.old).link progress.old next
        listener.new (S.view site.new).link progress.new) }
    ensures breaks { IfErr result (λ broken. BreaksBy broken command.now limits listener.old
        (S.view site.old).link (S.view site.new).link) }
    ensures ready { OnOk result (IsReady archive.new id.0 progress.new) }
    ensures goes { OnOk result (Goes archive.new (S.view site.old) (S.view site.new)) }
    ensures listens { OnOk result (Listens listener.new (S.view site.new).link) }
    ensures keeps { KeepsHonest (KnowsTrue (S.view site.old) id.0 (partial_bytes progress.old) [])
        (S.view site.old) (S.view site.new) }
    ensures knows { OnOk result (KnowsTrue (S.view site.old) id.0 (partial_bytes progress.old) []
        → AreGood (S.view site.old) → HonestFrom (S.view site.old) (S.view site.new)
        → KnowsTrue (S.view site.new) id.0 (partial_bytes progress.new) []) }
    ensures changes { ChangesOnly id.0 (register_of archive.old) (register_of archive.new) }
    ensures broken { IfErr result (λ broken. BrokenBy broken archive.new (S.view site.old)
        (S.view site.new)) }
    ensures count { listener.new.ear.count ≤ listener.old.ear.count + 2 ^ 25 }
{
    good_pieces_end_streams();
    let conclusion = match ask(listener, site, limits, command) {
        Ok(conclusion) => conclusion,
        Err(Failed) => return Err(Broken::LinkFault),
    };
    match settle(archive, site, id, progress, listener, command, &conclusion) {
        Ok(()) => Ok(progress.next(limits.budget, conclusion)),
        Err(_) => Err(Broken::DiskFault),
    }
}
