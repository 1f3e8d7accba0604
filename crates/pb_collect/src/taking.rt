//! Answers that are taken into an archive: each fragment's advances are appended before the next is looked at.
ghost use Rattle.std.specs.Prelude.{◌≡◌, [], ◌∷◌, ◌++◌, ◌<◌, ◌≤◌, false, true, List, length, slice_get, OnOk, OnErr, IfErr};
ghost use Rattle.pb_base.specs.Record.{content_len};
ghost use Rattle.pb_bmp5.specs.CollectReply.{SeenFragment, seen_of};
ghost use Rattle.pb_archive.specs.Entry as entry;
ghost use Rattle.pb_archive.specs.Opened.{GoesOn, IsOpen, register_of};
ghost use Rattle.pb_archive.specs.Refusals.{HasDiskCause, NeedsOpening};
ghost use Rattle.pb_collect.specs.Changing.{ChangesOnly};
ghost use Rattle.pb_collect.specs.Kept.{KeepsWhere, KnowsTrue};
ghost use Rattle.pb_collect.specs.Progress.{CanTake, CanTakeAll, after, after_all, advance_in, partial_bytes};
ghost use Rattle.pb_collect.specs.Taking.{AdvancesTrue, AllCameOf, AreBrief, CanFollow, IsBrief, IsReady, registers_after};

use crate::effect::{Advance, Effect};
use crate::progress::Progress;
use pb_archive::{Archive, ArchiveFault};
use pb_base::TableId;
use pb_bmp5::{Fragment, Fragments};
use pb_io::Disk;

// Appends the advance of an effect, if there is one.
fn append<D: Disk>(
    archive: &mut Archive,
    disk: &mut D,
    id: TableId,
    progress: &Progress,
    effect: Option<Effect>,
) -> Result<(), ArchiveFault>
    requires follows { (held : _) → slice_get archive.old.tables id.0 ≡ Some held
        → CanFollow held (advance_in progress.now.layout progress.now.joined effect) }
    requires going { GoesOn (register_of archive.old) id.0 }
    requires there { id.0 < length archive.old.tables }
    requires opened { IsOpen archive.old (D.view disk.old) }
    requires usable { NeedsOpening archive.old false }
    ensures opened { OnOk result (IsOpen archive.new (D.view disk.new)) }
    ensures usable { OnOk result (NeedsOpening archive.new false) }
    ensures register { OnOk result (register_of archive.new
        ≡ registers_after (register_of archive.old) id.0 (advance_in progress.now.layout progress.now.joined effect.entry)) }
    ensures stays { OnErr result (register_of archive.new ≡ register_of archive.old) }
    ensures keeps { (rest : List entry.Advance) → KeepsWhere
        (AdvancesTrue (D.view disk.old) id.0 (advance_in progress.now.layout progress.now.joined effect.entry ++ rest))
        (D.view disk.old) (D.view disk.new) }
    ensures came { OnOk result (AllCameOf (D.view disk.old) (D.view disk.new) id.0
        (advance_in progress.now.layout progress.now.joined effect.entry)) }
    ensures changes { ChangesOnly id.0 (register_of archive.old) (register_of archive.new) }
    ensures link { (D.view disk.new).link ≡ (D.view disk.old).link }
    ensures refused { IfErr result (λ fault. fault ≡ ArchiveFault.DiskFault) }
    ensures must_reopen { OnErr result (NeedsOpening archive.new true) }
    ensures cause { HasDiskCause (D.view disk.old).faults (D.view disk.new).faults result }
{
    match effect {
        None => Ok(()),
        Some(effect) => {
            let Advance {
                form,
                first,
                count,
                bytes,
            } = progress.advance(effect);
            archive.advance(disk, id, form, first, count, bytes)
        }
    }
}

// Takes in the next fragment of an answer: its advances are appended, at most two, and each is settled before the next.
fn take_fragment<D: Disk>(
    archive: &mut Archive,
    disk: &mut D,
    id: TableId,
    progress: &mut Progress,
    fragment: &Fragment,
) -> Result<(), ArchiveFault>
    requires can { CanTake progress.old (seen_of fragment.now) }
    requires brief { IsBrief (seen_of fragment.now) }
    requires small { content_len progress.old.layout ≤ entry.advance_bytes_max }
    requires ready { IsReady archive.old id.0 progress.old }
    requires opened { IsOpen archive.old (D.view disk.old) }
    requires usable { NeedsOpening archive.old false }
    ensures progress { progress.new ≡ after progress.old (seen_of fragment.now) }
    ensures ready { OnOk result (IsReady archive.new id.0 progress.new) }
    ensures opened { OnOk result (IsOpen archive.new (D.view disk.new)) }
    ensures usable { OnOk result (NeedsOpening archive.new false) }
    ensures keeps { (fs : List SeenFragment) → KeepsWhere
        (KnowsTrue (D.view disk.old) id.0 (partial_bytes progress.old) (seen_of fragment.now ∷ fs))
        (D.view disk.old) (D.view disk.new) }
    ensures knows { OnOk result ((fs : List SeenFragment)
        → KnowsTrue (D.view disk.old) id.0 (partial_bytes progress.old) (seen_of fragment.now ∷ fs)
        → KnowsTrue (D.view disk.new) id.0 (partial_bytes progress.new) fs) }
    ensures changes { ChangesOnly id.0 (register_of archive.old) (register_of archive.new) }
    ensures link { (D.view disk.new).link ≡ (D.view disk.old).link }
    ensures refused { IfErr result (λ fault. fault ≡ ArchiveFault.DiskFault) }
    ensures must_reopen { OnErr result (NeedsOpening archive.new true) }
    ensures cause { HasDiskCause (D.view disk.old).faults (D.view disk.new).faults result }
{
    let effects = progress.take(fragment);
    append(archive, disk, id, progress, effects.gap)?;
    append(archive, disk, id, progress, effects.kept)?;
    Ok(())
}

/// Takes the fragments of an answer that fits into the archive, one after the other. Where it answers a disk fault, the
/// archive must be opened again.
pub(crate) fn take_answer<D: Disk>(
    archive: &mut Archive,
    disk: &mut D,
    id: TableId,
    progress: &mut Progress,
    fragments: Fragments,
) -> Result<(), ArchiveFault>
    requires can { CanTakeAll progress.old fragments }
    requires brief { AreBrief fragments }
    requires small { content_len progress.old.layout ≤ entry.advance_bytes_max }
    requires ready { IsReady archive.old id.0 progress.old }
    requires opened { IsOpen archive.old (D.view disk.old) }
    requires usable { NeedsOpening archive.old false }
    ensures progress { OnOk result (progress.new ≡ after_all progress.old fragments.entry) }
    ensures ready { OnOk result (IsReady archive.new id.0 progress.new) }
    ensures opened { OnOk result (IsOpen archive.new (D.view disk.new)) }
    ensures usable { OnOk result (NeedsOpening archive.new false) }
    ensures keeps { KeepsWhere (KnowsTrue (D.view disk.old) id.0 (partial_bytes progress.old)
        fragments.entry) (D.view disk.old) (D.view disk.new) }
    ensures knows { OnOk result (KnowsTrue (D.view disk.old) id.0 (partial_bytes progress.old)
        fragments.entry
        → KnowsTrue (D.view disk.new) id.0 (partial_bytes progress.new) []) }
    ensures changes { ChangesOnly id.0 (register_of archive.old) (register_of archive.new) }
    ensures link { (D.view disk.new).link ≡ (D.view disk.old).link }
    ensures refused { IfErr result (λ fault. fault ≡ ArchiveFault.DiskFault) }
    ensures must_reopen { OnErr result (NeedsOpening archive.new true) }
    ensures cause { HasDiskCause (D.view disk.old).faults (D.view disk.new).faults result }
{
    for fragment in fragments {
        take_fragment(archive, disk, id, progress, &fragment)?;
    }
    Ok(())
}
