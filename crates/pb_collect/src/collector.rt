//! The collector of an archive: rounds over all of its tables.
ghost use Rattle.std.specs.Prelude.{◌≡◌, ◌↔◌, IsTrue, List, ◌++◌, ◌+◌, ◌*◌, ◌^◌, ◌<◌, ◌≤◌, [], true, false, length, vec_capacity, IfOk, IfErr, OnOk, OnErr};
ghost use Rattle.std.specs.List.{AllByRecursion};
ghost use Rattle.pb_archive.specs.Entry.{tables_max};
ghost use Rattle.pb_archive.specs.Opened.{IsOpen, register_of};
ghost use Rattle.pb_archive.specs.Refusals.{HasDiskCause, NeedsOpening, OpenRefuses};
ghost use Rattle.pb_io.specs.Crash.{Changes};
ghost use Rattle.pb_io.specs.Settled.{Leaves};
ghost use Rattle.pb_journal.specs.Changes.{SameEntries, Keeps as KeepsEntries};
ghost use Rattle.pb_collect.specs.Complete.{Completes};
ghost use Rattle.pb_collect.specs.Adding.{Adds, HoldsAtLeast};
ghost use Rattle.pb_collect.specs.Defining.{FaultLeaves};
ghost use Rattle.pb_collect.specs.Exchanges.{BrokenBy, Goes};
ghost use Rattle.pb_collect.specs.Fetching.{AddedStand, EndedByFault, Fetched, FetchedUntil};
ghost use Rattle.pb_collect.specs.Heard.{Listens};
ghost use Rattle.pb_collect.specs.Kept.{Keeps};
ghost use Rattle.pb_collect.specs.Tables.{AreLimits};
ghost use Rattle.pb_collect.specs.declared.report.DefsLine.{DefsLine as Line};
ghost use Rattle.pb_collect.specs.Round.{AreInOrder, Asks, AsksBy, AsksUntil, ComesTo, CountsOf, FrontsStand, IsDone, IsEndedBy, Reaches, RoundIs};

use crate::broken::Broken;
use crate::ending::End;
use crate::fault::DefsFault;
use crate::fetching::fetch_all;
use crate::outcome::Outcome;
use crate::progress::Progress;
use crate::report::DefsReport;
use crate::table::collect_table;
use pb_archive::{Archive, ArchiveFault, TABLES_MAX};
use pb_ask::Listener;
use pb_base::TableId;
use pb_frame::{law_limits, law_quoted};
use pb_io::Site;
use pb_trans::Limits;
use std::alloc::Global;
use std::marker::Model;

/// What a round came to.
#[derive(Clone, Copy, Debug, PartialEq, Eq)]
pub enum RoundResult {
    /// Every table is done.
    Done,
    /// Every table came to its end, and one isn't done.
    Incomplete,
    /// A disk call failed; the collector's archive must be opened again.
    DiskFault,
    /// A link call failed; the archive stays usable.
    LinkFault,
}

/// An archive whose tables are collected. All that a round needs is reserved when it is opened.
#[derive(Drop)]
pub struct Collector {
    archive: Archive,
    outcomes: Vec<Outcome>,
    progress: Progress,
    // the transaction number of the next request
    tran: u8,
    ended: bool,
}

impl Model for Collector {
    ghost use Rattle.std.specs.Prelude.{◌≡◌, ◌≤◌, vec_capacity};
    ghost use Rattle.pb_archive.specs.Entry.{tables_max};
    ghost use Rattle.pb_collect.specs.Round.{Collecting};

    ghost Value = { Collecting };

    ghost view = { λ c. record { archive = c.archive; outcomes = c.outcomes.items; ended = c.ended } };

    ghost invariant = { λ c. (tables_max ≤ vec_capacity c.outcomes) × (c.archive.journal.must_reopen ≡ c.ended) };
}

impl Collector {
    /// The archive on this disk. What a write that was broken off has left is taken back, so an opening can write. Takes
    /// memory.
    pub fn open<S: Site>(alloc: Global, site: &mut S) -> Result<Collector, ArchiveFault>
        ensures opened { IfOk result (λ c. IsOpen c.archive (S.view site.new)) }
        ensures same { OnOk result (Changes SameEntries (S.view site.old).file (S.view site.new).file) }
        ensures usable { IfOk result (λ c. c.ended ≡ false) }
        ensures leaves { Leaves KeepsEntries (S.view site.old) (S.view site.new) }
        ensures refused { IfErr result (OpenRefuses (S.view site.old).file) }
        ensures link { (S.view site.new).link ≡ (S.view site.old).link }
        ensures cause { HasDiskCause (S.view site.old).faults (S.view site.new).faults result }
    {
        let archive = Archive::open(alloc, site)?;
        let Ok(outcomes) = Vec::with_capacity(alloc, TABLES_MAX) else {
            return Err(ArchiveFault::Memory);
        };
        let Ok(progress) = Progress::new(alloc) else {
            return Err(ArchiveFault::Memory);
        };
        Ok(Collector {
            archive,
            outcomes,
            progress,
            tran: 1,
            ended: false,
        })
    }

    /// Collects every table in its order, each until it ends.
    pub fn round<S: Site>(&mut self, site: &mut S, limits: Limits) -> RoundResult
        requires sends { 1 ≤ limits.sends }
        requires quiets { 1 ≤ limits.quiets }
        requires budget { 1 ≤ limits.budget }
        requires spent { limits.budget ≤ 1000000 }
        requires opened { IsOpen self.old.archive (S.view site.old) }
        requires usable { self.old.ended ≡ false }
        ensures result { RoundIs result self.new.outcomes (length self.new.archive.tables) }
        ensures order { AreInOrder 0 self.new.outcomes }
        ensures reaches { Reaches self.new.outcomes (register_of self.old.archive)
            (register_of self.new.archive) }
        ensures asks { AsksBy result limits (register_of self.old.archive) self.new.outcomes
            (S.view site.old).link (S.view site.new).link }
        ensures fronts { FrontsStand self.new.outcomes (S.view site.new) }
        ensures keeps { Keeps (S.view site.old) (S.view site.new) }
        ensures opened { self.new.ended ≡ false → IsOpen self.new.archive (S.view site.new) }
        ensures ended { IsEndedBy result self.new.ended }
        ensures counts { CountsOf result (S.view site.old) (S.view site.new) }
        ensures complete { Completes result limits.budget (register_of self.old.archive)
            self.new.outcomes (S.view site.old) (S.view site.new) }
    {
        law_limits();
        law_quoted();
        self.outcomes.clear();
        match collect_tables(
            &mut self.archive,
            site,
            &mut self.outcomes,
            &mut self.progress,
            &mut self.tran,
            limits,
        ) {
            Ok(()) => came_to(&self.outcomes),
            Err(Broken::DiskFault) => {
                self.ended = true;
                RoundResult::DiskFault
            }
            Err(Broken::LinkFault) => RoundResult::LinkFault,
        }
    }

    /// Asks each station of the plan for its file of table definitions, and adds the tables that the archive hasn't, and stops
    /// those that have another signature there. Adds a line to the report for each table, or for a station that fails; the room
    /// of a line is taken before its table is. What was done before a fault stays. Takes memory.
    pub fn fetch_definitions<S: Site>(
        &mut self,
        alloc: Global,
        site: &mut S,
        limits: Limits,
        report: &mut DefsReport,
    ) -> Result<(), DefsFault>
        requires sends { 1 ≤ limits.sends }
        requires quiets { 1 ≤ limits.quiets }
        requires opened { IsOpen self.old.archive (S.view site.old) }
        requires usable { self.old.ended ≡ false }
        ensures fetched { OnOk result ((lines : List Line) × (report.new.lines ≡ report.old.lines ++ lines)
            × Fetched limits lines (S.view site.old).link (S.view site.new).link
            (register_of self.old.archive)
            (register_of self.new.archive)) }
        ensures until { IfErr result (λ fault. (lines : List Line)
            × (report.new.lines ≡ report.old.lines ++ lines)
            × FetchedUntil fault limits lines (S.view site.old).link (S.view site.new).link
            (register_of self.old.archive)
            (register_of self.new.archive)) }
        ensures stand { (lines : List Line) → report.new.lines ≡ report.old.lines ++ lines
            → AddedStand lines (S.view site.new) }
        ensures holds { HoldsAtLeast (register_of self.new.archive) (S.view site.new) }
        ensures adds { Adds (S.view site.old) (S.view site.new) }
        ensures goes { OnOk result (Goes self.new.archive (S.view site.old) (S.view site.new)) }
        ensures fault { IfErr result (λ fault. FaultLeaves fault self.new.archive (S.view site.old)
            (S.view site.new)) }
        ensures usable { OnOk result (self.new.ended ≡ false) }
        ensures ended { IfErr result (λ fault. EndedByFault fault self.new.ended) }
        ensures outcomes { self.new.outcomes ≡ self.old.outcomes }
    {
        match fetch_all(
            alloc,
            &mut self.archive,
            site,
            &mut self.tran,
            limits,
            report,
        ) {
            Ok(()) => Ok(()),
            Err(DefsFault::DiskFault) => {
                self.ended = true;
                Err(DefsFault::DiskFault)
            }
            Err(DefsFault::LinkFault) => Err(DefsFault::LinkFault),
            Err(DefsFault::Memory) => Err(DefsFault::Memory),
        }
    }

    /// What came of the tables in the last round, in their order.
    pub fn outcomes(&self) -> &[Outcome]
        ensures { result.now ≡ self.now.outcomes }
    {
        &self.outcomes
    }

    /// Whether a disk call failed in a round.
    pub fn ended(&self) -> bool
        ensures { result ≡ self.now.ended }
    {
        self.ended
    }

    /// The archive.
    pub fn archive(&self) -> &Archive
        ensures { result.now ≡ self.now.archive }
    {
        &self.archive
    }
}

// Whether the table is done.
fn is_done(outcome: &Outcome) -> bool
    ensures { IsTrue result ↔ IsDone outcome.now }
{
    match outcome.end {
        End::Done => true,
        _ => false,
    }
}

// What a round with these outcomes came to.
fn came_to(outcomes: &[Outcome]) -> RoundResult
    ensures { ComesTo result outcomes.now }
{
    if outcomes.iter().all(|outcome| is_done(outcome)) {
        RoundResult::Done
    } else {
        RoundResult::Incomplete
    }
}

// Collects every table in its order; the outcomes of those that came to their ends are added.
fn collect_tables<S: Site>(
    archive: &mut Archive,
    site: &mut S,
    outcomes: &mut Vec<Outcome>,
    progress: &mut Progress,
    tran: &mut u8,
    limits: Limits,
) -> Result<(), Broken>
    requires limits { AreLimits limits }
    requires none { outcomes.old.items ≡ [] }
    requires room { tables_max ≤ vec_capacity outcomes.old }
    requires opened { IsOpen archive.old (S.view site.old) }
    requires usable { NeedsOpening archive.old false }
    ensures room { tables_max ≤ vec_capacity outcomes.new }
    ensures all { OnOk result (length outcomes.new.items ≡ length archive.new.tables) }
    ensures short { OnErr result (length outcomes.new.items < length archive.new.tables) }
    ensures order { AreInOrder 0 outcomes.new.items }
    ensures reaches { Reaches outcomes.new.items (register_of archive.old) (register_of archive.new) }
    ensures asks { OnOk result (Asks limits (register_of archive.old) outcomes.new.items
        (S.view site.old).link (S.view site.new).link) }
    ensures breaks { IfErr result (λ broken. AsksUntil broken limits (register_of archive.old)
        outcomes.new.items (S.view site.old).link (S.view site.new).link) }
    ensures fronts { FrontsStand outcomes.new.items (S.view site.new) }
    ensures goes { OnOk result (Goes archive.new (S.view site.old) (S.view site.new)) }
    ensures keeps { Keeps (S.view site.old) (S.view site.new) }
    ensures broken { IfErr result (λ broken. BrokenBy broken archive.new (S.view site.old)
        (S.view site.new)) }
{
    let mut listener = Listener::new();
    'tables: while outcomes.len() < usize::from(archive.tables()) {
        let id = TableId(outcomes.len() as u16);
        match collect_table(archive, site, &mut listener, progress, tran, limits, id) {
            Ok(outcome) => outcomes.push_reserved(outcome),
            Err(broken) => return Err(broken),
        }
    }
    Ok(())
}
