//! Laws of archives, and worked values of their definitions.
ghost use Rattle.std.specs.Prelude.{◌≡◌, ℕ, pos, false, true, [], ◌∷◌, ◌++◌, List, Option, None, Some, codes};
ghost use Rattle.pb_base.specs.declared.layout.Layout.{Layout};
ghost use Rattle.pb_base.specs.History.{TableKey, History, Later};
ghost use Rattle.pb_tdf.specs.Definition.{Definition};
ghost use Rattle.pb_tdf.specs.View.{signature_of};
ghost use Rattle.pb_archive.specs.Archive.{Archive, Extends, Table};
ghost use Rattle.pb_archive.specs.Entry.{Advance, Change, Added, Advanced, Stopped, plan_bytes, change_bytes, contents, archive_after, created, IsAllowed, IsArchive};
ghost use Rattle.pb_archive.specs.Held.{HasArchive};
ghost use Rattle.pb_archive.specs.Plan.{Plan, plan_text};
ghost use Rattle.pb_archive.specs.Refusals.{BreaksAt};
ghost use Rattle.pb_archive.specs.Rows.{kept, gap, rows_between};
ghost use Rattle.pb_archive.specs.Truth.{Sound};

/// A law: an archive that is true of its stations' histories stays so, whatever they store and overwrite.
pub fn sound_archives_stay_sound()
    ensures { (a : Archive) (old new : TableKey → History) → Later old new → Sound a old → Sound a new }
{}

/// A law: a list of entries is at most one archive.
pub fn entries_are_one_archive()
    ensures { (bodies : List (List ℕ)) (a b : Archive) → IsArchive bodies a → IsArchive bodies b → a ≡ b }
{}

/// A law: a file that is refused at an entry's gate holds no archive.
pub fn refused_files_have_no_archive()
    ensures { (file : List ℕ) (at : ℕ) (a : Archive) → BreaksAt file at → HasArchive file a → ⊥ }
{}

/// A law: an allowed change takes nothing back. The archive that it makes has the same plan, each table with all of its rows,
/// and each stop. What goes on from one that goes on is one.
pub fn changes_take_nothing_back()
    ensures change { (a : Archive) (change : Change) → IsAllowed a change
        → Extends a (archive_after a change) }
    ensures further { (a b c : Archive) → Extends a b → Extends b c → Extends a c }
{}

// Worked values: a plan of one station, as text and as an entry; an advance, a stop.
fn plans_and_changes_are_spelled()
    ensures { let plan : Plan = record {
      me = 4094;
      via = 10;
      stations = record { addr = 10; code = 7; name = codes "ab" } ∷ [];
    } in
        let advance : Advance = record { form = 0; first = 0x01020304; count = 2; bytes = 0xAA ∷ 0xBB ∷ [] } in
        (plan_text plan ≡ codes "self 4094 via 10\nstation 10 7 ab\n")
        × (plan_bytes plan ≡ 0x50 ∷ 0x0F ∷ 0xFE ∷ 0 ∷ 10 ∷ 1 ∷ 0 ∷ 10 ∷ 0 ∷ 7 ∷ 0x61 ∷ 0x62 ∷ 0 ∷ [])
        × (change_bytes (Advanced 258 advance)
        ≡ 0x41 ∷ 1 ∷ 2 ∷ 0 ∷ 1 ∷ 2 ∷ 3 ∷ 4 ∷ 0 ∷ 2 ∷ 0xAA ∷ 0xBB ∷ [])
        × (change_bytes (Stopped 3 (record { told = Some 0x8A5F })) ≡ 0x53 ∷ 0 ∷ 3 ∷ 1 ∷ 0x8A ∷ 0x5F ∷ [])
        × (change_bytes (Stopped 3 (record { told = None })) ≡ 0x53 ∷ 0 ∷ 3 ∷ 0 ∷ 0 ∷ 0 ∷ []) }
{}

// Worked values: two contents of nine bytes, and two records of one byte with an interval of 10.6 seconds.
fn contents_are_cut()
    ensures { let intervals : Layout = record {
      record_len = 1;
      event = false;
      interval = record { sec = pos 10; nano = pos 600000000 };
    } in
        let first = 0 ∷ 0 ∷ 0 ∷ 7 ∷ 0 ∷ 0 ∷ 0 ∷ 9 ∷ 0xAA ∷ [] in
        let second = 0 ∷ 0 ∷ 0 ∷ 0x11 ∷ 0x23 ∷ 0xC3 ∷ 0x46 ∷ 9 ∷ 0xBB ∷ [] in
        let both : List (List ℕ) = first ∷ second ∷ [] in
        (contents intervals (record { form = 0; first = 0; count = 2; bytes = first ++ second }) ≡ both)
        × (contents intervals (record { form = 1; first = 0; count = 2; bytes = first ++ 0xBB ∷ [] })
        ≡ both) }
{}

// Worked values: the only table of a plan with two stations, whose records 2 and 3 are kept, and then it is stopped.
fn archives_are_made()
    ensures { let plan : Plan = record {
      me = 4094;
      via = 10;
      stations = record { addr = 10; code = 0; name = codes "a" } ∷ record { addr = 11; code = 0; name = codes "b" } ∷ [];
    } in
        let definition : Definition = record {
          name = codes "T";
          size = 10;
          time_type = 14;
          into = record { sec = pos 0; nano = pos 0 };
          interval = record { sec = pos 0; nano = pos 0 };
          fields = [];
        } in
        let content = 0 ∷ 0 ∷ 0 ∷ 7 ∷ 0 ∷ 0 ∷ 0 ∷ 9 ∷ [] in
        let added = archive_after (created plan) (Added 1 5 definition) in
        let advanced = archive_after added (Advanced 0 (record { form = 0; first = 2; count = 2; bytes = content ++ content })) in
        let stopped = archive_after advanced (Stopped 0 (record { told = None })) in
        let table : Table = record {
          me = 4094;
          station = 1;
          key = record { station = 11; number = 5; signature = signature_of definition };
          definition = definition;
          rows = None ∷ None ∷ Some content ∷ Some content ∷ [];
          stop = Some (record { told = None });
        } in
        stopped ≡ record { plan = plan; tables = table ∷ [] } }
{}

// Worked values: the rows of a table with two gaps, of all of its numbers and of ranges that begin and end inside gaps.
fn rows_are_in_order()
    ensures { let table : List (Option (List ℕ)) = None ∷ None ∷ Some (1 ∷ []) ∷ Some (2 ∷ []) ∷ None
        ∷ None ∷ [] in
        (rows_between table 0 6 ≡ gap 0 2 ∷ kept 2 (1 ∷ []) ∷ kept 3 (2 ∷ []) ∷ gap 4 6 ∷ [])
        × (rows_between table 1 5 ≡ gap 1 2 ∷ kept 2 (1 ∷ []) ∷ kept 3 (2 ∷ []) ∷ gap 4 5 ∷ [])
        × (rows_between table 1 2 ≡ gap 1 2 ∷ [])
        × (rows_between table 3 3 ≡ []) }
{}
