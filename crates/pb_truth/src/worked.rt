//! Worked values of the definitions.
ghost use Rattle.std.specs.Prelude.{◌≡◌, ℕ, pos, true, [], ◌∷◌, ◌++◌, List, None, Some};
ghost use Rattle.pb_base.specs.declared.layout.Layout.{Layout};
ghost use Rattle.pb_base.specs.Request as asked;
ghost use Rattle.pb_bmp5.specs.CollectReply.{SeenFragment, whole, part};
ghost use Rattle.pb_archive.specs.Archive.{Table};
ghost use Rattle.pb_bmp5.specs.WorkedReply.{worked_request, worked_reply};
ghost use Rattle.pb_truth.specs.Asked.{AsksFor, WasAsked, AsksFromAtMost};
ghost use Rattle.pb_truth.specs.Honest.{IsAnswer, WasHeard};
ghost use Rattle.pb_truth.specs.Learning.{Known, without_partial, BeginsFrom, BeginsWithPart, learned};
ghost use Rattle.pb_truth.specs.Bound.{parts_max, bound};
ghost use Rattle.pb_truth.specs.Undisturbed.{Undisturbed};
ghost use Rattle.pb_truth.specs.Worked.{asking, before_the_request, worked_world};

use crate::asking::written_frames_ask_once;

// A table with no rows, whose records have two field bytes, learns of record 2 and of the beginning of record 3; then of the
// rest of record 3. And a part that begins above the front leaves gaps before it.
fn an_answer_is_learned()
    ensures { (t : Table)
        → let layout : Layout = record {
          record_len = 2;
          event = true;
          interval = record
              { sec = pos 0; nano = pos 0 };
        } in
        let empty : Known = without_partial (record t { rows = [] }) in
        let second = 0 ∷ 0 ∷ 0 ∷ 7 ∷ 0 ∷ 0 ∷ 0 ∷ 9 ∷ 0xAA ∷ 0xBB ∷ [] in
        let begun = 0 ∷ 0 ∷ 0 ∷ 8 ∷ [] in
        let rest = 0 ∷ 0 ∷ 0 ∷ 9 ∷ 0xCC ∷ 0xDD ∷ [] in
        let first_answer = learned layout empty (whole 2 1 second ∷ part 3 0 begun ∷ []) in
        let gap = learned layout empty (part 2 0 begun ∷ []) in
        (first_answer.table.rows ≡ None ∷ None ∷ Some second ∷ []) × (first_answer.partial ≡ begun)
        × (learned layout first_answer (part 3 4 rest ∷ [])
        ≡ without_partial (record t { rows = None ∷ None ∷ Some second ∷ Some (begun ++ rest) ∷ [] }))
        × (gap ≡ record { table = record t { rows = None ∷ None ∷ [] }; partial = begun })
        × (learned layout gap (whole 9 0 [] ∷ []) ≡ gap) }
{}

// What fits a request for records from 2 on, and one for the rest of record 2 from its ninth byte on.
fn answers_fit()
    ensures from { (bytes : List ℕ) → BeginsFrom 2 (whole 3 1 bytes ∷ [])
        × BeginsFrom 2 (whole 0 0 [] ∷ [])
        × BeginsFrom 2 (part 2 0 bytes ∷ []) × BeginsFrom 2 [] }
    ensures not_from { (bytes : List ℕ)
        → (BeginsFrom 2 (whole 1 2 bytes ∷ []) → ⊥) × (BeginsFrom 2 (part 2 8 bytes ∷ []) → ⊥) }
    ensures rest { (bytes : List ℕ) → BeginsWithPart 2 8 (part 2 8 bytes ∷ [])
        × BeginsWithPart 2 8 (whole 9 0 [] ∷ []) }
    ensures not_rest { (bytes : List ℕ)
        → (BeginsWithPart 2 8 (part 2 0 bytes ∷ []) → ⊥) × (BeginsWithPart 2 8 (part 3 8 bytes ∷ []) → ⊥)
        × (BeginsWithPart 2 8 (whole 2 1 bytes ∷ []) → ⊥) }
{}

// What may be asked of a table with front 5.
fn requests_are_below_the_front()
    ensures may { AsksFromAtMost 5 (asked.From 5) × AsksFromAtMost 5 (asked.Part 4 8) }
    ensures may_not { (AsksFromAtMost 5 (asked.From 6) → ⊥) × (AsksFromAtMost 5 (asked.Part 6 0) → ⊥)
        × (AsksFromAtMost 5 asked.All → ⊥) }
{}

// A collect command from 4094 to station 10 asks for the records of table 1 from 0 on. Its frame was sent, its reply was
// heard, and the reply is a true answer to it. Nothing disturbed the exchange.
fn a_record_is_asked_for_and_comes()
    ensures asks { AsksFor asking worked_request }
    ensures asked { WasAsked worked_world worked_request }
    ensures heard { WasHeard worked_world worked_reply }
    ensures answer { IsAnswer worked_world worked_reply }
    ensures undisturbed { Undisturbed before_the_request worked_world }
{
    written_frames_ask_once();
}

// A content of 10 bytes comes in one part, one of 3,008 in up to 12. With a front of 3, of ten records of which 7 is the
// lowest, at most seven requests are made for short contents.
fn bounds_are_counted()
    ensures { let sized = λ (n : ℕ). let layout : Layout = record {
      record_len = n;
      event = true;
      interval = record { sec = pos 0; nano = pos 0 };
    } in layout in
        (parts_max (sized 2) ≡ 1) × (parts_max (sized 3000) ≡ 12) × (bound (sized 2) 3 7 10 ≡ 7)
        × (bound (sized 2) 7 3 10 ≡ 7) × (bound (sized 3000) 0 0 1 ≡ 14) × (bound (sized 2) 9 0 9 ≡ 1) }
{}
