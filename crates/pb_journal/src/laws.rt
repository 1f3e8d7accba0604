//! Laws of the journal file.
ghost use Rattle.std.specs.Prelude.{◌≡◌, ℕ, List, ◌++◌};
ghost use Rattle.pb_journal.specs.Entries.{Entries, gate_place};
ghost use Rattle.pb_journal.specs.Reading.{Ahead};
ghost use Rattle.pb_journal.specs.Refusals.{RefusedAt};

/// A law: a file stands for one list of entries at most.
pub fn entries_are_one()
    ensures { (file : List ℕ) (one other : List (List ℕ)) → Entries file one → Entries file other
        → one ≡ other }
{}

/// A law: a file that is refused at some place stands for no list.
pub fn refused_has_no_entries()
    ensures { (file : List ℕ) (at : ℕ) (bodies : List (List ℕ)) → RefusedAt file at
        → Entries file bodies → ⊥ }
{}

/// A law: between the places of two gates a file has the entries that its list has there.
pub fn entries_lie_ahead()
    ensures { (file : List ℕ) (before bodies more : List (List ℕ))
        → Entries file (before ++ (bodies ++ more))
        → Ahead file (gate_place before) (gate_place (before ++ bodies)) bodies }
{}
