//! Laws of what an answer teaches.
ghost use Rattle.std.specs.Prelude.{◌≡◌, ℕ, List, ◌∷◌, ◌++◌};
ghost use Rattle.std.specs.List.{Contains};
ghost use Rattle.pb_base.specs.Fields.{IsBytes};
ghost use Rattle.pb_base.specs.World.{TableDefinition};
ghost use Rattle.pb_base.specs.History.{TableKey, History, IsFront};
ghost use Rattle.pb_base.specs.Request.{Request};
ghost use Rattle.pb_base.specs.declared.layout.Layout.{Layout};
ghost use Rattle.pb_bmp5.specs.CollectReply.{SeenFragment, SeenReply, CollectReads};
ghost use Rattle.pb_bmp5.specs.TrueReply.{Delivered, TrueReply};
ghost use Rattle.pb_archive.specs.Archive.{Table, front, record_layout};
ghost use Rattle.pb_archive.specs.Entry.{Advance};
ghost use Rattle.pb_archive.specs.Truth.{SoundTable};
ghost use Rattle.pb_truth.specs.Asked.{AsksFromAtMost};
ghost use Rattle.pb_truth.specs.Keeping.{advances, table_after, CanBeKept, CanAllBeKept};
ghost use Rattle.pb_truth.specs.Learning.{Known, without_partial, SoundKnown, FitsKnown, taken, learned};

/// A true reply with response code 0 to a request from a table's front or below, for records or for a part, leaves what is
/// known of the table true, where it fits what is asked next: however late it comes, and to whichever such request. The
/// premise on layouts says that the table has one layout under its signature.
pub fn true_answers_teach_the_truth()
    ensures { (k : Known) (r : Request) (m : Delivered) (histories : TableKey → History)
        (reply : SeenReply)
        → SoundKnown k (histories k.table.key) → TrueReply r m histories → r.table ≡ k.table.key
        → ((d : TableDefinition) → Contains (histories k.table.key).definitions d
        → d.layout ≡ record_layout k.table.definition)
        → AsksFromAtMost (front k.table) r.mode
        → CollectReads k.table.key.number (record_layout k.table.definition) reply m.message
        → reply.resp ≡ 0
        → FitsKnown k reply.fragments
        → SoundKnown (learned (record_layout k.table.definition) k reply.fragments)
        (histories k.table.key) }
{}

/// An answer only adds rows, fragment by fragment, and a table that is true with more rows is true with fewer. So while an
/// answer is taken in, the table is true after each of its fragments. A partial record may be given up.
pub fn fewer_rows_are_true()
    ensures adds { (layout : Layout) (k : Known) (fs : List SeenFragment)
        → IsFront k.table.rows (learned layout k fs).table.rows }
    ensures fewer { (t u : Table) (h : History) → IsFront t.rows u.rows → SoundTable u h → SoundTable t h }
    ensures closes { (k : Known) (h : History) → SoundKnown k h → SoundKnown (without_partial k.table) h }
{}

/// The advances for a fragment make of the table what the fragment teaches: a run of records as it came, in a table of
/// intervals with one time; gaps up to a part that begins above the front; and a content that a part makes whole. Each
/// advance only adds rows. So where what is learned is true, the table is true after each of the advances on the way.
pub fn advances_keep_what_is_learned()
    ensures keep { (layout : Layout) (k : Known) (f : SeenFragment) → CanBeKept layout k.table f
        → table_after layout k.table (advances layout k f) ≡ (taken layout k f).table }
    ensures add { (layout : Layout) (t : Table) (some : List Advance)
        → IsFront t.rows (table_after layout t some).rows }
    ensures further { (layout : Layout) (t : Table) (some more : List Advance)
        → table_after layout t (some ++ more) ≡ table_after layout (table_after layout t some) more }
    ensures first { (layout : Layout) (k : Known) (f : SeenFragment) (fs : List SeenFragment)
        (some more : List Advance) (h : History)
        → CanBeKept layout k.table f → advances layout k f ≡ some ++ more
        → SoundTable (learned layout k (f ∷ fs)).table h → SoundTable (table_after layout k.table some) h }
{}

/// The fragments of an answer that fits can be kept, one after the other: none begins below the front.
pub fn fragments_that_fit_can_be_kept()
    ensures { (layout : Layout) (k : Known) (table : ℕ) (reply : SeenReply) (message : List ℕ)
        → CollectReads table layout reply message → IsBytes message → reply.resp ≡ 0
        → FitsKnown k reply.fragments
        → CanAllBeKept layout k reply.fragments }
{}
