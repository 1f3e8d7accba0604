//! Laws of worlds that grow.
ghost use Rattle.std.specs.Prelude.{◌≡◌, ℕ, [], ◌∷◌, ◌++◌, List};
ghost use Rattle.pb_base.specs.World.{World, sent};
ghost use Rattle.pb_base.specs.History.{history};
ghost use Rattle.pb_archive.specs.Archive.{Archive, Extends};
ghost use Rattle.pb_archive.specs.Truth.{Sound};
ghost use Rattle.pb_truth.specs.Asked.{AsksNothing};
ghost use Rattle.pb_truth.specs.Honest.{Honest};
ghost use Rattle.pb_truth.specs.Image.{Good};
ghost use Rattle.pb_truth.specs.Learning.{Known, SoundKnown};

/// An archive that is true of a world is true of every later one. A good image stays good while nothing is asked, whatever
/// stations store, overwrite and define, whatever is heard, and whatever streams begin.
pub fn archives_outlive_events()
    ensures sound { (w more : World) (a : Archive) → Sound a (history w) → Sound a (history (w ++ more)) }
    ensures good { (w more : World) (image : List ℕ) → Good w image → AsksNothing more
        → Good (w ++ more) image }
    ensures silent { (more : World) → sent more ≡ [] → AsksNothing more }
{}

/// What is known of a table stays true, whatever happens.
pub fn knowledge_outlives_events()
    ensures { (w more : World) (k : Known) → SoundKnown k (history w k.table.key)
        → SoundKnown k (history (w ++ more) k.table.key) }
{}

/// An honest world was honest at each earlier moment, and for each archive from which its archive goes on.
pub fn honest_worlds_were_honest()
    ensures earlier { (w more : World) (a : Archive) → Honest (w ++ more) a → Honest w a }
    ensures fewer { (w : World) (a b : Archive) → Extends a b → Honest w b → Honest w a }
{}
