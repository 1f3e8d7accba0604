//! Laws of the pairs of a world and an image that a crash may leave.
ghost use Rattle.std.specs.Prelude.{◌≡◌, ℕ, ◌++◌, List, Some};
ghost use Rattle.pb_base.specs.World.{World};
ghost use Rattle.pb_base.specs.History.{history};
ghost use Rattle.pb_base.specs.Request.{Request};
ghost use Rattle.pb_io.specs.View.{IsLawful, LeavesOnly};
ghost use Rattle.pb_archive.specs.Archive.{Archive};
ghost use Rattle.pb_archive.specs.Entry.{Change, IsAllowed, IsArchive, created, archive_after};
ghost use Rattle.pb_archive.specs.Plan.{Plan};
ghost use Rattle.pb_archive.specs.Held.{HasArchive, KeepsOrMakes, Writes};
ghost use Rattle.pb_archive.specs.Truth.{Sound};
ghost use Rattle.pb_truth.specs.Asked.{WasAsked, Allows, AsksNothing, IsOwn, HasOneEach, AskedBelow};
ghost use Rattle.pb_truth.specs.Image.{StaysTrue, Good};
ghost use Rattle.pb_truth.specs.Pairs.{AreGood, AreGoodSince, AsksAllowed, StaysTrueIn};

use pb_archive::{changes_take_nothing_back, entries_are_one_archive};
use pb_io::Site;
use pb_journal::entries_are_one;

/// Each table of an archive is asked for from the archive's own address, and no two are for one station and number.
pub fn archives_have_each_table_once()
    ensures { (bodies : List (List ℕ)) (a : Archive) → IsArchive bodies a → HasOneEach a }
{}

/// An allowed change keeps an archive true where the rows that it adds are true, and what was asked stays below the fronts.
pub fn changes_keep_archives_true()
    ensures sound { (w : World) (a : Archive) (change : Change) → Sound a (history w)
        → StaysTrue w a change
        → Sound (archive_after a change) (history w) }
    ensures asked { (w : World) (a : Archive) (change : Change) → AskedBelow w a → IsAllowed a change
        → AskedBelow w (archive_after a change) }
{
    changes_take_nothing_back();
}

/// An image with a plan and no table is good where nothing was asked from the plan's address, and only there.
pub fn created_archives_are_good()
    ensures good { (w : World) (image : List ℕ) (plan : Plan) → HasArchive image (created plan)
        → ((r : Request) → WasAsked w r → r.me ≡ plan.me → ⊥) → Good w image }
    ensures only { (w : World) (image : List ℕ) (plan : Plan) (r : Request)
        → HasArchive image (created plan)
        → WasAsked w r → r.me ≡ plan.me → Good w image → ⊥ }
{
    entries_are_one();
    entries_are_one_archive();
}

/// A good image has one archive, which is true, and nothing was asked above its fronts. The image stays good when requests
/// are sent that its archive allows. Of what an allowed change may leave, failed or not, each is good: the file as it was,
/// its archive, or its archive with the change.
pub fn images_stay_good()
    ensures archive { (w : World) (image : List ℕ) (a : Archive) → Good w image → HasArchive image a
        → Sound a (history w) × AskedBelow w a }
    ensures asked { (w more : World) (image : List ℕ) → Good w image
        → ((a : Archive) (r : Request) → HasArchive image a → WasAsked more r → IsOwn a r.me → Allows a r)
        → Good (w ++ more) image }
    ensures changed { (w : World) (old new : List ℕ) (change : Change) → Good w old
        → ((a : Archive) → HasArchive old a → StaysTrue w a change) → KeepsOrMakes change old new
        → Good w new }
{
    entries_are_one();
    entries_are_one_archive();
    changes_take_nothing_back();
}

/// Each pair that a crash leaves stays good from call to call: while nothing is asked but what the images allow, and in a call
/// that makes a change which keeps their archives true, failed or not.
pub fn pairs_stay_good<S: Site>()
    ensures start { (now : S) → IsLawful (S.view now) → AreGood (S.view now)
        → AreGoodSince (S.view now) (S.view now) }
    ensures further { (a b c : S) → AreGoodSince (S.view a) (S.view b) → AreGoodSince (S.view b) (S.view c)
        → AreGoodSince (S.view a) (S.view c) }
    ensures asks { (old new : S) → IsLawful (S.view new) → AreGood (S.view old)
        → LeavesOnly (S.view old) (S.view new) (AsksAllowed (S.view old))
        → AreGoodSince (S.view old) (S.view new) }
    ensures writes { (change : Change) (old new : S) → IsLawful (S.view new) → AreGood (S.view old)
        → StaysTrueIn (S.view old) change → Writes change (S.view old) (S.view new)
        → AreGoodSince (S.view old) (S.view new) }
{
    entries_are_one();
    entries_are_one_archive();
    changes_take_nothing_back();
}

/// Sessions follow one another, also after a crash: where each pair that a session left at some moment is good, so is each with
/// which the next one begins, over the file that one of these pairs has, in its world, with any events behind it in which
/// nothing was asked.
pub fn sessions_follow_one_another<S: Site>()
    ensures { (entry last next : S) (w more : World) (image : List ℕ)
        → AreGoodSince (S.view entry) (S.view last)
        → (S.view last).may_leave (S.view entry).moment w image → AsksNothing more
        → (S.view next).link.world ≡ Some (w ++ more) → ((c : List ℕ) → (S.view next).image c → c ≡ image)
        → AreGood (S.view next) }
{}
