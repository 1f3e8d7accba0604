//! How many requests a table takes.
ghost use Rattle.std.specs.Prelude.{◌≡◌, ℕ, suc, ◌<◌, ◌≤◌, []};
ghost use Rattle.pb_base.specs.declared.layout.Layout.{Layout};
ghost use Rattle.pb_base.specs.History.{History};
ghost use Rattle.pb_bmp5.specs.TrueReply.{Stage};
ghost use Rattle.pb_archive.specs.Archive.{front};
ghost use Rattle.pb_truth.specs.Learning.{Known, learned};
ghost use Rattle.pb_truth.specs.Bound.{bound, AnswersOf, Ends, FullAnswer, GoesThrough, IsNotBefore};

/// While each request of a table is answered fully, the table ends within the bound, and its front is then the number of
/// records that were stored at the stage of the last answer. A record that is overwritten between its parts costs no more
/// than one that isn't. The stage at the beginning is at or before that of the first answer.
pub fn full_answers_end_within_the_bound()
    ensures { (layout : Layout) (h : History) (from : Stage) (k : Known) (asked : ℕ) (end : Stage)
        (last : Known)
        → AnswersOf layout h from k asked end last → k.partial ≡ [] → front k.table ≤ from.next
        → (asked ≤ bound layout (front k.table) from.oldest end.next)
        × (front last.table ≡ end.next) × (last.partial ≡ []) }
{}

/// While each request of a table is answered fully and the table goes on, fewer requests were made than the bound; and
/// where the next answer ends the table, no more than the bound, and its front is the number of records that were stored at
/// that answer's stage. So a budget of the bound is enough.
pub fn full_answers_go_on_within_the_bound()
    ensures goes { (layout : Layout) (h : History) (from : Stage) (k : Known) (asked : ℕ)
        (stage : Stage) (now : Known)
        → GoesThrough layout h from k asked stage now → k.partial ≡ [] → front k.table ≤ from.next
        → asked < bound layout (front k.table) from.oldest stage.next }
    ensures ends { (layout : Layout) (h : History) (from : Stage) (k : Known) (asked : ℕ)
        (stage : Stage) (now : Known)
        → GoesThrough layout h from k asked stage now → k.partial ≡ [] → front k.table ≤ from.next
        → (a : FullAnswer layout h now) → IsNotBefore stage a.answer.stage → Ends layout now a.reply
        → (suc asked ≤ bound layout (front k.table) from.oldest a.answer.stage.next)
        × (front (learned layout now a.reply.fragments).table ≡ a.answer.stage.next) }
{}
