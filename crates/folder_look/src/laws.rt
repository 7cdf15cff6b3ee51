//! What the page promises: its tags are the frame's, and no version is lost or doubled.
ghost use Rattle.std.specs.Prelude.{◌≡◌, ◌≤◌, ◌+◌, ℕ, List, length, reverse, true};
ghost use Rattle.pseudo_time.specs.Lists.{Has};
ghost use Rattle.value_form.specs.declared.objects.ObjectId.{ObjectId};
ghost use Rattle.object_history.specs.declared.marks.Mark.{Mark};
ghost use Rattle.effect_form.specs.declared.effects.Effect.{Effect};
ghost use Rattle.object_history.specs.History.{Seen, version_count};
ghost use Rattle.object_history.specs.Kept.{Settled};
ghost use Rattle.repository_log.specs.Logs.{marks};
ghost use Rattle.report_writer.specs.Histories.{falling, versions};
ghost use Rattle.forward_copy.specs.Currents.{current, log_at};
ghost use Rattle.page_text.specs.Tags.{HasTagsOf};
ghost use Rattle.folder_look.specs.declared.choices.Choice.{Choice};
ghost use Rattle.folder_look.specs.declared.looks.MediumLook.{MediumLook};
ghost use Rattle.folder_look.specs.Frame.{frame_tags};
ghost use Rattle.folder_look.specs.Choices.{has_start};
ghost use Rattle.folder_look.specs.Once.{HasStart, NoneTwice};
ghost use Rattle.folder_look.specs.Page.{folder_page};
ghost use Rattle.folder_look.specs.Rows.{cut_row, object_row, rows_of};

/// A law: whatever the logs hold, each tag of the page is one of the frame's, and is closed.
pub fn page_has_the_frame()
    ensures { (name : List ℕ) (c : Choice) (media : List MediumLook) → HasTagsOf frame_tags (folder_page name c media) }
{}

/// A law: the versions of an object in a log, which a row shows in turn, are as many as the log's Puts of
/// it, and none stands twice. Those of a row that are chosen are shown or counted.
pub fn versions_stand_once()
    ensures count { (o : ObjectId) (m : List Mark) → length (falling o m) ≡ version_count o m }
    ensures once { (o : ObjectId) (m : List Mark) → NoneTwice (falling o m) }
    ensures row { (c : Choice) (homes : Settled) (most : ℕ) (o : ObjectId) (logs : List (List Effect)) →
        length (cut_row most (object_row c homes o logs)).versions +
        (cut_row most (object_row c homes o logs)).hidden ≡ length (rows_of c o logs) }
{}

/// A law: a version of the current volume or of one before it is shown, if it is chosen: there is a row
/// that starts where it does.
pub fn no_version_is_lost()
    ensures { (c : Choice) (homes : Settled) (o : ObjectId) (logs : List (List Effect)) (v : ℕ) →
        v ≤ current logs → (q : Seen) → Has q (versions o (marks (reverse (log_at logs v)))) →
        has_start c q.start ≡ true → HasStart (object_row c homes o logs).versions q.start }
{}
