//! A watch's totals are those of its rule over all stable versions.
ghost use Rattle.std.specs.Prelude.{◌≡◌, ◌∷◌, List, Option, None, Ok};
ghost use Rattle.value_form.specs.declared.objects.ObjectId.{ObjectId};
ghost use Rattle.object_history.specs.declared.marks.Mark.{Mark};
ghost use Rattle.object_history.specs.Settled.{Adds};
ghost use Rattle.object_history.specs.Views.{Distinct};
ghost use Rattle.commit_watch.specs.declared.moved.Moved.{Moved};
ghost use Rattle.commit_watch.specs.Folds.{advanced};
ghost use Rattle.commit_watch.specs.Totals.{IsTotal};

use crate::callbacks::WatchRule;

/// A watch that advances keeps each total that of the rule over all of the object's stable versions up to its cursor.
pub fn advance_keeps_totals<R: WatchRule>()
    ensures { (m : List Mark) (o : ObjectId) (w u : Option (Moved R.Total)) → IsTotal R.first R.next m o w →
        advanced R.first R.next o m None w ≡ Ok u → IsTotal R.first R.next m o u }
{}

/// A total stays that of the rule over all of the object's stable versions up to its cursor, whatever
/// mark a call on histories adds: what becomes stable lies above the cursor.
pub fn marks_keep_totals<R: WatchRule>()
    ensures { (m : List Mark) (f : Mark) (o : ObjectId) (w : Option (Moved R.Total)) → Adds m f → Distinct (f ∷ m) →
        IsTotal R.first R.next m o w → IsTotal R.first R.next (f ∷ m) o w }
{}
