//! What `asof`, `audit`, `snapshot` and `watch` promise over whatever past.
ghost use Rattle.std.specs.Prelude.{◌≤◌, ◌∷◌, ◌++◌, [], ℕ, List, length, Option};
ghost use Rattle.pseudo_time.specs.TimeParts.{TimeParts};
ghost use Rattle.effect_form.specs.declared.effects.Effect.{Effect};
ghost use Rattle.snapshot_command.specs.Outcome.{Outcome};
ghost use Rattle.snapshot_command.specs.Question.{Question};
ghost use Rattle.snapshot_command.specs.Answers.{Gives};
ghost use Rattle.snapshot_command.specs.Archives.{archive_of, volumes_of};
ghost use Rattle.command_words.specs.declared.rules.Rule.{Rule};
ghost use Rattle.archive_promise.specs.Answered.{IsLawful, IsOfStamp};
ghost use Rattle.archive_promise.specs.Retired.{IsCarried, MayGoOn};
ghost use Rattle.snapshot_command.specs.Repositories.{all_joined};
ghost use Rattle.snapshot_command.specs.Snapshots.{Gives as GivesMaps};
ghost use Rattle.archive_promise.specs.Snapped.{IsLawfulSnapshot};
ghost use Rattle.archive_promise.specs.Watched.{CountsOver};

/// Over whatever past: what `asof` tells is the plain map, and what `audit` tells are all versions that ever
/// stood.
pub fn law_of_questions()
    ensures { (q : Question) (logs : List (List Effect)) (r : Outcome) → IsOfStamp q →
        Gives (archive_of logs) (volumes_of logs) q r → IsLawful q logs r }
{}

/// What `snapshot` tells is the one plain map of all repositories, each cut to its objects: that of all committed
/// attempts below the mark, also where a repository doesn't know how one was decided.
pub fn law_of_snapshots()
    ensures { (clock : Option ℕ) (logs : List (List (List Effect))) (r : Outcome) → 1 ≤ length logs →
        GivesMaps clock (all_joined logs) r → IsLawfulSnapshot clock logs r }
{}

/// A retirement that is whole is one more call of the past; one that was cut off leaves the past as it was.
pub fn law_of_retirements()
    ensures { (r : ℕ) (at : TimeParts) (front : List (List Effect)) (log : List Effect) → IsCarried at front log →
        MayGoOn r at (front ++ [] ∷ []) (front ++ log ∷ []) }
{}

/// And what `watch` tells are totals of all committed versions; so they are too that it leaves, also where it
/// is stopped.
pub fn law_of_watches()
    ensures { (rule : Rule) (r : ℕ) (logs : List (List Effect)) → CountsOver rule r logs }
{}
