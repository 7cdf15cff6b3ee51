//! Whether an attempt that stops so may end so.
ghost use Rattle.std.specs.Prelude.{◌≡◌, IsTrue, ◌↔◌, false, Some};
ghost use Rattle.value_form.specs.declared.endings.Ending.TheVariants.{Finished};
ghost use Rattle.script_meaning.specs.Meaning.{Over};
ghost use Rattle.script_run.specs.RunParts.{stop_of};
ghost use Rattle.script_replay.specs.Attempts.{EndsSo};

use effect_form::Outcome;
use script_run::Next;

// Whether the script is finished.
fn is_finished(next: &Next) -> bool
    ensures { IsTrue result ↔ (stop_of next.now ≡ Over Finished) }
{
    match next {
        Next::Finished => true,
        _ => false,
    }
}

// Whether an attempt that isn't committed may end so.
fn may_end(ended: &Outcome, next: &Next) -> bool
    ensures { IsTrue result ↔ (EndsSo false (Some ended.now) (stop_of next.now)) }
{
    match (ended, next) {
        (Outcome::Committed, _) => false,
        (Outcome::Withdrawn { line: at }, Next::Withdrawn { line }) => at == line,
        (Outcome::Withdrawn { .. }, _) => false,
        (
            Outcome::Failed {
                line: at,
                kind: how,
            },
            Next::Failed { line, kind },
        ) => { at == line && how == kind }
        (Outcome::Failed { .. }, _) => false,
        _ => true,
    }
}

/// Whether an attempt that stops so may have this End, or none.
pub(crate) fn ends_so(committed: bool, ended: &Option<Outcome>, next: &Next) -> bool
    ensures { IsTrue result ↔ (EndsSo committed ended.now (stop_of next.now)) }
{
    match ended {
        None => !committed || is_finished(next),
        Some(Outcome::Committed) => committed && is_finished(next),
        Some(ended) => !committed && may_end(ended, next),
    }
}
