//! Which attempts repositories' logs commit.
ghost use Rattle.std.specs.Prelude.{◌≡◌, ◌∷◌, List, Some, reverse, IfOk, OnOk};
ghost use Rattle.effect_form.specs.declared.effects.Effect.{Effect};
ghost use Rattle.pseudo_time.specs.StampParts.{IsStamp};
ghost use Rattle.log_replay.specs.Folders.{items_of};
ghost use Rattle.log_replay.specs.Commits as spec;
ghost use Rattle.log_replay.specs.Commits.{AreSaid, AreCommits, said_by};
ghost use Rattle.log_replay.specs.Telling.{committed_by};

use effect_form::Effect;
use object_history::Settles;
use pseudo_time::Stamp;
use repository_log::is_commit;
use std::alloc::{AllocError, Global};

// Whether it is said to be committed.
fn is_said(said: Option<bool>) -> bool
    ensures { result ≡ spec.is_said said }
{
    match said {
        Some(committed) => committed,
        None => false,
    }
}

// This is said of the attempt. What was said first counts.
fn say(said: &mut Settles, stamp: Stamp, committed: bool) -> Result<(), AllocError>
    ensures { (log : List Effect) (f : Effect) → said_by f ≡ Some (stamp, committed) → AreSaid log said.old →
        OnOk result (AreSaid (f ∷ log) said.new) }
{
    if said.get(stamp).is_none() {
        said.put(stamp, committed)?;
    }
    Ok(())
}

// One effect more.
fn add(said: &mut Settles, effect: &Effect) -> Result<(), AllocError>
    ensures { (log : List Effect) → AreSaid log said.old → OnOk result (AreSaid (effect.now ∷ log) said.new) }
{
    match effect {
        Effect::Decide { stamp, decision } => say(said, *stamp, is_commit(*decision)),
        Effect::Learn { stamp, .. } => say(said, *stamp, false),
        _ => Ok(()),
    }
}

// What a log says first of each attempt. It stands oldest first.
fn said_in(alloc: Global, log: &[Effect]) -> Result<Settles, AllocError>
    ensures { IfOk result (AreSaid (reverse log.now)) }
{
    let mut said = Settles::new(alloc);
    for effect in log {
        add(&mut said, effect)?;
    }
    Ok(said)
}

/// What the log of each repository says first of each attempt. A log stands oldest first.
pub(crate) fn commits_of(alloc: Global, logs: &[Vec<Effect>]) -> Result<Vec<Settles>, AllocError>
    ensures { IfOk result (λ said. AreCommits (items_of logs.now) said.items) }
{
    let mut all = Vec::new(alloc);
    for log in logs {
        let said = said_in(alloc, log.as_slice())?;
        all.push(said)?;
    }
    Ok(all)
}

/// Whether the log of its home commits the attempt.
pub(crate) fn is_committed(commits: &[Settles], stamp: Stamp) -> bool
    ensures committed { result ≡ committed_by commits.now stamp }
    ensures in_range { IsStamp stamp }
{
    let _in_range = stamp.clock();
    let place = usize::from(stamp.home()) - 1;
    match commits.get(place) {
        Some(said) => is_said(said.get(stamp)),
        None => false,
    }
}
