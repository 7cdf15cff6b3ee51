//! How a log's attempts were decided.
ghost use Rattle.std.specs.Prelude.{◌≡◌, ◌∷◌, List, IfOk, OnOk, reverse};
ghost use Rattle.effect_form.specs.declared.effects.Effect.{Effect};
ghost use Rattle.forward_copy.specs.Settled.{AreKnown};

use effect_form::Effect;
use object_history::Settles;
use repository_log::{decided_by, is_commit};
use std::alloc::{AllocError, Global};

// Settles the attempt that the effect decides. The first time counts.
fn settle(settles: &mut Settles, effect: &Effect) -> Result<(), AllocError>
    ensures { (l : List Effect) → AreKnown l settles.old → OnOk result (AreKnown (effect.now ∷ l) settles.new) }
{
    let Some(decided) = decided_by(effect) else {
        return Ok(());
    };
    if settles.get(decided.0).is_some() {
        return Ok(());
    }
    settles.put(decided.0, is_commit(decided.1))
}

/// How the log's attempts were decided. The log stands oldest first.
pub fn settles_of(alloc: Global, log: &[Effect]) -> Result<Settles, AllocError>
    ensures { IfOk result (AreKnown (reverse log.now)) }
{
    let mut settles = Settles::new(alloc);
    for effect in log {
        settle(&mut settles, effect)?;
    }
    Ok(settles)
}
