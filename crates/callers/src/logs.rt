//! A log on a medium, opened for one addition.
ghost use Rattle.std.specs.Prelude.{◌≡◌, ◌⊎◌, IsTrue, IfOk, IfErr, false};
ghost use Rattle.medium_port.specs.Image.{Image};
ghost use Rattle.effect_form.specs.Effects.{AreEffects};
ghost use Rattle.callers.specs.Additions.{HasAdded, HasAddedSome};

use effect_form::Effect;
use medium_port::Medium;
use std::alloc::Global;
use version_store::Store;

/// Adds effects to the log of a medium, and hands the medium back. Behind an Ok every crash leaves the
/// log that there was with all of them; else one leaves what it could leave before, or that log with
/// some of the first of them.
pub fn add<M: Medium>(alloc: Global, medium: M, effects: &[Effect]) -> Result<M, M>
    requires open { M.is_failed medium ≡ false }
    requires ranges { AreEffects effects.now }
    ensures added { IsTrue M.tells → IfOk result (λ m. (c : Image) → M.may_leave m c →
        HasAdded (M.reads medium) effects.now c) }
    ensures refused { IsTrue M.tells → IfErr result (λ m. (c : Image) → M.may_leave m c →
        M.may_leave medium c ⊎ HasAddedSome (M.reads medium) effects.now c) }
{
    match Store::open(alloc, medium) {
        Err((medium, _)) => Err(medium),
        Ok((store, _)) => match store.append(effects) {
            Err((medium, _)) => Err(medium),
            Ok(store) => Ok(store.release()),
        },
    }
}
