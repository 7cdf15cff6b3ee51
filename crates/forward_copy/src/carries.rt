//! Writes what is carried forward into a fresh volume.
ghost use Rattle.std.specs.Prelude.{◌≡◌, ◌≢◌, [], ◌+◌, ◌<◌, ◌≤◌, ℕ, IsTrue, false, Ok, IfOk, IfErr, length};
ghost use Rattle.stream_port.specs.Causes.{Rose};
ghost use Rattle.medium_port.specs.Image.{Image};
ghost use Rattle.medium_port.specs.Moment.{LeavesOnly};
ghost use Rattle.effect_form.specs.Effects.{AreEffects};
ghost use Rattle.version_store.specs.Storage.{storage};
ghost use Rattle.version_store.specs.Filling.{filling};
ghost use Rattle.version_store.specs.Faults.{fails_adding};
ghost use Rattle.version_store.specs.StoreWords.{medium_of, left_in, effects_in, handed};
ghost use Rattle.forward_copy.specs.Carried.{LeavesFront};
ghost use Rattle.forward_copy.specs.Sifted.{between};
ghost use Rattle.forward_copy.specs.Wholes.{has_whole};

use crate::copies::Forward;
use effect_form::Effect;
use medium_port::Medium;
use pseudo_time::PseudoTime;
use std::alloc::{AllocError, Global};
use version_store::{Store, StoreFault};

// The mark, copies of what is kept, and a Whole.
fn carried(alloc: Global, mark: PseudoTime, kept: &[Effect]) -> Result<Vec<Effect>, AllocError>
    ensures { IfOk result (λ all. all.items ≡ between mark kept.now) }
{
    let mut all = Vec::new(alloc);
    all.push(Effect::Mark { at: mark })?;
    for effect in kept {
        let copy = effect.copy(alloc)?;
        all.push(copy)?;
    }
    all.push(Effect::Whole)?;
    Ok(all)
}

/// Carries what is kept forward into a fresh volume: one append of the mark, what is kept and a Whole.
/// A refusal hands the medium back.
///
/// A crash at any moment leaves a prefix of these effects, and only the last of the call's pages has the
/// Whole. `Full` comes exactly where they need more pages than are blank; it and `NoMemory` come before
/// anything is written.
pub fn carry<M: Medium>(
    alloc: Global,
    fresh: Store<M>,
    mark: PseudoTime,
    forward: &Forward,
) -> Result<Store<M>, (M, StoreFault)>
    requires open { M.is_failed (medium_of fresh) ≡ false }
    requires empty { IsTrue M.tells → effects_in M.reads fresh ≡ [] }
    requires ranges { AreEffects forward.now.kept.items }
    requires no_whole { has_whole forward.now.kept.items ≡ false }

    // After Ok each image has them all.
    ensures carried { IsTrue M.tells → IfOk result (λ s. (c : Image) → M.may_leave (medium_of s) c →
        storage c ≡ Ok (between mark forward.now.kept.items)) }

    // Each image that is left, at every moment, has a prefix of them.
    ensures images { IsTrue M.tells → (c : Image) → M.may_leave (handed result) c →
        LeavesFront (between mark forward.now.kept.items) c }
    ensures any_moment { IsTrue M.tells →
        LeavesOnly M.stages (medium_of fresh) (handed result) (LeavesFront (between mark forward.now.kept.items)) }

    // Any fault but Medium comes before all writing, and Full exactly where pages are missing.
    ensures nothing { IfErr result (λ e. e.1 ≢ StoreFault.Medium → e.0 ≡ medium_of fresh) }
    ensures full { IfErr result (λ e. (pages : ℕ) → e.1 ≡ StoreFault.Full pages →
        (pages ≡ M.page_count (medium_of fresh)) ×
        (left_in fresh < length (filling (between mark forward.now.kept.items)))) }
    ensures fits { IfOk result (λ s. left_in s + length (filling (between mark forward.now.kept.items)) ≡
        left_in fresh) }

    ensures last { M.last_page (handed result) ≡ M.last_page (medium_of fresh) }
    ensures size { M.page_count (handed result) ≡ M.page_count (medium_of fresh) }
    ensures state { M.is_failed (handed result) ≡ fails_adding result }
    ensures later { M.faults (medium_of fresh) ≤ M.faults (handed result) }
    ensures failed { IfErr result (λ e. e.1 ≡ StoreFault.Medium → Rose (M.faults (medium_of fresh)) (M.faults e.0)) }
{
    match carried(alloc, mark, forward.kept.as_slice()) {
        Err(_) => Err((fresh.release(), StoreFault::NoMemory)),
        Ok(effects) => fresh.append(effects.as_slice()),
    }
}
