//! Marks that are kept for contracts alone.
ghost use Rattle.std.specs.Prelude.{◌≡◌, ◌++◌, [], ◌∷◌, OnOk, IfOk, reverse};
ghost use Rattle.effect_form.specs.Effects.{IsEffect, AreEffects};
ghost use Rattle.object_header.specs.Marks.{added};
ghost use Rattle.repository_log.specs.Logs as logs;
ghost use Rattle.object_history.specs.Ranges.{AreMarks, IsMark};
ghost use Rattle.object_header.specs.Ledgers.{odd_in};
ghost use Rattle.object_header.specs.Odd as odd;
ghost use Rattle.object_header.specs.Odd.{kept_of};

use crate::maps::Heads;
use effect_form::Effect;
use object_history::Mark;
use repository_log::mark_of;
use std::alloc::{AllocError, Global};

// A copy of a mark.
fn copy_mark(alloc: Global, mark: &Mark) -> Result<Mark, AllocError>
    ensures { IfOk result (λ m. m ≡ mark.now) }
{
    match mark {
        Mark::Put(object, start, value) => {
            let value = value.copy(alloc)?;
            Ok(Mark::Put(*object, *start, value))
        }
        Mark::Stretch(object, at) => Ok(Mark::Stretch(*object, *at)),
        Mark::Settle(stamp, committed) => Ok(Mark::Settle(*stamp, *committed)),
        Mark::Floor(at) => Ok(Mark::Floor(*at)),
    }
}

// Whether a mark is an odd object's, settles an attempt, or is a floor.
fn is_kept(heads: &Heads, mark: &Mark) -> bool
    ensures { result ≡ odd.is_kept (odd_in heads.now) mark.now }
{
    match mark {
        Mark::Put(object, ..) => heads.is_odd(*object),
        Mark::Stretch(object, _) => heads.is_odd(*object),
        Mark::Settle(..) | Mark::Floor(_) => true,
    }
}

// Keeps a copy of a mark, if it is one to be kept.
fn keep_mark(
    alloc: Global,
    heads: &Heads,
    kept: &mut Vec<Mark>,
    mark: &Mark,
) -> Result<(), AllocError>
    requires { IsMark mark.now }
    ensures kept { OnOk result (reverse kept.new.items ≡ kept_of (odd_in heads.now) (mark.now ∷ []) ++
        reverse kept.old.items) }
    ensures range { AreMarks (reverse kept.old.items) → OnOk result (AreMarks (reverse kept.new.items)) }
{
    if is_kept(heads, mark) {
        let copy = copy_mark(alloc, mark)?;
        kept.push(copy)?;
    }
    Ok(())
}

/// Keeps copies of the marks of odd objects, of how stamps are decided, and of the floors.
pub fn keep_marks(
    alloc: Global,
    heads: &Heads,
    kept: &mut Vec<Mark>,
    marks: &[Mark],
) -> Result<(), AllocError>
    requires { AreMarks marks.now }
    ensures kept { OnOk result (reverse kept.new.items ≡ kept_of (odd_in heads.now) (reverse marks.now) ++
        reverse kept.old.items) }
    ensures range { AreMarks (reverse kept.old.items) → OnOk result (AreMarks (reverse kept.new.items)) }
{
    for mark in marks {
        keep_mark(alloc, heads, kept, mark)?;
    }
    Ok(())
}

// Keeps the mark of an effect, if it is one to be kept.
fn keep_effect(
    alloc: Global,
    heads: &Heads,
    kept: &mut Vec<Mark>,
    effect: &Effect,
) -> Result<(), AllocError>
    requires { IsEffect effect.now }
    ensures kept { OnOk result (reverse kept.new.items ≡ kept_of (odd_in heads.now)
        (added (logs.mark_of effect.now) []) ++ reverse kept.old.items) }
    ensures range { AreMarks (reverse kept.old.items) → OnOk result (AreMarks (reverse kept.new.items)) }
{
    match mark_of(alloc, effect)? {
        Some(mark) => keep_mark(alloc, heads, kept, &mark),
        None => Ok(()),
    }
}

/// The marks of these effects that are kept.
pub fn keep_effects(
    alloc: Global,
    heads: &Heads,
    effects: &[Effect],
) -> Result<Vec<Mark>, AllocError>
    requires { AreEffects effects.now }
    ensures kept { IfOk result (λ k. reverse k.items ≡ kept_of (odd_in heads.now) (logs.marks (reverse effects.now))) }
    ensures range { IfOk result (λ k. AreMarks (reverse k.items)) }
{
    let mut kept = Vec::new(alloc);
    for effect in effects {
        keep_effect(alloc, heads, &mut kept, effect)?;
    }
    Ok(kept)
}
