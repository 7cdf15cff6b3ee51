//! What effects add to histories.
ghost use Rattle.std.specs.Prelude.{◌≡◌, List, [], ◌∷◌, ◌++◌, IfOk, IfSome, OnOk};
ghost use Rattle.std.specs.Option.{option_to_list};
ghost use Rattle.effect_form.specs.declared.effects.Effect.{Effect};
ghost use Rattle.object_history.specs.History.{floor_of};
ghost use Rattle.object_history.specs.Ranges.{IsMark, AreMarks};
ghost use Rattle.message_form.specs.Ranges.{IsEffect, AreEffects};
ghost use Rattle.repository_log.specs.Logs as logs;
ghost use Rattle.repository_log.specs.Logs.{HasMarks};

use crate::records::is_commit;
use effect_form::Effect;
use object_history::{Mark, PlainHistories, later};
use pseudo_time::PseudoTime;
use std::alloc::{AllocError, Global};

/// What an effect adds to histories. None where it says nothing of an object or of a decision.
pub fn mark_of(alloc: Global, effect: &Effect) -> Result<Option<Mark>, AllocError>
    ensures mark { IfOk result (λ mark. mark ≡ logs.mark_of effect.now) }
    ensures in_range { IsEffect effect.now → IfOk result (λ mark. IfSome mark IsMark) }
{
    match effect {
        Effect::Put {
            object,
            start,
            value,
        } => {
            let value = value.copy(alloc)?;
            Ok(Some(Mark::Put(*object, *start, value)))
        }
        Effect::Stretch { object, at } => Ok(Some(Mark::Stretch(*object, *at))),
        Effect::Decide { stamp, decision } => Ok(Some(Mark::Settle(*stamp, is_commit(*decision)))),
        Effect::Learn { stamp, committed } => Ok(Some(Mark::Settle(*stamp, *committed))),
        Effect::Mark { at } => Ok(Some(Mark::Floor(*at))),
        _ => Ok(None),
    }
}

fn add_mark(marks: &mut Vec<Mark>, mark: Option<Mark>) -> Result<(), AllocError>
    ensures { OnOk result (marks.new.items ≡ marks.old.items ++ option_to_list mark) }
{
    if let Some(mark) = mark {
        marks.push(mark)?;
    }
    Ok(())
}

/// What effects add to histories, in their order.
pub fn marks_of(alloc: Global, effects: &[Effect]) -> Result<Vec<Mark>, AllocError>
    ensures marks { IfOk result (λ marks. marks.items ≡ logs.marks effects.now) }
    ensures in_range { AreEffects effects.now → IfOk result (λ marks. AreMarks marks.items) }
{
    let mut marks = Vec::new(alloc);
    for effect in effects {
        let mark = mark_of(alloc, effect)?;
        add_mark(&mut marks, mark)?;
    }
    Ok(marks)
}

/// Histories in memory with what a log adds to them. The log stands oldest first.
pub fn histories_of(alloc: Global, effects: &[Effect]) -> Result<PlainHistories, AllocError>
    requires { AreEffects effects.now }
    ensures { IfOk result (λ histories. HasMarks histories effects.now) }
{
    let marks = marks_of(alloc, effects)?;
    let histories = PlainHistories::of(alloc, marks.as_slice())?;
    Ok(histories)
}

/// The floor of a log, with one effect more.
pub fn floor_with(floor: Option<PseudoTime>, effect: &Effect) -> Option<PseudoTime>
    ensures { (log : List Effect) → floor ≡ floor_of (logs.marks log) →
        result ≡ floor_of (logs.marks (effect.now ∷ log)) }
{
    match effect {
        Effect::Mark { at } => Some(later(*at, &floor)),
        _ => floor,
    }
}
