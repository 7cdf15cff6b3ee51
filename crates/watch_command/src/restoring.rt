//! A watch is given the totals that a log has.
ghost use Rattle.std.specs.Prelude.{◌≡◌, ◌∷◌, [], List, OnOk, IfOk};
ghost use Rattle.effect_form.specs.declared.effects.Effect.{Effect};
ghost use Rattle.commit_watch.specs.Lists.{moved_at};
ghost use Rattle.archive_command.specs.Archives as archives;
ghost use Rattle.watch_command.specs.Totals.{AreCursors, AreRestored};

use commit_watch::{Callback, Moved, WatchRule, Watches};
use effect_form::Effect;
use pseudo_time::PseudoTime;
use std::alloc::{AllocError, Global};
use std::collections::BTreeMap;
use value_form::{ObjectId, Value};

/// How far each object was folded.
#[derive(Drop)]
pub struct Cursors {
    pub entries: BTreeMap<ObjectId, PseudoTime>,
}

// The total that an effect puts.
fn total_put(effect: &Effect) -> Option<Moved<i64>>
    ensures { result ≡ archives.total_put effect.now }
{
    match effect {
        Effect::Put {
            object,
            start,
            value: Value::Number(total),
        } => Some(Moved {
            object: *object,
            cursor: *start,
            total: *total,
        }),
        _ => None,
    }
}

// Restores the total that the effect puts, unless a later one was restored.
fn restore_put<R: WatchRule<Total = i64>, F: Callback<R> + Drop>(
    watches: &mut Watches<R, F>,
    cursors: &mut Cursors,
    effect: &Effect,
) -> Result<(), AllocError>
    requires cursors { AreCursors (λ o. moved_at o watches.old) cursors.old.entries }
    ensures cursors { OnOk result (AreCursors (λ o. moved_at o watches.new) cursors.new.entries) }
    ensures restored { (log : List Effect) → AreRestored log watches.old →
        OnOk result (AreRestored (effect.now ∷ log) watches.new) }
{
    let Some(total) = total_put(effect) else {
        return Ok(());
    };
    if cursors.entries.contains_key(&total.object) {
        return Ok(());
    }
    watches.restore(total.object, total.cursor, total.total)?;
    cursors.entries.insert(total.object, total.cursor)?;
    Ok(())
}

/// Restores the totals that the log has, the last one of each object, and answers how far each was folded.
pub fn restore_all<R: WatchRule<Total = i64>, F: Callback<R> + Drop>(
    alloc: Global,
    watches: &mut Watches<R, F>,
    log: &[Effect],
) -> Result<Cursors, AllocError>
    requires none { watches.old ≡ [] }
    ensures cursors { IfOk result (λ c. AreCursors (λ o. moved_at o watches.new) c.entries) }
    ensures restored { OnOk result (AreRestored log.now watches.new) }
{
    let mut cursors = Cursors {
        entries: BTreeMap::new(alloc),
    };
    let mut at = log.len();
    while at > 0 {
        at -= 1;
        restore_put(watches, &mut cursors, &log[at])?;
    }
    Ok(cursors)
}
