//! What is written of totals.
ghost use Rattle.std.specs.Prelude.{◌≡◌, ◌++◌, ◌∷◌, [], List, IfOk, OnOk};
ghost use Rattle.pseudo_time.specs.Lists.{Every};
ghost use Rattle.value_form.specs.ObjectBytes.{IsObject};
ghost use Rattle.effect_form.specs.declared.effects.Effect.{Effect};
ghost use Rattle.effect_form.specs.Effects.{AreEffects};
ghost use Rattle.archive_command.specs.Archives.{last_total};
ghost use Rattle.watch_command.specs.Totals as spec;

use crate::restoring::Cursors;
use commit_watch::Moved;
use effect_form::Effect;
use pseudo_time::PseudoTime;
use std::alloc::{AllocError, Global};
use value_form::Value;

// Whether the total was folded further than this.
fn went_on(cursor: Option<PseudoTime>, total: &Moved<i64>) -> bool
    ensures { result ≡ spec.went_on cursor total.now }
{
    match cursor {
        None => true,
        Some(cursor) => cursor.is_before(total.cursor),
    }
}

// Adds the put of a total, where it went on.
fn add_put(puts: &mut Vec<Effect>, cursors: &Cursors, total: &Moved<i64>) -> Result<(), AllocError>
    ensures puts { (log : List Effect) → spec.AreCursors (last_total log) cursors.now.entries →
        OnOk result (puts.new.items ≡ puts.old.items ++ spec.new_puts log (total.now ∷ [])) }
    ensures in_range { IsObject total.now.object → AreEffects puts.old.items → OnOk result (AreEffects puts.new.items) }
{
    let _in_range = total.cursor.stamp();
    let cursor = cursors.entries.get(&total.object).copied();
    if went_on(cursor, total) {
        puts.push(Effect::Put {
            object: total.object,
            start: total.cursor,
            value: Value::Number(total.total),
        })?;
    }
    Ok(())
}

/// A put for each object whose total went on, in their order.
pub fn puts_of(
    alloc: Global,
    cursors: &Cursors,
    list: &[Moved<i64>],
) -> Result<Vec<Effect>, AllocError>
    ensures puts { (log : List Effect) → spec.AreCursors (last_total log) cursors.now.entries →
        IfOk result (λ puts. puts.items ≡ spec.new_puts log list.now) }
    ensures in_range { Every (λ t. IsObject t.object) list.now → IfOk result (λ puts. AreEffects puts.items) }
{
    let mut puts = Vec::new(alloc);
    for total in list {
        add_put(&mut puts, cursors, total)?;
    }
    Ok(puts)
}
