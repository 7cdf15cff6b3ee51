//! What is to be written of the totals, or why nothing is.
ghost use Rattle.std.specs.Prelude.{◌≡◌, List, None, IfOk, IfErr, reverse};
ghost use Rattle.pseudo_time.specs.Lists.{Every};
ghost use Rattle.value_form.specs.ObjectBytes.{IsObject};
ghost use Rattle.effect_form.specs.declared.effects.Effect.{Effect};
ghost use Rattle.effect_form.specs.Effects.{AreEffects};
ghost use Rattle.object_history.specs.History.{floor_of};
ghost use Rattle.object_history.specs.Ranges.{AreMarks};
ghost use Rattle.archive_command.specs.Archives.{last_total};
ghost use Rattle.watch_command.specs.Lines.{watch_text as text_of};
ghost use Rattle.watch_command.specs.Totals.{AreCursors, new_puts};
ghost use Rattle.watch_command.specs.Watches as spec;

use crate::lines::{overflow_line, watch_text};
use crate::puts::puts_of;
use crate::totals::{Totals, totals_of};
use archive_command::{Outcome, refused};
use command_words::Rule;
use commit_watch::WatchFault;
use effect_form::Effect;
use object_history::Mark;
use std::alloc::Global;
use value_form::Bytes;

/// What is to be written, and the text that will tell of it.
#[derive(Drop)]
pub struct Prepared {
    pub puts: Vec<Effect>,
    pub text: Bytes,
}

// Why the totals don't go on.
fn refusal(alloc: Global, fault: &WatchFault) -> Outcome
    requires { spec.IsPlain fault.now }
    ensures { spec.RefusesFor fault.now result }
{
    match fault {
        WatchFault::Overflow { object, start } => refused(overflow_line(alloc, *object, *start)),
        WatchFault::NoMemory => Outcome::NoMemory,
        WatchFault::Retired { .. } => unreachable!(),
    }
}

// The puts and the text.
fn written(alloc: Global, repository: u8, rule: Rule, totals: &Totals) -> Result<Prepared, Outcome>
    ensures puts { (log : List Effect) → AreCursors (last_total log) totals.now.cursors.entries →
        IfOk result (λ p. p.puts.items ≡ new_puts log totals.now.list.items) }
    ensures in_range { Every (λ t. IsObject t.object) totals.now.list.items →
        IfOk result (λ p. AreEffects p.puts.items) }
    ensures text { IfOk result (λ p. p.text ≡ text_of repository rule totals.now.list.items) }
    ensures err { IfErr result (λ e. e ≡ Outcome.NoMemory) }
{
    let list = totals.list.as_slice();
    let Ok(puts) = puts_of(alloc, &totals.cursors, list) else {
        return Err(Outcome::NoMemory);
    };
    let Ok(text) = watch_text(alloc, repository, rule, list) else {
        return Err(Outcome::NoMemory);
    };
    Ok(Prepared { puts, text })
}

/// What is to be written of a repository's totals by the rule, over these marks, where the log has what they
/// were; or why nothing is.
pub fn prepare(
    alloc: Global,
    repository: u8,
    rule: Rule,
    marks: &[Mark],
    log: &[Effect],
) -> Result<Prepared, Outcome>
    requires unretired { floor_of (reverse marks.now) ≡ None }
    requires marks { AreMarks (reverse marks.now) }
    requires log { AreEffects log.now }
    ensures ready { IfOk result (λ p. spec.IsReady repository rule (reverse marks.now) log.now p.puts.items p.text) }
    ensures stops { IfErr result (spec.Stops repository rule (reverse marks.now) log.now) }
{
    match totals_of(alloc, rule, marks, log) {
        Err(fault) => Err(refusal(alloc, &fault)),
        Ok(totals) => written(alloc, repository, rule, &totals),
    }
}
