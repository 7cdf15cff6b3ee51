//! The turns that a broker owes: the next try, and the next act.
ghost use Rattle.std.specs.Prelude.{◌≡◌, ◌≢◌, ◌≤◌, ◌∷◌, ◌==◌, Some, None, reverse, length, slice_get, IfOk, OnOk, OnErr};
ghost use Rattle.std.specs.Option.{option_map, option_copied};
ghost use Rattle.broker_ledger.specs.Notes as notes;
ghost use Rattle.broker_ledger.specs.Ledgers as ledgers;
ghost use Rattle.broker_core.specs.Phases as spec;
ghost use Rattle.broker_core.specs.Settling as settling;

use crate::phases::{Phase, phase_now};
use broker_ledger::{ActSpec, Effect, Heard, Ledger, Outcome, Stamp, next_clock, print};
use std::alloc::{AllocError, Global};

// The effect that begins an act, if there is one.
fn start(alloc: Global, act: Option<&ActSpec>) -> Result<Option<Effect>, AllocError>
    ensures { IfOk result (λ e. e ≡ spec.start_at (option_copied act.entry)) }
{
    let Some(act) = act else {
        return Ok(None);
    };
    let script = print(alloc, &act.script)?;
    Ok(Some(Effect::Act {
        index: act.index,
        home: act.home,
        timeout: act.timeout,
        tries: act.tries,
        clock: act.clock,
        script,
    }))
}

// A further try of the last act, or that it is spent.
fn try_or_spent(ledger: &Ledger) -> Effect
    requires { ledger.now.notes.started ≢ 0 }
    ensures { result ≡ spec.try_or_spent_at ledger.now.number
        (notes.act_at ledger.now.acts ledger.now.notes) ledger.now.notes }
{
    let notes = ledger.notes();
    let Some(act) = ledger.last_act() else {
        unreachable!()
    };
    let index = act.index;
    let shown = notes.shown.max(act.clock.saturating_sub(1));
    match next_clock(notes.clock, shown) {
        Some(clock) => {
            let Some(stamp) = Stamp::new(clock, ledger.number(), act.home) else {
                unreachable!()
            };
            Effect::Try { index, stamp }
        }
        None => Effect::End {
            index,
            outcome: Outcome::Spent {
                clock: notes.clock.max(shown),
            },
        },
    }
}

// What the last act owes, where it isn't spent.
fn after_tries(ledger: &Ledger, heard: &Heard) -> Result<Option<Effect>, AllocError>
    requires { ledger.now.notes.started ≢ 0 }
    ensures { IfOk result (λ e. e ≡ spec.after_tries_at ledger.now.number ledger.now.acts heard.now ledger.now.notes) }
{
    let notes = ledger.notes();
    if notes.tries != 0 && !notes.is_closed(heard) {
        return Ok(None);
    }
    let most = ledger.last_tries();
    if notes.another(most) {
        return Ok(Some(try_or_spent(ledger)));
    }
    let effect = start(ledger.alloc(), ledger.act(notes.started))?;
    Ok(effect)
}

// A further try, or the next act.
fn due(ledger: &Ledger, heard: &Heard) -> Result<Option<Effect>, AllocError>
    ensures { IfOk result (λ e. e ≡ spec.due_at ledger.now.number ledger.now.acts heard.now ledger.now.notes) }
{
    let notes = ledger.notes();
    if notes.started == 0 || notes.spent {
        let effect = start(ledger.alloc(), ledger.act(notes.started))?;
        return Ok(effect);
    }
    let effect = after_tries(ledger, heard)?;
    Ok(effect)
}

// The next effect that is owed at this stage.
fn owed(ledger: &Ledger, heard: &Heard, phase: &Phase) -> Result<Option<Effect>, AllocError>
    ensures { IfOk result (λ e. e ≡ spec.owed_at ledger.now.number ledger.now.acts ledger.now.run ledger.now.notes
        heard.now phase.now) }
{
    if ledger.notes().run < ledger.run() {
        return Ok(Some(Effect::Run {
            number: ledger.run(),
        }));
    }
    match phase {
        Phase::Stopping(outcome) => Ok(Some(Effect::End {
            index: ledger.last_index(),
            outcome: *outcome,
        })),
        _ => {
            let effect = due(ledger, heard)?;
            Ok(effect)
        }
    }
}

/// Adds the effects that are owed, one after another, and gives the stage that this leads to.
pub fn settle(
    ledger: &mut Ledger,
    heard: &Heard,
    effects: &mut Vec<Effect>,
) -> Result<Phase, AllocError>
    ensures settled { OnOk result (settling.settled ledger.old.number ledger.old.run ledger.old.acts
        ledger.old.answers heard.now
        (settling.most_steps ledger.old.acts) (reverse effects.old.items) ledger.old.notes ≡
        (reverse effects.new.items, ledger.new.notes)) }
    ensures phase { IfOk result (λ p. p ≡
        spec.phase_at ledger.new.acts ledger.new.run ledger.new.notes
        (ledgers.kept ledger.new.notes ledger.new.answers) heard.now) }
    ensures answers { ledger.new.answers ≡ ledger.old.answers }
    ensures number { ledger.new.number ≡ ledger.old.number }
    ensures run { ledger.new.run ≡ ledger.old.run }
    ensures acts { ledger.new.acts ≡ ledger.old.acts }
{
    let most = 3 * ledger.act_count() + 3;
    for step in 0..most {
        let phase = phase_now(ledger, heard)?;
        let Some(effect) = owed(ledger, heard, &phase)? else {
            return Ok(phase);
        };
        ledger.change(&effect);
        effects.push(effect)?;
    }
    let phase = phase_now(ledger, heard)?;
    Ok(phase)
}
