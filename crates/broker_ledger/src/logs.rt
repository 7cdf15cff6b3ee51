//! Which effects fit a broker's log.
ghost use Rattle.std.specs.Prelude.{ℕ, List, ◌≡◌, ◌≢◌, ◌≤◌, true, ◌∷◌, ◌&&◌, [], Some, None, reverse, length, slice_get, IfOk, OnOk, OnErr};
ghost use Rattle.std.specs.Option.{option_map, option_copied};
ghost use Rattle.pseudo_time.specs.StampParts.{StampParts};
ghost use Rattle.script_run.specs.RunParts.{stop_of};
ghost use Rattle.effect_form.specs.declared.effects.Effect.TheVariants as effect;
ghost use Rattle.serial_model.specs.Questions.{Tree};
ghost use Rattle.broker_ledger.specs.Counted.{counting};
ghost use Rattle.broker_ledger.specs.Tasks as tasks;
ghost use Rattle.broker_ledger.specs.Tasks.{Scripted};
ghost use Rattle.broker_ledger.specs.Tests as tests;
ghost use Rattle.broker_ledger.specs.Fits as fits;
ghost use Rattle.broker_ledger.specs.Notes as notes;
ghost use Rattle.broker_ledger.specs.Ledgers as ledgers;
ghost use Rattle.broker_ledger.specs.TakenUp as spec;

use crate::ledgers::Ledger;
use effect_form::{Effect, Outcome};
use pseudo_time::Stamp;
use script_form::print;
use script_run::Next;
use std::alloc::{AllocError, Global};
use value_form::{ActSpec, Bytes};

/// What an Act effect says, but for the script.
#[derive(Clone, Copy)]
pub struct Terms {
    pub index: u32,
    pub home: u8,
    pub timeout: u32,
    pub tries: u8,
    pub clock: u64,
}

// Whether the effect says this act.
fn is_act(
    alloc: Global,
    act: Option<&ActSpec>,
    terms: Terms,
    script: &Bytes,
) -> Result<bool, AllocError>
    ensures { IfOk result (λ r. r ≡ tests.is_task (option_map tasks.task_of (option_copied act.entry))
        (tasks.task_with terms.index terms.home terms.timeout terms.tries terms.clock script.now)) }
{
    let Some(act) = act else {
        return Ok(false);
    };
    let text = print(alloc, &act.script)?;
    let is_same_text = text == *script;
    Ok(
        act.index == terms.index
            && act.home == terms.home
            && act.timeout == terms.timeout
            && act.tries == terms.tries
            && act.clock == terms.clock
            && is_same_text,
    )
}

fn fits_try(ledger: &Ledger, index: u32, stamp: Stamp) -> bool
    ensures { result ≡ notes.fits_try_at ledger.now.number
        (notes.act_at ledger.now.acts ledger.now.notes) index stamp ledger.now.notes }
{
    let Some(act) = ledger.last_act() else {
        return false;
    };
    let notes = ledger.notes();
    index == act.index
        && stamp.broker() == ledger.number()
        && stamp.home() == act.home
        && notes.clock < stamp.clock()
        && !notes.spent
        && notes.may_follow()
}

// Whether this is the step of the open try's current request.
fn fits_step(ledger: &Ledger, step: u32) -> bool
    ensures fits { result ≡ notes.fits_step_at step (notes.open_last ledger.now.notes) }
    ensures tried { result ≡ true → ledger.now.notes.tries ≢ 0 }
{
    match ledger.notes().open() {
        Some(last) => last.answered.checked_add(1) == Some(step as usize),
        None => false,
    }
}

fn is_spent(outcome: &Outcome) -> bool
    ensures { result ≡ notes.is_spent outcome.now }
{
    matches!(outcome, Outcome::Spent { .. })
}

fn fits_end(ledger: &Ledger, index: u32, outcome: &Outcome) -> bool
    ensures { result ≡ notes.fits_at ledger.now.number ledger.now.acts ledger.now.notes
        (ledgers.kept ledger.now.notes ledger.now.answers)
        (effect.End index outcome.now) }
{
    let Some(act) = ledger.last_act() else {
        return false;
    };
    let notes = ledger.notes();
    if is_spent(outcome) {
        return index == act.index && !notes.spent && notes.may_follow();
    }
    index == act.index && notes.open().is_some()
}

fn reads(ledger: &mut Ledger) -> Result<bool, AllocError>
    requires { ledger.old.notes.tries ≢ 0 }
    ensures same { ledger.new ≡ ledger.old }
    ensures reads { IfOk result (λ r. r ≡ fits.reads_now
        (notes.stop_at ledger.old.acts ledger.old.notes (ledgers.kept ledger.old.notes ledger.old.answers))) }
{
    let next = ledger.stop()?;
    Ok(matches!(next, Next::Read(_)))
}

fn writes(ledger: &mut Ledger) -> Result<bool, AllocError>
    requires { ledger.old.notes.tries ≢ 0 }
    ensures same { ledger.new ≡ ledger.old }
    ensures writes { IfOk result (λ r. r ≡
        fits.writes_now (notes.stop_at ledger.old.acts ledger.old.notes
        (ledgers.kept ledger.old.notes ledger.old.answers))) }
{
    let next = ledger.stop()?;
    Ok(matches!(next, Next::Write(_, _)))
}

// Whether an effect fits, in this run.
fn does_fit(ledger: &mut Ledger, effect: &Effect) -> Result<bool, AllocError>
    ensures same { ledger.new ≡ ledger.old }
    ensures fits { IfOk result (λ r. r ≡ spec.fits_now ledger.old effect.now) }
{
    match effect {
        Effect::Run { number } => Ok(ledger.notes().run < *number),
        Effect::Act {
            index,
            home,
            timeout,
            tries,
            clock,
            script,
        } => {
            let terms = Terms {
                index: *index,
                home: *home,
                timeout: *timeout,
                tries: *tries,
                clock: *clock,
            };
            let notes = ledger.notes();
            let is_act = is_act(ledger.alloc(), ledger.act(notes.started), terms, script)?;
            Ok(is_act && notes.rests())
        }
        Effect::Try { index, stamp } => Ok(fits_try(ledger, *index, *stamp)),
        Effect::Got { step, .. } => {
            if !fits_step(ledger, *step) {
                return Ok(false);
            }
            let reads = reads(ledger)?;
            Ok(reads)
        }
        Effect::Acked { step } => {
            if !fits_step(ledger, *step) {
                return Ok(false);
            }
            let writes = writes(ledger)?;
            Ok(writes)
        }
        Effect::End { index, outcome } => Ok(fits_end(ledger, *index, outcome)),
        _ => Ok(false),
    }
}

// The index of an act that doesn't fit.
fn unfit_index(fits: bool, effect: &Effect) -> Option<u32>
    ensures { result ≡ spec.unfit_index fits effect.now }
{
    match effect {
        Effect::Act { index, .. } if !fits => Some(*index),
        _ => None,
    }
}

// Takes an effect of the log up. Gives whether it is of this run and counts.
fn count(ledger: &mut Ledger, effect: &Effect) -> Result<bool, AllocError>
    ensures logged { OnOk result (ledger.new ≡ spec.logged ledger.old effect.now) }
    ensures counts { IfOk result (λ c. c ≡ spec.counts_at ledger.old effect.now) }
{
    if !ledger.is_here() {
        ledger.pass(effect);
        return Ok(false);
    }
    let fits = does_fit(ledger, effect)?;
    if fits {
        ledger.note(effect)?;
    }
    Ok(fits)
}

// Takes an effect of the log up. Gives the index of an act of this run that doesn't fit.
fn take_up(ledger: &mut Ledger, effect: &Effect) -> Result<Option<u32>, AllocError>
    ensures logged { OnOk result (ledger.new ≡ spec.logged ledger.old effect.now) }
    ensures unfit { IfOk result (λ i. i ≡ spec.unfit_at ledger.old effect.now) }
{
    let is_here = ledger.is_here();
    let fits = count(ledger, effect)?;
    if !is_here {
        return Ok(None);
    }
    Ok(unfit_index(fits, effect))
}

/// Takes a log up. Gives the index of the first act of this run that doesn't fit.
pub fn take_up_all(ledger: &mut Ledger, effects: &[Effect]) -> Result<Option<u32>, AllocError>
    ensures led { OnOk result (ledger.new ≡ spec.led ledger.old (reverse effects.now)) }
    ensures other { IfOk result (λ i. i ≡ spec.other_at ledger.old (reverse effects.now)) }
{
    let mut first = None;
    for effect in effects {
        let unfit = take_up(ledger, effect)?;
        first = first.or(unfit);
    }
    Ok(first)
}

/// Which effects of a broker's log are of this run and count in it, one answer for each effect, the
/// first one first. `acts` are those that the plan gives the broker, and its number is 1 to 16.
pub fn counted_effects(
    alloc: Global,
    number: u8,
    run: u32,
    acts: Vec<ActSpec>,
    effects: &[Effect],
) -> Result<Vec<bool>, AllocError>
    requires low { 1 ≤ number }
    requires high { number ≤ 16 }
    requires acts { ledgers.AreBrokerActs acts.items }
    ensures { (script : List ℕ → Tree) → Scripted script acts.items →
        IfOk result (λ flags. reverse flags.items ≡ counting script number run (tasks.tasks acts.items)
        (reverse effects.now)) }
{
    let mut ledger = Ledger::new(alloc, number, run, acts);
    let mut flags = Vec::with_capacity(alloc, effects.len())?;
    for effect in effects {
        let counts = count(&mut ledger, effect)?;
        flags.push(counts)?;
    }
    Ok(flags)
}
