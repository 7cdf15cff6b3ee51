//! The attempts of a broker, by run and act, as its log has them.
ghost use Rattle.std.specs.Prelude.{◌≡◌, ◌++◌, OnOk, [], length, if◌then◌else◌};
ghost use Rattle.folder_look.specs.Shown.{parts_of};
ghost use Rattle.folder_look.specs.Runs as spec;

use crate::choices::Choice;
use crate::parts::{Part, push_parts};
use crate::shown::{Shown, is_shown};
use crate::steps::push_try;
use crate::touches::Touches;
use effect_form::{Effect, Outcome};
use pseudo_time::Stamp;
use std::alloc::{AllocError, Global};
use std::collections::BTreeSet;

/// Adds the stamps of the attempts that are chosen, of so many at most.
pub fn add_tries(
    choice: &Choice,
    touches: &Touches,
    most: usize,
    effects: &[Effect],
    all: &mut BTreeSet<Stamp>,
) -> Result<(), AllocError>
    ensures { OnOk result (all.new.keys ≡ spec.with_tries choice.now touches.now most effects.now all.old.keys) }
{
    let mut left = most;
    let mut rest = effects;
    while let Some((effect, more)) = rest.split_first() {
        rest = more;
        if let Effect::Try { stamp, .. } = effect {
            if left > 0 && choice.has_try(touches, *stamp, more) {
                left -= 1;
                all.insert(*stamp)?;
            }
        }
    }
    Ok(())
}

// Appends a row for an act that is spent.
fn push_spent(alloc: Global, out: &mut Vec<u8>, outcome: &Outcome) -> Result<(), AllocError>
    ensures { OnOk result (out.new.items ≡ out.old.items ++ spec.spent_text outcome.now) }
{
    match outcome {
        Outcome::Spent { clock } => push_parts(
            alloc,
            out,
            &[
                Part::Words(b"<tr><td></td><td></td><td class=\"spent\">spent "),
                Part::Number(*clock),
                Part::Words(b"</td></tr>\n"),
            ],
        ),
        _ => Ok(()),
    }
}

// Appends a row for an attempt, if it is shown.
fn push_shown(
    alloc: Global,
    out: &mut Vec<u8>,
    shown: &Shown,
    stamp: Stamp,
    rest: &[Effect],
) -> Result<(), AllocError>
    ensures { OnOk result (out.new.items ≡ out.old.items ++ spec.try_shown (parts_of shown.now) stamp rest.now) }
{
    if is_shown(shown, stamp) {
        push_try(alloc, out, shown, stamp, rest)
    } else {
        Ok(())
    }
}

// Appends a row for each attempt that is shown, up to the next act.
fn push_tries(
    alloc: Global,
    out: &mut Vec<u8>,
    shown: &Shown,
    effects: &[Effect],
) -> Result<(), AllocError>
    ensures { OnOk result (out.new.items ≡ out.old.items ++ spec.tries_text (parts_of shown.now) effects.now) }
{
    let mut rest = effects;
    while let Some((effect, more)) = rest.split_first() {
        rest = more;
        match effect {
            Effect::Try { stamp, .. } => push_shown(alloc, out, shown, *stamp, more)?,
            Effect::End { outcome, .. } => push_spent(alloc, out, outcome)?,
            Effect::Run { .. } => return Ok(()),
            Effect::Act { .. } => return Ok(()),
            _ => {}
        }
    }
    Ok(())
}

// Whether an attempt up to the next act is shown.
fn any_try(shown: &Shown, effects: &[Effect]) -> bool
    ensures { result ≡ spec.any_try (parts_of shown.now) effects.now }
{
    let mut rest = effects;
    while let Some((effect, more)) = rest.split_first() {
        rest = more;
        match effect {
            Effect::Try { stamp, .. } => {
                if is_shown(shown, *stamp) {
                    return true;
                }
            }
            Effect::Run { .. } => return false,
            Effect::Act { .. } => return false,
            _ => {}
        }
    }
    false
}

// An act, as its broker's log has it.
#[derive(Clone, Copy)]
struct ActHead<'a> {
    index: u32,
    home: u8,
    tries: u8,
    script: &'a [u8],
}

// Appends the head of an act, its script folded away.
fn push_act_head<'a>(alloc: Global, out: &mut Vec<u8>, head: &ActHead<'a>) -> Result<(), AllocError>
    ensures { OnOk result (out.new.items ≡ out.old.items ++
        spec.act_head head.now.index head.now.home head.now.tries head.now.script.now) }
{
    push_parts(
        alloc,
        out,
        &[
            Part::Words(b"<tr class=\"act\"><th colspan=\"3\" scope=\"rowgroup\">act "),
            Part::Number(head.index as u64),
            Part::Words(b", home "),
            Part::Number(head.home as u64),
            Part::Words(b", attempts allowed "),
            Part::Number(head.tries as u64),
            Part::Words(b"<details><summary>script</summary><pre>"),
            Part::Text(head.script),
            Part::Words(b"</pre></details></th></tr>\n"),
        ],
    )
}

// Appends an act and its attempts.
fn push_act_rows<'a>(
    alloc: Global,
    out: &mut Vec<u8>,
    shown: &Shown,
    head: &ActHead<'a>,
    rest: &[Effect],
) -> Result<(), AllocError>
    ensures { OnOk result (out.new.items ≡ out.old.items ++
        (spec.act_head head.now.index head.now.home head.now.tries head.now.script.now ++
        spec.tries_text (parts_of shown.now) rest.now)) }
{
    push_act_head(alloc, out, head)?;
    push_tries(alloc, out, shown, rest)
}

// Appends an act and its attempts, unless objects are chosen and no attempt that is shown concerns them.
fn push_act<'a>(
    alloc: Global,
    out: &mut Vec<u8>,
    shown: &Shown,
    head: &ActHead<'a>,
    rest: &[Effect],
) -> Result<(), AllocError>
    ensures { OnOk result (out.new.items ≡ out.old.items ++
        spec.act_text (parts_of shown.now) head.now.index head.now.home head.now.tries head.now.script.now rest.now) }
{
    if shown.choice.has_all() || any_try(shown, rest) {
        push_act_rows(alloc, out, shown, head, rest)
    } else {
        Ok(())
    }
}

// Appends the acts, up to the next run.
fn push_acts(
    alloc: Global,
    out: &mut Vec<u8>,
    shown: &Shown,
    effects: &[Effect],
) -> Result<(), AllocError>
    ensures { OnOk result (out.new.items ≡ out.old.items ++ spec.acts_text (parts_of shown.now) effects.now) }
{
    let mut rest = effects;
    while let Some((effect, more)) = rest.split_first() {
        rest = more;
        match effect {
            Effect::Act {
                index,
                home,
                tries,
                script,
                ..
            } => {
                let head = ActHead {
                    index: *index,
                    home: *home,
                    tries: *tries,
                    script: script.as_slice(),
                };
                push_act(alloc, out, shown, &head, more)?;
            }
            Effect::Run { .. } => return Ok(()),
            _ => {}
        }
    }
    Ok(())
}

// How many attempts up to the next run are shown.
fn count_tries(shown: &Shown, effects: &[Effect]) -> u64
    ensures { result ≡ spec.tries_from (parts_of shown.now) 0 effects.now }
{
    let mut count = 0u64;
    let mut rest = effects;
    while let Some((effect, more)) = rest.split_first() {
        rest = more;
        match effect {
            Effect::Try { stamp, .. } => {
                if is_shown(shown, *stamp) {
                    count = count.saturating_add(1);
                }
            }
            Effect::Run { .. } => return count,
            _ => {}
        }
    }
    count
}

// Begins a run: a few attempts are open to the eye, more are folded away.
fn push_run_head(out: &mut Vec<u8>, shown: &Shown) -> Result<(), AllocError>
    ensures { OnOk result (out.new.items ≡ out.old.items ++ spec.run_head (parts_of shown.now)) }
{
    if shown.tries.len() <= 20 {
        out.extend_from_slice(b"<details class=\"run\" open>")
    } else {
        out.extend_from_slice(b"<details class=\"run\">")
    }
}

// Appends the number of a run, how many attempts of it are shown, and the head of their table.
fn push_summary(
    alloc: Global,
    out: &mut Vec<u8>,
    shown: &Shown,
    number: u32,
    effects: &[Effect],
) -> Result<(), AllocError>
    ensures { OnOk result (out.new.items ≡ out.old.items ++ spec.run_summary (parts_of shown.now) number effects.now) }
{
    push_parts(
        alloc,
        out,
        &[
            Part::Words(b"<summary>run "),
            Part::Number(number as u64),
            Part::Words(b", attempts "),
            Part::Number(count_tries(shown, effects)),
            Part::Words(
                b"</summary>\n<table><thead><tr><th scope=\"col\">stamp</th>\
                  <th scope=\"col\">reads and writes</th><th scope=\"col\">outcome</th></tr></thead><tbody>\n",
            ),
        ],
    )
}

// Appends a run with its attempts.
fn push_run(
    alloc: Global,
    out: &mut Vec<u8>,
    shown: &Shown,
    number: u32,
    effects: &[Effect],
) -> Result<(), AllocError>
    ensures { OnOk result (out.new.items ≡ out.old.items ++ spec.run_text (parts_of shown.now) number effects.now) }
{
    push_run_head(out, shown)?;
    push_summary(alloc, out, shown, number, effects)?;
    push_tries(alloc, out, shown, effects)?;
    push_acts(alloc, out, shown, effects)?;
    out.extend_from_slice(b"</tbody></table></details>\n")
}

// Appends a run, unless objects are chosen and no attempt that is shown concerns them.
fn push_run_shown(
    alloc: Global,
    out: &mut Vec<u8>,
    shown: &Shown,
    always: bool,
    number: u32,
    effects: &[Effect],
) -> Result<(), AllocError>
    ensures { OnOk result (out.new.items ≡ out.old.items ++
        spec.run_shown (parts_of shown.now) always number effects.now) }
{
    if always || count_tries(shown, effects) != 0 {
        push_run(alloc, out, shown, number, effects)
    } else {
        Ok(())
    }
}

// Appends the runs of a log.
fn push_runs(
    alloc: Global,
    out: &mut Vec<u8>,
    shown: &Shown,
    effects: &[Effect],
) -> Result<(), AllocError>
    ensures { OnOk result (out.new.items ≡ out.old.items ++ spec.runs_text (parts_of shown.now) effects.now) }
{
    let always = shown.choice.has_all();
    let mut rest = effects;
    while let Some((effect, more)) = rest.split_first() {
        rest = more;
        if let Effect::Run { number } = effect {
            push_run_shown(alloc, out, shown, always, *number, more)?;
        }
    }
    Ok(())
}

/// Appends what a broker's log says of its attempts.
pub fn push_log(
    alloc: Global,
    out: &mut Vec<u8>,
    shown: &Shown,
    effects: &[Effect],
) -> Result<(), AllocError>
    ensures { OnOk result (out.new.items ≡ out.old.items ++ spec.log_text (parts_of shown.now) effects.now) }
{
    push_run_shown(alloc, out, shown, false, 0, effects)?;
    push_runs(alloc, out, shown, effects)
}
