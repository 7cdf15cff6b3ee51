//! What an attempt read and wrote, and how it ended, as its broker's log goes on behind its Try.
ghost use Rattle.std.specs.Prelude.{◌≡◌, ◌++◌, OnOk, option_copied};
ghost use Rattle.folder_look.specs.Shown.{parts_of};
ghost use Rattle.folder_look.specs.Steps as spec;

use crate::attempts::{push_class, push_ended};
use crate::parts::{Part, push_parts};
use crate::shown::{Shown, push_object_ref};
use crate::touches::Touch;
use effect_form::{Effect, Outcome};
use pseudo_time::Stamp;
use std::alloc::{AllocError, Global};
use value_form::Value;

// Appends the object that was read, if it is known.
fn push_owner(
    alloc: Global,
    out: &mut Vec<u8>,
    shown: &Shown,
    touch: Option<&Touch>,
) -> Result<(), AllocError>
    ensures { OnOk result (out.new.items ≡ out.old.items ++ spec.owner_text (parts_of shown.now) (option_copied touch.entry)) }
{
    match touch {
        None => Ok(()),
        Some(touch) => {
            push_object_ref(alloc, out, shown, touch.object)?;
            out.extend_from_slice(b" = ")
        }
    }
}

// Appends a read with its answer.
fn push_read(
    alloc: Global,
    out: &mut Vec<u8>,
    shown: &Shown,
    touch: Option<&Touch>,
    value: &Value,
) -> Result<(), AllocError>
    ensures { OnOk result (out.new.items ≡ out.old.items ++ spec.read_text (parts_of shown.now) (option_copied touch.entry) value.now) }
{
    out.extend_from_slice(b"<p>read ")?;
    push_owner(alloc, out, shown, touch)?;
    push_parts(alloc, out, &[Part::Printed(value), Part::Words(b"</p>\n")])
}

// Appends the value that was written, if it is known.
fn push_set(alloc: Global, out: &mut Vec<u8>, value: &Option<Value>) -> Result<(), AllocError>
    ensures { OnOk result (out.new.items ≡ out.old.items ++ spec.value_set value.now) }
{
    match value {
        None => Ok(()),
        Some(value) => push_parts(alloc, out, &[Part::Words(b" = "), Part::Printed(value)]),
    }
}

// Appends what was written, if it is known.
fn push_put(
    alloc: Global,
    out: &mut Vec<u8>,
    shown: &Shown,
    touch: Option<&Touch>,
) -> Result<(), AllocError>
    ensures { OnOk result (out.new.items ≡ out.old.items ++ spec.put_text (parts_of shown.now) (option_copied touch.entry)) }
{
    match touch {
        None => Ok(()),
        Some(touch) => {
            push_object_ref(alloc, out, shown, touch.object)?;
            push_set(alloc, out, &touch.value)
        }
    }
}

// Appends a write with its value.
fn push_write(
    alloc: Global,
    out: &mut Vec<u8>,
    shown: &Shown,
    touch: Option<&Touch>,
) -> Result<(), AllocError>
    ensures { OnOk result (out.new.items ≡ out.old.items ++ spec.write_text (parts_of shown.now) (option_copied touch.entry)) }
{
    out.extend_from_slice(b"<p>wrote ")?;
    push_put(alloc, out, shown, touch)?;
    out.extend_from_slice(b"</p>\n")
}

// Appends the steps, up to the end of the attempt.
fn push_steps(
    alloc: Global,
    out: &mut Vec<u8>,
    shown: &Shown,
    stamp: Stamp,
    rest: &[Effect],
) -> Result<(), AllocError>
    ensures { OnOk result (out.new.items ≡ out.old.items ++ spec.steps_text (parts_of shown.now) stamp rest.now) }
{
    for effect in rest {
        match effect {
            Effect::Got { step, value } => {
                push_read(alloc, out, shown, shown.touches.at(stamp, *step), value)?;
            }
            Effect::Acked { step } => {
                push_write(alloc, out, shown, shown.touches.at(stamp, *step))?;
            }
            Effect::End { .. } => return Ok(()),
            Effect::Run { .. } => return Ok(()),
            Effect::Act { .. } => return Ok(()),
            Effect::Try { .. } => return Ok(()),
            _ => {}
        }
    }
    Ok(())
}

// The outcome of an attempt. None of an act that is spent.
fn unless_spent(outcome: &Outcome) -> Option<Outcome>
    ensures { result ≡ spec.unless_spent outcome.now }
{
    match outcome {
        Outcome::Spent { .. } => None,
        _ => Some(*outcome),
    }
}

/// How the attempt ended. None if its log has no End of it.
pub fn end_of(rest: &[Effect]) -> Option<Outcome>
    ensures { result ≡ spec.end_of rest.now }
{
    for effect in rest {
        match effect {
            Effect::End { outcome, .. } => return unless_spent(outcome),
            Effect::Run { .. } => return None,
            Effect::Act { .. } => return None,
            Effect::Try { .. } => return None,
            _ => {}
        }
    }
    None
}

/// Appends the class of how an attempt ended.
pub fn push_end_class(out: &mut Vec<u8>, end: &Option<Outcome>) -> Result<(), AllocError>
    ensures { OnOk result (out.new.items ≡ out.old.items ++ spec.end_class end.now) }
{
    match end {
        None => out.extend_from_slice(b"open"),
        Some(outcome) => push_class(out, outcome),
    }
}

// Appends how an attempt ended.
fn push_end(alloc: Global, out: &mut Vec<u8>, end: &Option<Outcome>) -> Result<(), AllocError>
    ensures { OnOk result (out.new.items ≡ out.old.items ++ spec.end_text end.now) }
{
    match end {
        None => out.extend_from_slice(b"open"),
        Some(outcome) => push_ended(alloc, out, outcome),
    }
}

// Appends it as the last cell of a row.
fn push_end_cell(alloc: Global, out: &mut Vec<u8>, end: &Option<Outcome>) -> Result<(), AllocError>
    ensures { OnOk result (out.new.items ≡ out.old.items ++ spec.end_cell end.now) }
{
    out.extend_from_slice(b"<td class=\"")?;
    push_end_class(out, end)?;
    out.extend_from_slice(b"\">")?;
    push_end(alloc, out, end)?;
    out.extend_from_slice(b"</td></tr>\n")
}

// Appends how the attempt ended, as the last cell of its row.
fn push_end_of(alloc: Global, out: &mut Vec<u8>, rest: &[Effect]) -> Result<(), AllocError>
    ensures { OnOk result (out.new.items ≡ out.old.items ++ spec.end_cell (spec.end_of rest.now)) }
{
    push_end_cell(alloc, out, &end_of(rest))
}

/// Appends a row for an attempt.
pub fn push_try(
    alloc: Global,
    out: &mut Vec<u8>,
    shown: &Shown,
    stamp: Stamp,
    rest: &[Effect],
) -> Result<(), AllocError>
    ensures { OnOk result (out.new.items ≡ out.old.items ++ spec.try_text (parts_of shown.now) stamp rest.now) }
{
    push_parts(
        alloc,
        out,
        &[
            Part::Words(b"<tr id=\"t"),
            Part::Stamp(stamp),
            Part::Words(b"\"><td>"),
            Part::Stamp(stamp),
            Part::Words(b"</td><td>"),
        ],
    )?;
    push_steps(alloc, out, shown, stamp, rest)?;
    out.extend_from_slice(b"</td>")?;
    push_end_of(alloc, out, rest)
}
