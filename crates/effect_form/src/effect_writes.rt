//! Appends the bytes of an effect.
ghost use Rattle.std.specs.Prelude.{◌≡◌, ◌++◌, ◌≤◌, ◌∷◌, [], None, length, OnOk, OnErr, IfOk};
ghost use Rattle.std.specs.Int.{w32, w64, to_be_bytes};
ghost use Rattle.pseudo_time.specs.StampParts.{stamp_bytes};
ghost use Rattle.value_form.specs.ValueBytes.{IsValue, value_bytes};
ghost use Rattle.field_form.specs.Decisions.{decision_text};
ghost use Rattle.effect_form.specs.Outcomes.{outcome_bytes};
ghost use Rattle.effect_form.specs.Effects.{IsWritten, back_bytes, learned_byte, effect_bytes};
ghost use Rattle.effect_form.specs.declared.effects.Effect.TheVariants as variant;

use crate::effects::{Effect, Place};
use crate::outcome_bytes::push_outcome;
use crate::outcomes::Outcome;
use field_form::{push_decision, push_stamp, push_time};
use pseudo_time::{Decision, PseudoTime, Stamp};
use std::alloc::{AllocError, Global};
use value_form::{ObjectId, Value, push_object_bytes};

fn push_back(out: &mut Vec<u8>, back: Option<Place>) -> Result<(), AllocError>
    ensures { OnOk result (out.new.items ≡ out.old.items ++ back_bytes back) }
{
    match back {
        None => out.extend_from_slice(&[255; 6]),
        Some(place) => {
            let [a, b, c, d] = place.page.to_be_bytes();
            let [e, f] = place.offset.to_be_bytes();
            out.extend_from_slice(&[a, b, c, d, e, f])
        }
    }
}

fn push_put(
    alloc: Global,
    out: &mut Vec<u8>,
    object: ObjectId,
    start: PseudoTime,
    value: &Value,
    back: Option<Place>,
) -> Result<(), AllocError>
    requires { IsValue value.now }
    ensures { OnOk result (out.new.items ≡ out.old.items ++ effect_bytes (variant.Put object start value.now, back)) }
{
    out.push(1)?;
    push_object_bytes(out, object)?;
    push_time(out, start)?;
    value.write(alloc, out)?;
    push_back(out, back)?;
    Ok(())
}

fn push_stretch(out: &mut Vec<u8>, object: ObjectId, at: PseudoTime) -> Result<(), AllocError>
    ensures { OnOk result (out.new.items ≡ out.old.items ++ effect_bytes (variant.Stretch object at, None)) }
{
    out.push(2)?;
    push_object_bytes(out, object)?;
    push_time(out, at)?;
    Ok(())
}

// A tag and a stamp.
fn push_stamped(out: &mut Vec<u8>, tag: u8, stamp: Stamp) -> Result<(), AllocError>
    ensures { OnOk result (out.new.items ≡ out.old.items ++ tag ∷ stamp_bytes stamp) }
{
    let [a, b, c, d, e, f, g, h] = stamp.clock().to_be_bytes();
    out.extend_from_slice(&[tag, a, b, c, d, e, f, g, h, stamp.broker(), stamp.home()])
}

fn push_begin(out: &mut Vec<u8>, stamp: Stamp, deadline: u64) -> Result<(), AllocError>
    ensures { OnOk result (out.new.items ≡ out.old.items ++ effect_bytes (variant.Begin stamp deadline, None)) }
{
    push_stamped(out, 3, stamp)?;
    out.extend_from_slice(&deadline.to_be_bytes())?;
    Ok(())
}

fn push_decide(out: &mut Vec<u8>, stamp: Stamp, decision: Decision) -> Result<(), AllocError>
    ensures { OnOk result (out.new.items ≡ out.old.items ++ effect_bytes (variant.Decide stamp decision, None)) }
{
    push_stamped(out, 4, stamp)?;
    push_decision(out, decision)?;
    Ok(())
}

fn push_learn(out: &mut Vec<u8>, stamp: Stamp, committed: bool) -> Result<(), AllocError>
    ensures { OnOk result (out.new.items ≡ out.old.items ++ effect_bytes (variant.Learn stamp committed, None)) }
{
    push_stamped(out, 5, stamp)?;
    out.push(if committed { 1 } else { 2 })?;
    Ok(())
}

// A tag and a number in four bytes.
fn push_numbered(out: &mut Vec<u8>, tag: u8, number: u32) -> Result<(), AllocError>
    ensures { OnOk result (out.new.items ≡ out.old.items ++ tag ∷ to_be_bytes w32 number) }
{
    let [a, b, c, d] = number.to_be_bytes();
    out.extend_from_slice(&[tag, a, b, c, d])
}

fn push_try(out: &mut Vec<u8>, index: u32, stamp: Stamp) -> Result<(), AllocError>
    ensures { OnOk result (out.new.items ≡ out.old.items ++ effect_bytes (variant.Try index stamp, None)) }
{
    push_numbered(out, 8, index)?;
    push_stamp(out, stamp)?;
    Ok(())
}

fn push_got(alloc: Global, out: &mut Vec<u8>, step: u32, value: &Value) -> Result<(), AllocError>
    requires { IsValue value.now }
    ensures { OnOk result (out.new.items ≡ out.old.items ++ effect_bytes (variant.Got step value.now, None)) }
{
    push_numbered(out, 9, step)?;
    value.write(alloc, out)?;
    Ok(())
}

fn push_end(out: &mut Vec<u8>, index: u32, outcome: Outcome) -> Result<(), AllocError>
    ensures { OnOk result (out.new.items ≡ out.old.items ++ effect_bytes (variant.End index outcome, None)) }
{
    push_numbered(out, 11, index)?;
    push_outcome(out, outcome)?;
    Ok(())
}

fn push_mark(out: &mut Vec<u8>, at: PseudoTime) -> Result<(), AllocError>
    ensures { OnOk result (out.new.items ≡ out.old.items ++ effect_bytes (variant.Mark at, None)) }
{
    out.push(12)?;
    push_time(out, at)?;
    Ok(())
}

/// The fields of an act before its script.
#[derive(Clone, Copy)]
struct ActHead {
    index: u32,
    home: u8,
    timeout: u32,
    tries: u8,
    clock: u64,
}

fn push_act(out: &mut Vec<u8>, head: &ActHead, script: &[u8]) -> Result<(), AllocError>
    requires { length script.now ≤ 3900 }
    ensures { OnOk result (out.new.items ≡ out.old.items ++
        effect_bytes (
          variant.Act head.now.index head.now.home head.now.timeout head.now.tries head.now.clock
              script.now,
          None,
        )) }
{
    let [a, b, c, d] = head.index.to_be_bytes();
    let [e, f, g, h] = head.timeout.to_be_bytes();
    let [i, j, k, l, m, n, o, p] = head.clock.to_be_bytes();
    let [q, r] = (script.len() as u16).to_be_bytes();
    out.extend_from_slice(&[
        7, a, b, c, d, head.home, e, f, g, h, head.tries, i, j, k, l, m, n, o, p, q, r,
    ])?;
    out.extend_from_slice(script)?;
    Ok(())
}

// Room for the bytes of an effect with a short text, so that they needn't grow.
const ROOM: usize = 64;

// The bytes of an effect.
fn bytes_of(alloc: Global, effect: &Effect, back: Option<Place>) -> Result<Vec<u8>, AllocError>
    requires { IsWritten (effect.now, back) }
    ensures { IfOk result (λ v. v.items ≡ effect_bytes (effect.now, back)) }
{
    let mut out = Vec::with_capacity(alloc, ROOM)?;
    match effect {
        Effect::Put {
            object,
            start,
            value,
        } => push_put(alloc, &mut out, *object, *start, value, back)?,
        Effect::Stretch { object, at } => push_stretch(&mut out, *object, *at)?,
        Effect::Begin { stamp, deadline } => push_begin(&mut out, *stamp, *deadline)?,
        Effect::Decide { stamp, decision } => push_decide(&mut out, *stamp, *decision)?,
        Effect::Learn { stamp, committed } => push_learn(&mut out, *stamp, *committed)?,
        Effect::Run { number } => push_numbered(&mut out, 6, *number)?,
        Effect::Act {
            index,
            home,
            timeout,
            tries,
            clock,
            script,
        } => {
            let head = ActHead {
                index: *index,
                home: *home,
                timeout: *timeout,
                tries: *tries,
                clock: *clock,
            };
            push_act(&mut out, &head, script.as_slice())?;
        }
        Effect::Try { index, stamp } => push_try(&mut out, *index, *stamp)?,
        Effect::Got { step, value } => push_got(alloc, &mut out, *step, value)?,
        Effect::Acked { step } => push_numbered(&mut out, 10, *step)?,
        Effect::End { index, outcome } => push_end(&mut out, *index, *outcome)?,
        Effect::Mark { at } => push_mark(&mut out, *at)?,
        Effect::Whole => out.push(13)?,
    }
    Ok(out)
}

/// Appends the bytes of an effect. Only a Put may have a back place. Where memory runs out, `out`
/// is as before.
pub fn write(
    alloc: Global,
    effect: &Effect,
    back: Option<Place>,
    out: &mut Vec<u8>,
) -> Result<(), AllocError>
    requires { IsWritten (effect.now, back) }
    ensures ok { OnOk result (out.new.items ≡ out.old.items ++ effect_bytes (effect.now, back)) }
    ensures err { OnErr result (out.new.items ≡ out.old.items) }
{
    let bytes = bytes_of(alloc, effect, back)?;
    out.extend_from_slice(bytes.as_slice())
}
