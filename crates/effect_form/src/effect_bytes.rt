//! Reads an effect from bytes.
ghost use Rattle.std.specs.Prelude.{◌≡◌, ◌++◌, ◌≤◌, ◌∷◌, [], Option, Some, None, Ok, List, ℕ, length, take, OnOk, OnErr, IfOk};
ghost use Rattle.std.specs.Option.{option_map};
ghost use Rattle.std.specs.Int.{w16, w64, to_be_bytes};
ghost use Rattle.field_form.specs.Decisions.{decision_at};
ghost use Rattle.field_form.specs.Numbers.{number_at};
ghost use Rattle.field_form.specs.Times.{stamp_at, time_at};
ghost use Rattle.value_form.specs.ObjectBytes.{object_bytes_at};
ghost use Rattle.value_form.specs.ValueBytes.{value_at, found, field};
ghost use Rattle.effect_form.specs.Outcomes.{clock_at, outcome_at};
ghost use Rattle.effect_form.specs.Sequences.{whole_one, whole_two};
ghost use Rattle.effect_form.specs.Effects.{Written, IsWritten, back_bytes, back_from, back_at, index_at, positive_at, learned_byte, learned_at, home_at, timeout_at, tries_at, length_at, effect_bytes, put_at, act_at, effect_of_tag, effect_at};
ghost use Rattle.effect_form.specs.EffectReads.{Gives, GivesCount};
ghost use Rattle.effect_form.specs.declared.effects.Effect.TheVariants as variant;
ghost use Rattle.effect_form.specs.declared.effects.Effect.{Effect};
ghost use Rattle.effect_form.specs.declared.effects.Place.{Place};

use crate::effects::{Effect, Place};
use crate::faults::EffectFault;
use crate::outcome_bytes::outcome_of;
use field_form::{
    byte_in, byte_of, decision_of, front_of, stamp_of, time_of, u16_in, u16_of, u32_in, u32_of,
    u64_in, u64_of,
};
use std::alloc::Global;
use value_form::{Bytes, Value, ValueFault, object_bytes_of};

/// An effect, and the back place that a Put may have.
type Found<'a> = ((Effect, Option<Place>), &'a [u8]);

// The back place with these parts.
fn back_with(page: u32, offset: u16) -> Option<Option<Place>>
    ensures { result ≡ back_from page offset }
{
    if page == u32::MAX && offset == u16::MAX {
        return Some(None);
    }
    if page < 1_048_576 && offset >= 4 && offset <= 4_095 {
        return Some(Some(Place { page, offset }));
    }
    None
}

fn back_field(bytes: &[u8]) -> Option<(Option<Place>, &[u8])>
    ensures { option_map (λ p. (p.0, p.1.now)) result ≡ back_at bytes.now }
{
    let Some((page, rest)) = u32_of(bytes) else {
        return None;
    };
    let Some((offset, rest)) = u16_of(rest) else {
        return None;
    };
    let Some(back) = back_with(page, offset) else {
        return None;
    };
    Some((back, rest))
}

fn index_field(bytes: &[u8]) -> Option<(u32, &[u8])>
    ensures { option_map (λ p. (p.0, p.1.now)) result ≡ index_at bytes.now }
{
    u32_in(1, 10_000, bytes)
}

fn positive_field(bytes: &[u8]) -> Option<(u32, &[u8])>
    ensures { option_map (λ p. (p.0, p.1.now)) result ≡ positive_at bytes.now }
{
    u32_in(1, u32::MAX, bytes)
}

fn learned_field(bytes: &[u8]) -> Option<(bool, &[u8])>
    ensures { option_map (λ p. (p.0, p.1.now)) result ≡ learned_at bytes.now }
{
    let Some((answer, rest)) = byte_in(1, 2, bytes) else {
        return None;
    };
    Some((answer == 1, rest))
}

// A value, as the one field that begins at this place.
fn value_field(alloc: Global, at: usize, bytes: &[u8]) -> Result<(Value, &[u8]), EffectFault>
    ensures { Gives (λ p. (p.0, p.1.now)) result (field at (found (value_at bytes.now))) }
{
    match Value::read(alloc, bytes) {
        Ok((value, count)) => Ok((value, &bytes[count..])),
        Err(ValueFault::Form(_)) => Err(EffectFault::Form { at }),
        Err(ValueFault::NoMemory) => Err(EffectFault::NoMemory),
    }
}

#[tactic(auto, unfolding(crate::specs::Effects::put_at))]
fn put_of(alloc: Global, bytes: &[u8]) -> Result<Found<'_>, EffectFault>
    ensures { Gives (λ p. (p.0, p.1.now)) result (put_at bytes.now) }
{
    let Some((object, rest)) = object_bytes_of(bytes) else {
        return Err(EffectFault::Form { at: 1 });
    };
    let Some((start, rest)) = time_of(rest) else {
        return Err(EffectFault::Form { at: 6 });
    };
    let (value, after) = value_field(alloc, 20, rest)?;
    let Some((back, last)) = back_field(after) else {
        let size = rest.len().saturating_sub(after.len());
        return Err(EffectFault::Form {
            at: size.saturating_add(20),
        });
    };
    let put = Effect::Put {
        object,
        start,
        value,
    };
    Ok(((put, back), last))
}

#[tactic(auto, unfolding(crate::specs::Effects::act_at))]
fn act_of(alloc: Global, bytes: &[u8]) -> Result<Found<'_>, EffectFault>
    ensures { Gives (λ p. (p.0, p.1.now)) result (act_at bytes.now) }
{
    let Some((index, rest)) = index_field(bytes) else {
        return Err(EffectFault::Form { at: 1 });
    };
    let Some((home, rest)) = byte_in(1, 16, rest) else {
        return Err(EffectFault::Form { at: 5 });
    };
    let Some((timeout, rest)) = u32_in(1, 1_000_000, rest) else {
        return Err(EffectFault::Form { at: 6 });
    };
    let Some((tries, rest)) = byte_in(1, 100, rest) else {
        return Err(EffectFault::Form { at: 10 });
    };
    let Some((clock, rest)) = u64_in(1, 1_099_511_627_775, rest) else {
        return Err(EffectFault::Form { at: 11 });
    };
    let Some((length, rest)) = u16_in(0, 3_900, rest) else {
        return Err(EffectFault::Form { at: 19 });
    };
    let Some((script, rest)) = front_of(length as usize, rest) else {
        return Err(EffectFault::Form { at: 21 });
    };
    let script = Bytes::of(script.to_vec(alloc)?);
    let act = Effect::Act {
        index,
        home,
        timeout,
        tries,
        clock,
        script,
    };
    Ok(((act, None), rest))
}

fn stretch_of(bytes: &[u8]) -> Result<Found<'_>, EffectFault>
    ensures { Gives (λ p. (p.0, p.1.now)) result
        (whole_two 1 6 (λ object at. (variant.Stretch object at, None)) object_bytes_at time_at bytes.now) }
{
    let Some((object, rest)) = object_bytes_of(bytes) else {
        return Err(EffectFault::Form { at: 1 });
    };
    let Some((at, rest)) = time_of(rest) else {
        return Err(EffectFault::Form { at: 6 });
    };
    Ok(((Effect::Stretch { object, at }, None), rest))
}

fn begin_of(bytes: &[u8]) -> Result<Found<'_>, EffectFault>
    ensures { Gives (λ p. (p.0, p.1.now)) result
        (whole_two 1 11 (λ stamp deadline. (variant.Begin stamp deadline, None)) stamp_at (number_at w64) bytes.now) }
{
    let Some((stamp, rest)) = stamp_of(bytes) else {
        return Err(EffectFault::Form { at: 1 });
    };
    let Some((deadline, rest)) = u64_of(rest) else {
        return Err(EffectFault::Form { at: 11 });
    };
    Ok(((Effect::Begin { stamp, deadline }, None), rest))
}

fn decide_of(bytes: &[u8]) -> Result<Found<'_>, EffectFault>
    ensures { Gives (λ p. (p.0, p.1.now)) result
        (whole_two 1 11 (λ stamp decision. (variant.Decide stamp decision, None)) stamp_at decision_at bytes.now) }
{
    let Some((stamp, rest)) = stamp_of(bytes) else {
        return Err(EffectFault::Form { at: 1 });
    };
    let Some((decision, rest)) = decision_of(rest) else {
        return Err(EffectFault::Form { at: 11 });
    };
    Ok(((Effect::Decide { stamp, decision }, None), rest))
}

fn learn_of(bytes: &[u8]) -> Result<Found<'_>, EffectFault>
    ensures { Gives (λ p. (p.0, p.1.now)) result
        (whole_two 1 11 (λ stamp committed. (variant.Learn stamp committed, None)) stamp_at learned_at bytes.now) }
{
    let Some((stamp, rest)) = stamp_of(bytes) else {
        return Err(EffectFault::Form { at: 1 });
    };
    let Some((committed, rest)) = learned_field(rest) else {
        return Err(EffectFault::Form { at: 11 });
    };
    Ok(((Effect::Learn { stamp, committed }, None), rest))
}

fn try_of(bytes: &[u8]) -> Result<Found<'_>, EffectFault>
    ensures { Gives (λ p. (p.0, p.1.now)) result
        (whole_two 1 5 (λ index stamp. (variant.Try index stamp, None)) index_at stamp_at bytes.now) }
{
    let Some((index, rest)) = index_field(bytes) else {
        return Err(EffectFault::Form { at: 1 });
    };
    let Some((stamp, rest)) = stamp_of(rest) else {
        return Err(EffectFault::Form { at: 5 });
    };
    Ok(((Effect::Try { index, stamp }, None), rest))
}

fn end_of(bytes: &[u8]) -> Result<Found<'_>, EffectFault>
    ensures { Gives (λ p. (p.0, p.1.now)) result
        (whole_two 1 5 (λ index outcome. (variant.End index outcome, None)) index_at outcome_at bytes.now) }
{
    let Some((index, rest)) = index_field(bytes) else {
        return Err(EffectFault::Form { at: 1 });
    };
    let Some((outcome, rest)) = outcome_of(rest) else {
        return Err(EffectFault::Form { at: 5 });
    };
    Ok(((Effect::End { index, outcome }, None), rest))
}

fn got_of(alloc: Global, bytes: &[u8]) -> Result<Found<'_>, EffectFault>
    ensures { Gives (λ p. (p.0, p.1.now)) result (whole_two 1 5 (λ step v. (variant.Got step v, None)) positive_at
        (λ b. found (value_at b)) bytes.now) }
{
    let Some((step, rest)) = positive_field(bytes) else {
        return Err(EffectFault::Form { at: 1 });
    };
    let (value, rest) = value_field(alloc, 5, rest)?;
    Ok(((Effect::Got { step, value }, None), rest))
}

fn run_of(bytes: &[u8]) -> Result<Found<'_>, EffectFault>
    ensures { Gives (λ p. (p.0, p.1.now)) result
        (whole_one 1 (λ number. (variant.Run number, None)) positive_at bytes.now) }
{
    let Some((number, rest)) = positive_field(bytes) else {
        return Err(EffectFault::Form { at: 1 });
    };
    Ok(((Effect::Run { number }, None), rest))
}

fn acked_of(bytes: &[u8]) -> Result<Found<'_>, EffectFault>
    ensures { Gives (λ p. (p.0, p.1.now)) result
        (whole_one 1 (λ step. (variant.Acked step, None)) positive_at bytes.now) }
{
    let Some((step, rest)) = positive_field(bytes) else {
        return Err(EffectFault::Form { at: 1 });
    };
    Ok(((Effect::Acked { step }, None), rest))
}

fn mark_of(bytes: &[u8]) -> Result<Found<'_>, EffectFault>
    ensures { Gives (λ p. (p.0, p.1.now)) result (whole_one 1 (λ at. (variant.Mark at, None)) time_at bytes.now) }
{
    let Some((at, rest)) = time_of(bytes) else {
        return Err(EffectFault::Form { at: 1 });
    };
    Ok(((Effect::Mark { at }, None), rest))
}

// What follows a tag.
#[tactic(auto, unfolding(crate::specs::Effects::effect_of_tag))]
fn tagged(alloc: Global, tag: u8, rest: &[u8]) -> Result<Found<'_>, EffectFault>
    ensures { Gives (λ p. (p.0, p.1.now)) result (effect_of_tag tag rest.now) }
{
    match tag {
        1 => put_of(alloc, rest),
        2 => stretch_of(rest),
        3 => begin_of(rest),
        4 => decide_of(rest),
        5 => learn_of(rest),
        6 => run_of(rest),
        7 => act_of(alloc, rest),
        8 => try_of(rest),
        9 => got_of(alloc, rest),
        10 => acked_of(rest),
        11 => end_of(rest),
        12 => mark_of(rest),
        13 => Ok(((Effect::Whole, None), rest)),
        _ => Err(EffectFault::Form { at: 0 }),
    }
}

// The effect at the front, and what follows it.
#[tactic(auto, unfolding(crate::specs::Effects::effect_at))]
fn effect_of(alloc: Global, bytes: &[u8]) -> Result<Found<'_>, EffectFault>
    ensures { Gives (λ p. (p.0, p.1.now)) result (effect_at bytes.now) }
{
    let Some((tag, rest)) = byte_of(bytes) else {
        return Err(EffectFault::Form { at: 0 });
    };
    tagged(alloc, tag, rest)
}

// The effect at the front, and how many bytes it takes.
fn counted(alloc: Global, bytes: &[u8]) -> Result<(Effect, Option<Place>, usize), EffectFault>
    ensures { GivesCount result (length bytes.now) (effect_at bytes.now) }
{
    let ((effect, back), rest) = effect_of(alloc, bytes)?;
    Ok((effect, back, bytes.len() - rest.len()))
}

/// Reads the effect at the front of the bytes, with the back place of a Put, and says how many bytes
/// it takes. Others may follow. `Form` has the place of the first field that is missing, cut short
/// or out of range; the tag is the first, at 0, and a value, a decision or an outcome is one field.
pub fn read(alloc: Global, bytes: &[u8]) -> Result<(Effect, Option<Place>, usize), EffectFault>
    // What is read stands so in the bytes.
    ensures found { IfOk result (λ p. IsWritten (p.0, p.1) × (p.2 ≤ length bytes.now) ×
        (take p.2 bytes.now ≡ effect_bytes (p.0, p.1))) }
    // What stands in the bytes is read, unless memory runs out.
    ensures only { (w : Written) (rest : List ℕ) → IsWritten w → bytes.now ≡ effect_bytes w ++ rest →
        GivesCount result (length bytes.now) (Ok (w, rest)) }
    // Where it isn't, at which place.
    ensures exact { GivesCount result (length bytes.now) (effect_at bytes.now) }
{
    counted(alloc, bytes)
}

/// A law: no effect's bytes begin another's, and each effect with its back place has one text.
pub fn effects_apart()
    ensures { (a b : Written) (x y : List ℕ) → IsWritten a → IsWritten b → effect_bytes a ++ x ≡ effect_bytes b ++ y →
        (a ≡ b) × (x ≡ y) }
{}

/// A law: how many bytes an effect has doesn't depend on its back place.
pub fn back_place_has_six_bytes()
    ensures { (e : Effect) (a b : Option Place) → length (effect_bytes (e, a)) ≡ length (effect_bytes (e, b)) }
{}
