//! Answers that a run is given, each checked against the map.
ghost use Rattle.std.specs.Prelude.{◌≡◌, [], IfOk, IsTrue, ◌↔◌, Some};
ghost use Rattle.script_run.specs.RunParts.{Tells};
ghost use Rattle.script_run.specs.declared.nexts.Next.TheVariants as asks;
ghost use Rattle.value_form.specs.Objects.{value_at};
ghost use Rattle.script_meaning.specs.Meaning.{Got, Stored};
ghost use Rattle.serial_model.specs.Overlays.{overlaid};
ghost use Rattle.script_replay.specs.Attempts.{answer_of, answers_of};
ghost use Rattle.script_replay.specs.Works.{Agrees, Took, TookAll};

use crate::attempts::Reply;
use script_run::{Next, Run};
use serial_model::ObjectMap;
use std::alloc::{AllocError, Global};
use value_form::{ObjectId, Value};

// Whether two values are one.
pub(crate) fn is_value(a: &Value, b: &Value) -> bool
    ensures { IsTrue result ↔ (a.now ≡ b.now) }
{
    match (a, b) {
        (Value::Nothing, Value::Nothing) => true,
        (Value::Number(a), Value::Number(b)) => a == b,
        (Value::Text(a), Value::Text(b)) => a.as_slice() == b.as_slice(),
        _ => false,
    }
}

// Whether the object has this value, by the writes over the map.
fn holds(map: &ObjectMap, writes: &ObjectMap, object: ObjectId, value: &Value) -> bool
    ensures { IsTrue result ↔ (value.now ≡ value_at (overlaid writes.now map.now) object) }
{
    match writes.get(object) {
        Some(held) => is_value(value, held),
        None => match map.get(object) {
            Some(held) => is_value(value, held),
            None => is_value(value, &Value::Nothing),
        },
    }
}

// Gives the run, which reads this object, the value. False where the object has another one.
fn give_held(
    alloc: Global,
    map: &ObjectMap,
    run: &mut Run,
    writes: &ObjectMap,
    object: ObjectId,
    value: &Value,
) -> Result<bool, AllocError>
    requires said { run.now.said ≡ Some (asks.Read object) }
    requires tells { Tells run.now.script run.now.answers run.now.lines (asks.Read object) }
    requires agrees { Agrees map.now run.now writes.now }
    ensures { IfOk result (λ took. Took took map.now run.old run.new writes.now (Got value.now)) }
{
    if !holds(map, writes, object, value) {
        return Ok(false);
    }
    let value = value.copy(alloc)?;
    run.give(value);
    Ok(true)
}

// Gives the run the value that it reads. False where it reads nothing, or another value.
fn take_value(
    alloc: Global,
    map: &ObjectMap,
    run: &mut Run,
    writes: &ObjectMap,
    value: &Value,
) -> Result<bool, AllocError>
    requires { Agrees map.now run.now writes.now }
    ensures { IfOk result (λ took. Took took map.now run.old run.new writes.now (Got value.now)) }
{
    let next = run.next(alloc)?;
    let Next::Read(object) = next else {
        return Ok(false);
    };
    give_held(alloc, map, run, writes, object, value)
}

// Tells the run that its write was stored. False where it writes nothing.
fn take_stored(
    alloc: Global,
    map: &ObjectMap,
    run: &mut Run,
    writes: &mut ObjectMap,
) -> Result<bool, AllocError>
    requires { Agrees map.now run.now writes.now }
    ensures { IfOk result (λ took. Took took map.now run.old run.new writes.new Stored) }
{
    let next = run.next(alloc)?;
    match next {
        Next::Write(object, value) => {
            writes.set(object, value)?;
            run.stored();
            Ok(true)
        }
        _ => Ok(false),
    }
}

// Gives the run an answer. False where it isn't the one that it has over the map.
fn take(
    alloc: Global,
    map: &ObjectMap,
    run: &mut Run,
    writes: &mut ObjectMap,
    reply: &Reply,
) -> Result<bool, AllocError>
    requires { Agrees map.now run.now writes.now }
    ensures { IfOk result (λ took. Took took map.now run.old run.new writes.new (answer_of reply.now)) }
{
    match reply {
        Reply::Got(value) => take_value(alloc, map, run, writes, value),
        Reply::Stored => take_stored(alloc, map, run, writes),
    }
}

/// Gives the run answers, up to the first that isn't the one that it has over the map; false where
/// there is such a one. The map with what the run wrote is the writes over it.
pub(crate) fn take_all(
    alloc: Global,
    map: &ObjectMap,
    run: &mut Run,
    writes: &mut ObjectMap,
    replies: &[Reply],
) -> Result<bool, AllocError>
    requires begins { run.now.answers ≡ [] }
    requires agrees { Agrees map.now run.now writes.now }
    ensures { IfOk result (λ took. TookAll took map.now run.old run.new writes.new (answers_of replies.now)) }
{
    for reply in replies {
        let took = take(alloc, map, run, writes, reply)?;
        if !took {
            return Ok(false);
        }
    }
    Ok(true)
}
