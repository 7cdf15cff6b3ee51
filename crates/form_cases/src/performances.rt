//! Scripts over objects, carried out at once and request by request.
ghost use Rattle.std.specs.Prelude.{IfOk};
ghost use Rattle.value_form.specs.Ranges.{IsScript};

use case_words::CaseFault;
use script_form::{law_of_lines, parse};
use script_run::{Next, Run};
use serial_model::{Ending, ObjectMap, Performed, perform};
use std::alloc::Global;
use std::str;
use value_form::{Line, ObjectId, Script, Value};

// The script of a text.
fn script_of(alloc: Global, text: &[u8]) -> Result<Script, CaseFault>
    ensures { IfOk result (λ s. IsScript s.lines) }
{
    law_of_lines();
    match parse(alloc, text) {
        Ok(script) => Ok(script),
        Err(_) => Err(CaseFault::Script),
    }
}

// Objects that hold these numbers.
fn map_of(alloc: Global, held: &[(ObjectId, i64)]) -> Result<ObjectMap, CaseFault> {
    let mut map = ObjectMap::new(alloc);
    for (object, number) in held {
        map.set(*object, Value::Number(*number))?;
    }
    Ok(map)
}

// Writes a line: a word, an object and a value.
fn push_access(
    alloc: Global,
    said: &mut String,
    word: &str,
    object: ObjectId,
    value: &Value,
) -> Result<(), CaseFault> {
    let front = format!(in alloc; "  {word} {}.{}", object.repository, object.number)?;
    said.push_str(front.as_str())?;
    push_value(alloc, said, value)
}

// Writes a value behind what was written, and the end of the line.
fn push_value(alloc: Global, said: &mut String, value: &Value) -> Result<(), CaseFault> {
    let mut text = Vec::new(alloc);
    value.print(alloc, &mut text)?;
    said.push(' ')?;
    said.push_str(str::from_utf8(text.as_slice()).unwrap_or("no UTF-8"))?;
    said.push('\n')?;
    Ok(())
}

fn push_line(alloc: Global, said: &mut String, line: &Line) -> Result<(), CaseFault> {
    match line {
        Line::Read(object, value) => push_access(alloc, said, "read", *object, value),
        Line::Wrote(object, value) => push_access(alloc, said, "wrote", *object, value),
        Line::Print(value) => {
            said.push_str("  print")?;
            push_value(alloc, said, value)
        }
    }
}

// A transcript, how it ended, and what the objects hold then.
fn told(
    alloc: Global,
    transcript: &[Line],
    ending: Ending,
    after: ObjectMap,
) -> Result<String, CaseFault> {
    let mut said = String::new(alloc);
    for line in transcript {
        push_line(alloc, &mut said, line)?;
    }
    said.push_str(format!(in alloc; "  {ending:?}\n")?.as_str())?;
    let held = after.into_list(alloc)?;
    for (object, value) in held.as_slice() {
        push_access(alloc, &mut said, "holds", *object, value)?;
    }
    Ok(said)
}

// The script carried out at once.
fn at_once(alloc: Global, text: &[u8], held: &[(ObjectId, i64)]) -> Result<String, CaseFault> {
    let script = script_of(alloc, text)?;
    let map = map_of(alloc, held)?;
    let Performed {
        transcript,
        ending,
        after,
    } = perform(alloc, &script, &map)?;
    told(alloc, transcript.as_slice(), ending, after)
}

// Answers the next request by the objects. How the script ended, where it requests nothing more.
fn answered(
    alloc: Global,
    run: &mut Run,
    map: &mut ObjectMap,
) -> Result<Option<Ending>, CaseFault> {
    match run.next(alloc)? {
        Next::Read(object) => {
            let value = map.value_of(alloc, object)?;
            run.give(value);
            Ok(None)
        }
        Next::Write(object, value) => {
            map.set(object, value)?;
            run.stored();
            Ok(None)
        }
        Next::Finished => Ok(Some(Ending::Finished)),
        Next::Withdrawn { line } => Ok(Some(Ending::Withdrawn { line })),
        Next::Failed { line, kind } => Ok(Some(Ending::Failed { line, kind })),
    }
}

// Answers every request, of which a script has at most 10,000. How it ended.
fn ended(alloc: Global, run: &mut Run, map: &mut ObjectMap) -> Result<Option<Ending>, CaseFault> {
    for _ in 0..=10_000 {
        if let Some(ending) = answered(alloc, run, map)? {
            return Ok(Some(ending));
        }
    }
    Ok(None)
}

// The script carried out request by request.
fn by_requests(alloc: Global, text: &[u8], held: &[(ObjectId, i64)]) -> Result<String, CaseFault> {
    let script = script_of(alloc, text)?;
    let mut map = map_of(alloc, held)?;
    let mut run = Run::start(alloc, &script)?;
    match ended(alloc, &mut run, &mut map)? {
        Some(ending) => told(alloc, run.transcript(), ending, map),
        None => Ok(format!(in alloc; "  no end\n")?),
    }
}

/// What the script comes to over objects that hold these numbers; both, where the two ways differ.
pub fn performed(
    alloc: Global,
    text: &[u8],
    held: &[(ObjectId, i64)],
) -> Result<String, CaseFault> {
    let one = at_once(alloc, text, held)?;
    let other = by_requests(alloc, text, held)?;
    if one.as_str() == other.as_str() {
        return Ok(one);
    }
    Ok(format!(in alloc;
        "  at once\n{}  by requests\n{}",
        one.as_str(),
        other.as_str()
    )?)
}
