//! The transcript of an attempt.
ghost use Rattle.std.specs.Prelude.{◌≡◌, ◌++◌, IfOk, OnOk};
ghost use Rattle.value_form.specs.Mirror.{block};
ghost use Rattle.value_form.specs.Ranges.{IsScript};
ghost use Rattle.script_meaning.specs.Meaning.{Got, Stored};
ghost use Rattle.script_run.specs.RunParts.{stop_of};
ghost use Rattle.serial_model.specs.Questions.{denote, talked};
ghost use Rattle.broker_core.specs.Fits.{reads_now, writes_now};
ghost use Rattle.trace_report.specs.Transcripts.{answer_of, answers_of, Gave};

use crate::answers::Answered;
use script_run::{Next, Run};
use std::alloc::{AllocError, Global};
use value_form::{Items, Line, Script, Value};

// Whether a read is asked for.
fn asks_read(next: &Next) -> bool
    ensures { result ≡ reads_now (stop_of next.now) }
{
    match next {
        Next::Read(_) => true,
        _ => false,
    }
}

// Whether a write is asked for.
fn asks_write(next: &Next) -> bool
    ensures { result ≡ writes_now (stop_of next.now) }
{
    match next {
        Next::Write(_, _) => true,
        _ => false,
    }
}

// Gives the run the value that it waits for. False where it waits for none.
fn give_value(alloc: Global, run: &mut Run, value: &Value) -> Result<bool, AllocError>
    ensures script { OnOk result (run.new.script ≡ run.old.script) }
    ensures gave { IfOk result (λ gave. Gave gave run.old run.new (Got value.now)) }
{
    let next = run.next(alloc)?;
    if !asks_read(&next) {
        return Ok(false);
    }
    let value = value.copy(alloc)?;
    run.give(value);
    Ok(true)
}

// Tells the run that what it writes was stored. False where it writes nothing.
fn give_stored(alloc: Global, run: &mut Run) -> Result<bool, AllocError>
    ensures script { OnOk result (run.new.script ≡ run.old.script) }
    ensures gave { IfOk result (λ gave. Gave gave run.old run.new Stored) }
{
    let next = run.next(alloc)?;
    if !asks_write(&next) {
        return Ok(false);
    }
    run.stored();
    Ok(true)
}

// Gives the run an answer. False where it waits for none of this kind.
fn give(alloc: Global, run: &mut Run, answer: &Answered) -> Result<bool, AllocError>
    ensures script { OnOk result (run.new.script ≡ run.old.script) }
    ensures gave { IfOk result (λ gave. Gave gave run.old run.new (answer_of answer.now)) }
{
    match answer {
        Answered::Got(value) => give_value(alloc, run, value),
        Answered::Stored => give_stored(alloc, run),
    }
}

// Gives the run answers, up to the first that it doesn't ask for.
fn give_all(alloc: Global, run: &mut Run, answers: &[Answered]) -> Result<(), AllocError>
    ensures script { OnOk result (run.new.script ≡ run.old.script) }
    ensures talked { OnOk result (talked (denote (block run.old.script)) run.new.answers ≡
        talked (denote (block run.old.script)) (run.old.answers ++ answers_of answers.now)) }
{
    for answer in answers {
        let gave = give(alloc, run, answer)?;
        if !gave {
            return Ok(());
        }
    }
    Ok(())
}

// Copies of lines.
fn copies(alloc: Global, lines: &[Line]) -> Result<Vec<Line>, AllocError>
    ensures { IfOk result (λ copied. copied.items ≡ lines.now) }
{
    let mut copied = Vec::new(alloc);
    for line in lines {
        copied.push(line.copy(alloc)?)?;
    }
    Ok(copied)
}

/// The transcript of a script that got these answers, up to the first that it didn't ask for.
pub fn transcript(
    alloc: Global,
    script: &Script,
    answers: &[Answered],
) -> Result<Items<Line>, AllocError>
    requires { IsScript script.now.lines }
    ensures { IfOk result (λ lines. lines ≡ (talked (denote (block script.now.lines)) (answers_of answers.now)).lines) }
{
    let mut run = Run::start(alloc, script)?;
    give_all(alloc, &mut run, answers)?;
    let _next = run.next(alloc)?;
    let lines = copies(alloc, run.transcript())?;
    Ok(Items::of(lines))
}
