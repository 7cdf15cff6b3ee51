//! The answers that a try got, and the script that goes on with them.
ghost use Rattle.std.specs.Prelude.{◌≡◌, ◌∷◌, [], ◌++◌, IfOk, OnOk, OnErr};
ghost use Rattle.value_form.specs.Ranges.{IsScript};
ghost use Rattle.value_form.specs.Mirror.{block};
ghost use Rattle.script_meaning.specs.Meaning as meaning;
ghost use Rattle.serial_model.specs.Questions.{denote, stop};
ghost use Rattle.serial_model.specs.Asked.{IsAnswerTo, AreAsked};
ghost use Rattle.broker_ledger.specs.Notes.{answer_of, answers_given};

use script_run::Run;
use std::alloc::{AllocError, Global};
use value_form::{Script, Value};

/// An answer that a try got.
#[derive(Drop)]
pub enum Given {
    /// To a read: what the object holds.
    Got(Value),
    /// To a write.
    Stored,
}

// Gives the run the value that it waits for.
fn give_value(alloc: Global, run: &mut Run, value: &Value) -> Result<(), AllocError>
    requires { IsAnswerTo (stop (denote (block run.old.script)) run.old.answers) (meaning.Got value.now) }
    ensures script { run.new.script ≡ run.old.script }
    ensures ok { OnOk result (run.new.answers ≡ run.old.answers ++ meaning.Got value.now ∷ []) }
    ensures err { OnErr result (run.new.answers ≡ run.old.answers) }
{
    let _next = run.next(alloc)?;
    let value = value.copy(alloc)?;
    run.give(value);
    Ok(())
}

// Tells the run that what it writes was stored.
fn give_stored(alloc: Global, run: &mut Run) -> Result<(), AllocError>
    requires { IsAnswerTo (stop (denote (block run.old.script)) run.old.answers) meaning.Stored }
    ensures script { run.new.script ≡ run.old.script }
    ensures ok { OnOk result (run.new.answers ≡ run.old.answers ++ meaning.Stored ∷ []) }
    ensures err { OnErr result (run.new.answers ≡ run.old.answers) }
{
    let _next = run.next(alloc)?;
    run.stored();
    Ok(())
}

// Gives the run an answer to what it asks.
pub fn give(alloc: Global, run: &mut Run, given: &Given) -> Result<(), AllocError>
    requires { IsAnswerTo (stop (denote (block run.old.script)) run.old.answers) (answer_of given.now) }
    ensures script { run.new.script ≡ run.old.script }
    ensures ok { OnOk result (run.new.answers ≡ run.old.answers ++ answer_of given.now ∷ []) }
    ensures err { OnErr result (run.new.answers ≡ run.old.answers) }
{
    match given {
        Given::Got(value) => give_value(alloc, run, value)?,
        Given::Stored => give_stored(alloc, run)?,
    }
    Ok(())
}

// A run of the script that was given these answers.
pub fn resumed(alloc: Global, script: &Script, answers: &[Given]) -> Result<Run, AllocError>
    requires script { IsScript script.now.lines }
    requires asked { AreAsked (denote (block script.now.lines)) (answers_given answers.now) }
    ensures script { IfOk result (λ run. run.script ≡ script.now.lines) }
    ensures answers { IfOk result (λ run. run.answers ≡ answers_given answers.now) }
{
    let mut run = Run::start(alloc, script)?;
    for given in answers {
        give(alloc, &mut run, given)?;
    }
    Ok(run)
}
