//! Carries a script out, request by request.
ghost use Rattle.std.specs.Prelude.{◌≡◌, ◌≢◌, Some, None, IfOk, OnOk, OnErr};
ghost use Rattle.value_form.specs.declared.objects.ObjectId.{ObjectId};
ghost use Rattle.value_form.specs.declared.values.Value.{Value};
ghost use Rattle.script_meaning.specs.Meaning.{Got, Stored};
ghost use Rattle.value_form.specs.Ranges.{IsScript};
ghost use Rattle.script_run.specs.RunParts.{begun, answered, IsRead, IsWrite, Tells};
ghost use Rattle.script_run.specs.Standings.{last_value, named};
ghost use Rattle.script_run.specs.Machines.{stand_of};
ghost use Rattle.script_run.specs.Runs as spec;

use crate::halts::Halt;
use crate::machines::Machine;
use crate::nexts::Next;
use crate::paths::Path;
use crate::steps::go;
use script_meaning::Names;
use std::alloc::{AllocError, Global};
use std::marker::Model;
use std::mem;
use value_form::{Bytes, Ending, Line, Script, Value};

/// How many statements a script may begin.
const BUDGET: u32 = 10_000;

/// A script at work, which stops at each request. Contracts see the script, the answers that it was
/// given, its transcript, and what it asks or how it ended.
#[derive(Drop)]
pub struct Run {
    script: Script,
    machine: Machine,
    /// The name that gets the value of the last line.
    waiting: Option<Bytes>,
    /// Where it has stopped, unless it may go on.
    stop: Option<Halt>,
}

impl Model for Run {
    ghost use Rattle.script_run.specs.RunParts.{RunParts, told_code};
    ghost use Rattle.script_run.specs.Runs.{told_by, IsRun};

    ghost Value = { RunParts };

    ghost coded = { told_code };

    ghost view = { λ r. told_by r.script.lines r.machine r.stop };

    ghost invariant = { λ r. IsRun r.script.lines r.machine r.waiting r.stop };
}

impl Run {
    /// A run of a copy of the script, from its start.
    pub fn start(alloc: Global, script: &Script) -> Result<Run, AllocError>
        requires { IsScript script.now.lines }
        ensures { IfOk result (λ run. run ≡ begun script.now.lines) }
    {
        let script = script.copy(alloc)?;
        Ok(Run {
            script,
            machine: Machine {
                path: Path::new(alloc),
                at: 0,
                names: Names::new(alloc),
                left: BUDGET,
                lines: Vec::new(alloc),
            },
            waiting: None,
            stop: None,
        })
    }

    /// Goes on to the next request or the end. Called again before an answer it gives the same, and
    /// after memory ran out a later call gives what this one would have.
    pub fn next(&mut self, alloc: Global) -> Result<Next, AllocError>
        ensures tells { IfOk result (λ n. Tells self.old.script self.old.answers self.new.lines n) }
        ensures said { IfOk result (λ n. self.new.said ≡ Some n) }
        ensures script { self.new.script ≡ self.old.script }
        ensures answers { self.new.answers ≡ self.old.answers }
        ensures again { self.old.said ≢ None → self.new ≡ self.old }
        ensures err { OnErr result (self.new.said ≡ self.old.said) }
    {
        match &self.stop {
            Some(halt) => Ok(next_of(alloc, halt)?),
            None => self.run_on(alloc),
        }
    }

    // Runs to the next request or the end, from where it was answered.
    fn run_on(&mut self, alloc: Global) -> Result<Next, AllocError>
        requires { self.old.said ≡ None }
        ensures tells { IfOk result (λ n. Tells self.old.script self.old.answers self.new.lines n) }
        ensures said { IfOk result (λ n. self.new.said ≡ Some n) }
        ensures script { self.new.script ≡ self.old.script }
        ensures answers { self.new.answers ≡ self.old.answers }
        ensures err { OnErr result (self.new.said ≡ None) }
    {
        settle(alloc, &mut self.waiting, &mut self.machine)?;
        let halt = go(alloc, self.script.lines.as_slice(), &mut self.machine)?;
        let next = next_of(alloc, &halt)?;
        self.stop = Some(halt);
        Ok(next)
    }

    /// The answer to a read: what the object holds. Takes no memory.
    pub fn give(&mut self, value: Value)
        requires { IsRead self.old.said }
        ensures { (o : ObjectId) → self.old.said ≡ Some (Next.Read o) →
            self.new ≡ answered self.old (Got value) (Line.Read o value) }
    {
        match mem::replace(&mut self.stop, None) {
            Some(Halt::Read(name, object)) => {
                self.machine.lines.push_reserved(Line::Read(object, value));
                self.machine.pass();
                self.waiting = Some(name);
            }
            other => self.stop = other,
        }
    }

    /// The answer to a write: it was stored. Takes no memory.
    pub fn stored(&mut self)
        requires { IsWrite self.old.said }
        ensures { (o : ObjectId) (a : Value) → self.old.said ≡ Some (Next.Write o a) →
            self.new ≡ answered self.old Stored (Line.Wrote o a) }
    {
        match mem::replace(&mut self.stop, None) {
            Some(Halt::Write(object, value)) => {
                self.machine.lines.push_reserved(Line::Wrote(object, value));
                self.machine.pass();
            }
            other => self.stop = other,
        }
    }

    /// What the script has done so far, in order.
    pub fn transcript(&self) -> &[Line]
        ensures { result.now ≡ self.now.lines }
    {
        self.machine.lines.as_slice()
    }
}

fn next_of(alloc: Global, halt: &Halt) -> Result<Next, AllocError>
    ensures { IfOk result (λ n. n ≡ spec.next_of halt.now) }
{
    match halt {
        Halt::Read(_, object) => Ok(Next::Read(*object)),
        Halt::Write(object, value) => Ok(Next::Write(*object, value.copy(alloc)?)),
        Halt::End(Ending::Finished) => Ok(Next::Finished),
        Halt::End(Ending::Withdrawn { line }) => Ok(Next::Withdrawn { line: *line }),
        Halt::End(Ending::Failed { line, kind }) => Ok(Next::Failed {
            line: *line,
            kind: *kind,
        }),
    }
}

// A copy of the value of the last line.
fn value_of_last(alloc: Global, lines: &[Line]) -> Result<Value, AllocError>
    ensures { IfOk result (λ v. v ≡ last_value lines.now) }
{
    match lines.last() {
        None => Ok(Value::Nothing),
        Some(Line::Read(_, value)) => value.copy(alloc),
        Some(Line::Wrote(_, value)) => value.copy(alloc),
        Some(Line::Print(value)) => value.copy(alloc),
    }
}

// The name that waits gets its value.
fn settle(
    alloc: Global,
    waiting: &mut Option<Bytes>,
    machine: &mut Machine,
) -> Result<(), AllocError>
    ensures ok { OnOk result ((waiting.new ≡ None) ×
        (stand_of machine.new ≡ named waiting.old (stand_of machine.old))) }
    ensures err { OnErr result ((waiting.new ≡ waiting.old) × (machine.new ≡ machine.old)) }
    ensures none { waiting.old ≡ None → machine.new ≡ machine.old }
    ensures lines { machine.new.lines ≡ machine.old.lines }
{
    match waiting {
        None => {}
        Some(name) => {
            let name = name.copy(alloc)?;
            let value = value_of_last(alloc, machine.lines.as_slice())?;
            machine.names.set(name, value)?;
        }
    }
    *waiting = None;
    Ok(())
}
