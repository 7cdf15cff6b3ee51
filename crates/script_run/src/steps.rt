//! Carries out one statement.
ghost use Rattle.std.specs.Prelude.{◌≡◌, ◌<◌, ◌+◌, ◌^◌, IfOk, IfSome, None, option_copied, slice_get};
ghost use Rattle.value_form.specs.declared.scripts.Stmt.{out-Stmt};
ghost use Rattle.value_form.specs.declared.scripts.Stmt.TheOpen.{Stmt-F};
ghost use Rattle.value_form.specs.Mirror.{term, spot, plain};
ghost use Rattle.value_form.specs.MirrorLaws.{shape};
ghost use Rattle.value_form.specs.Ranges.{IsTerm, IsSpot, IsStep, IsScript};
ghost use Rattle.script_meaning.specs.Meaning as meaning;
ghost use Rattle.script_run.specs.Standings.{inner};
ghost use Rattle.script_run.specs.Steps as spec;
ghost use Rattle.script_run.specs.Machines.{stand_of, counted, MayPass, ArrivesAt, Arrives, GoesOn};

use crate::frames::{Frame, Part};
use crate::halts::Halt;
use crate::machines::Machine;
use script_meaning::{condition, count, evaluate, line_of, object_at};
use std::alloc::{AllocError, Global};
use value_form::{Bytes, Ending, Expr, FailKind, Line, Stmt, Target};

fn set_name(
    alloc: Global,
    line: u16,
    name: &Bytes,
    expression: &Expr,
    machine: &mut Machine,
) -> Result<Option<Halt>, AllocError>
    requires term { IsTerm (term expression.now) }
    requires passes { MayPass machine.old }
    ensures { Arrives (spec.begun_at (counted (stand_of machine.old)) (Stmt-F.Let line name.now expression.now)) result
        machine.old machine.new }
{
    match evaluate(alloc, &machine.names, expression)? {
        Ok(value) => {
            let name = name.copy(alloc)?;
            machine.names.set(name, value)?;
            machine.pass();
            Ok(None)
        }
        Err(kind) => Ok(Some(Halt::End(Ending::Failed { line, kind }))),
    }
}

fn read(
    alloc: Global,
    line: u16,
    name: &Bytes,
    place: &Target,
    machine: &mut Machine,
) -> Result<Option<Halt>, AllocError>
    requires spot { IsSpot (spot place.now) }
    requires passes { MayPass machine.old }
    ensures { Arrives (spec.begun_at (counted (stand_of machine.old)) (Stmt-F.Read line name.now place.now)) result
        machine.old machine.new }
{
    match object_at(alloc, &machine.names, place)? {
        Ok(object) => Ok(Some(Halt::Read(name.copy(alloc)?, object))),
        Err(kind) => Ok(Some(Halt::End(Ending::Failed { line, kind }))),
    }
}

fn write(
    alloc: Global,
    line: u16,
    place: &Target,
    expression: &Expr,
    machine: &mut Machine,
) -> Result<Option<Halt>, AllocError>
    requires range { IsSpot (spot place.now) × IsTerm (term expression.now) }
    requires passes { MayPass machine.old }
    ensures { Arrives (spec.begun_at (counted (stand_of machine.old)) (Stmt-F.Write line place.now expression.now))
        result machine.old machine.new }
{
    match object_at(alloc, &machine.names, place)? {
        Ok(object) => match evaluate(alloc, &machine.names, expression)? {
            Ok(value) => Ok(Some(Halt::Write(object, value))),
            Err(kind) => Ok(Some(Halt::End(Ending::Failed { line, kind }))),
        },
        Err(kind) => Ok(Some(Halt::End(Ending::Failed { line, kind }))),
    }
}

fn print(
    alloc: Global,
    line: u16,
    expression: &Expr,
    machine: &mut Machine,
) -> Result<Option<Halt>, AllocError>
    requires term { IsTerm (term expression.now) }
    requires passes { MayPass machine.old }
    ensures { Arrives (spec.begun_at (counted (stand_of machine.old)) (Stmt-F.Print line expression.now)) result
        machine.old machine.new }
{
    match evaluate(alloc, &machine.names, expression)? {
        Ok(value) => {
            machine.lines.push(Line::Print(value))?;
            machine.pass();
            Ok(None)
        }
        Err(kind) => Ok(Some(Halt::End(Ending::Failed { line, kind }))),
    }
}

// Enters the part of an `if` that its condition chooses; None is no part.
fn choose(
    line: u16,
    holds: Result<bool, FailKind>,
    second: Option<Part>,
    machine: &mut Machine,
) -> Result<Option<Halt>, AllocError>
    requires passes { MayPass machine.old }
    ensures { Arrives (spec.chosen (counted (stand_of machine.old)) line holds second) result machine.old machine.new }
{
    match holds {
        Ok(true) => machine.enter(Part::First)?,
        Ok(false) => match second {
            Some(part) => machine.enter(part)?,
            None => machine.pass(),
        },
        Err(kind) => return Ok(Some(Halt::End(Ending::Failed { line, kind }))),
    }
    Ok(None)
}

// Enters the part of a `repeat` for its first turn, if there is one.
fn repeat(
    line: u16,
    count: Result<u32, FailKind>,
    machine: &mut Machine,
) -> Result<Option<Halt>, AllocError>
    requires passes { MayPass machine.old }
    ensures { Arrives (spec.repeated (counted (stand_of machine.old)) line count) result machine.old machine.new }
{
    match count {
        Ok(0) => machine.pass(),
        Ok(count) => machine.enter(Part::Repeated(count - 1))?,
        Err(kind) => return Ok(Some(Halt::End(Ending::Failed { line, kind }))),
    }
    Ok(None)
}

// A statement for which the budget has room.
fn begin(alloc: Global, stmt: &Stmt, machine: &mut Machine) -> Result<Option<Halt>, AllocError>
    requires range { IsStep (plain stmt.now) }
    requires passes { MayPass machine.old }
    ensures { Arrives (spec.begun_at (counted (stand_of machine.old)) (out-Stmt stmt.now)) result
        machine.old machine.new }
{
    match stmt {
        Stmt::Let(line, name, value) => Ok(set_name(alloc, *line, name, value, machine)?),
        Stmt::Read(line, name, place) => Ok(read(alloc, *line, name, place, machine)?),
        Stmt::Write(line, place, value) => Ok(write(alloc, *line, place, value, machine)?),
        Stmt::Print(line, value) => Ok(print(alloc, *line, value, machine)?),
        Stmt::If(line, expression, _, _) => {
            let holds = condition(alloc, &machine.names, expression)?;
            Ok(choose(*line, holds, None, machine)?)
        }
        Stmt::IfElse(line, expression, _, _, _, _) => {
            let holds = condition(alloc, &machine.names, expression)?;
            Ok(choose(*line, holds, Some(Part::Second), machine)?)
        }
        Stmt::Repeat(line, expression, _, _) => {
            let count = count(alloc, &machine.names, expression)?;
            Ok(repeat(*line, count, machine)?)
        }
        Stmt::Withdraw(line) => Ok(Some(Halt::End(Ending::Withdrawn { line: *line }))),
    }
}

// The statement at which the machine stands. None at the end of a part.
fn statement_at<'a>(script: &'a [Stmt], machine: &Machine) -> Option<&'a Stmt>
    ensures found { option_copied result ≡ slice_get (inner script.now machine.now.path).statements machine.now.at }
    ensures place { IfSome result (λ _. machine.now.at + 1 < 2 ^ 64) }
{
    machine.path.statements(script).get(machine.at)
}

// One step: a statement, or the end of a part.
fn advance(
    alloc: Global,
    script: &[Stmt],
    machine: &mut Machine,
) -> Result<Option<Halt>, AllocError>
    requires { IsScript script.now }
    ensures { Arrives (spec.step script.now (stand_of machine.old)) result machine.old machine.new }
{
    match statement_at(script, machine) {
        None => Ok(end_part(machine)),
        Some(stmt) if machine.left == 0 => Ok(Some(Halt::End(Ending::Failed {
            line: line_of(stmt),
            kind: FailKind::Budget,
        }))),
        Some(stmt) => Ok(begin(alloc, stmt, machine)?),
    }
}

// The end of a part: its next turn, or past its statement, or the end of the script.
fn end_part(machine: &mut Machine) -> Option<Halt>
    ensures { ArrivesAt (spec.at_end (stand_of machine.old) (spec.left_from machine.old.path)) result
        machine.old machine.new }
{
    match machine.path.leave() {
        None => Some(Halt::End(Ending::Finished)),
        Some(at) => {
            machine.at = at;
            None
        }
    }
}

/// Goes on to the next request or the end, and makes room for a line.
pub fn go(alloc: Global, script: &[Stmt], machine: &mut Machine) -> Result<Halt, AllocError>
    requires { IsScript script.now }
    ensures { GoesOn script.now result machine.old machine.new }
{
    'going: loop {
        match advance(alloc, script, machine)? {
            None => {}
            Some(halt) => {
                machine.lines.reserve(1)?;
                return Ok(halt);
            }
        }
    }
}
