//! Carries a script out alone, over a map.
ghost use Rattle.std.specs.Prelude.{◌≡◌, IfOk};
ghost use Rattle.script_meaning.specs.Meaning as meaning;
ghost use Rattle.value_form.specs.Mirror.{term, spot, plain, block, Let, Read, Write, Print, If, IfElse, Repeat};
ghost use Rattle.value_form.specs.Ranges.{IsTerm, IsSpot, IsStep, IsBlock, IsScript};
ghost use Rattle.serial_model.specs.Alone.{state_of, came_to, came_of};

use crate::object_maps::ObjectMap;
use crate::works::{Performed, Work};
use script_meaning::{Names, condition, count, evaluate, line_of, object_at};
use std::alloc::{AllocError, Global};
use value_form::{Bytes, Ending, Expr, FailKind, Items, Line, Script, Stmt, Target};

/// How many statements a script may begin.
const BUDGET: u32 = 10_000;

fn set_name(
    alloc: Global,
    line: u16,
    name: &Bytes,
    expression: &Expr,
    work: &mut Work,
) -> Result<Option<Ending>, AllocError>
    requires { IsTerm (term expression.now) }
    ensures { IfOk result (λ r. meaning.begun meaning.over_objects (Let line name.now (term expression.now))
        (state_of work.old) ≡ came_to r work.new) }
{
    match evaluate(alloc, &work.names, expression)? {
        Ok(value) => {
            let name = name.copy(alloc)?;
            work.names.set(name, value)?;
            Ok(None)
        }
        Err(kind) => Ok(Some(Ending::Failed { line, kind })),
    }
}

fn read(
    alloc: Global,
    line: u16,
    name: &Bytes,
    place: &Target,
    work: &mut Work,
) -> Result<Option<Ending>, AllocError>
    requires { IsSpot (spot place.now) }
    ensures { IfOk result (λ r. meaning.begun meaning.over_objects (Read line name.now (spot place.now))
        (state_of work.old) ≡ came_to r work.new) }
{
    match object_at(alloc, &work.names, place)? {
        Ok(object) => {
            let value = work.objects.value_of(alloc, object)?;
            let name = name.copy(alloc)?;
            let shown = value.copy(alloc)?;
            work.lines.push(Line::Read(object, shown))?;
            work.names.set(name, value)?;
            Ok(None)
        }
        Err(kind) => Ok(Some(Ending::Failed { line, kind })),
    }
}

fn write(
    alloc: Global,
    line: u16,
    place: &Target,
    expression: &Expr,
    work: &mut Work,
) -> Result<Option<Ending>, AllocError>
    requires { IsSpot (spot place.now) × IsTerm (term expression.now) }
    ensures { IfOk result (λ r. meaning.begun meaning.over_objects (Write line (spot place.now) (term expression.now))
        (state_of work.old) ≡
        came_to r work.new) }
{
    match object_at(alloc, &work.names, place)? {
        Ok(object) => match evaluate(alloc, &work.names, expression)? {
            Ok(value) => {
                let shown = value.copy(alloc)?;
                work.lines.push(Line::Wrote(object, shown))?;
                work.objects.set(object, value)?;
                Ok(None)
            }
            Err(kind) => Ok(Some(Ending::Failed { line, kind })),
        },
        Err(kind) => Ok(Some(Ending::Failed { line, kind })),
    }
}

fn print(
    alloc: Global,
    line: u16,
    expression: &Expr,
    work: &mut Work,
) -> Result<Option<Ending>, AllocError>
    requires { IsTerm (term expression.now) }
    ensures { IfOk result (λ r. meaning.begun meaning.over_objects (Print line (term expression.now))
        (state_of work.old) ≡ came_to r work.new) }
{
    match evaluate(alloc, &work.names, expression)? {
        Ok(value) => {
            work.lines.push(Line::Print(value))?;
            Ok(None)
        }
        Err(kind) => Ok(Some(Ending::Failed { line, kind })),
    }
}

// Carries out statements, up to the first that ends the script.
#[cycle(statements)]
fn all(alloc: Global, part: &[Stmt], work: &mut Work) -> Result<Option<Ending>, AllocError>
    requires { IsBlock (block part.now) }
    ensures { IfOk result (λ r. meaning.all_done meaning.over_objects (block part.now) (state_of work.old) ≡
        came_to r work.new) }
{
    for stmt in part {
        match one(alloc, stmt, work)? {
            None => {}
            Some(ending) => return Ok(Some(ending)),
        }
    }
    Ok(None)
}

// Carries out a part so many times.
#[cycle(statements)]
fn turns(
    alloc: Global,
    count: u32,
    part: &[Stmt],
    work: &mut Work,
) -> Result<Option<Ending>, AllocError>
    requires { IsBlock (block part.now) }
    ensures { IfOk result (λ r. meaning.turns meaning.over_objects count
        (meaning.all_done meaning.over_objects (block part.now)) (state_of work.old) ≡
        came_to r work.new) }
{
    'turns: for _turn in 0..count {
        match all(alloc, part, work)? {
            None => {}
            Some(ending) => return Ok(Some(ending)),
        }
    }
    Ok(None)
}

// Carries out a statement for which the budget had room.
#[cycle(statements)]
fn begun(alloc: Global, stmt: &Stmt, work: &mut Work) -> Result<Option<Ending>, AllocError>
    requires { IsStep (plain stmt.now) }
    ensures { IfOk result (λ r. meaning.begun meaning.over_objects (plain stmt.now) (state_of work.old) ≡
        came_to r work.new) }
{
    match stmt {
        Stmt::Let(line, name, value) => Ok(set_name(alloc, *line, name, value, work)?),
        Stmt::Read(line, name, place) => Ok(read(alloc, *line, name, place, work)?),
        Stmt::Write(line, place, value) => Ok(write(alloc, *line, place, value, work)?),
        Stmt::Print(line, value) => Ok(print(alloc, *line, value, work)?),
        Stmt::If(line, expression, part, _) => match condition(alloc, &work.names, expression)? {
            Ok(true) => Ok(all(alloc, part.as_slice(), work)?),
            Ok(false) => Ok(None),
            Err(kind) => Ok(Some(Ending::Failed { line: *line, kind })),
        },
        Stmt::IfElse(line, expression, first, _, second, _) => {
            match condition(alloc, &work.names, expression)? {
                Ok(true) => Ok(all(alloc, first.as_slice(), work)?),
                Ok(false) => Ok(all(alloc, second.as_slice(), work)?),
                Err(kind) => Ok(Some(Ending::Failed { line: *line, kind })),
            }
        }
        Stmt::Repeat(line, expression, part, _) => match count(alloc, &work.names, expression)? {
            Ok(count) => Ok(turns(alloc, count, part.as_slice(), work)?),
            Err(kind) => Ok(Some(Ending::Failed { line: *line, kind })),
        },
        Stmt::Withdraw(line) => Ok(Some(Ending::Withdrawn { line: *line })),
    }
}

// Carries out a statement if the budget has room for it.
#[cycle(statements)]
fn one(alloc: Global, stmt: &Stmt, work: &mut Work) -> Result<Option<Ending>, AllocError>
    requires { IsStep (plain stmt.now) }
    ensures { IfOk result (λ r. meaning.done meaning.over_objects (plain stmt.now) (state_of work.old) ≡
        came_to r work.new) }
{
    if work.left == 0 {
        return Ok(Some(Ending::Failed {
            line: line_of(stmt),
            kind: FailKind::Budget,
        }));
    }
    work.left -= 1;
    Ok(begun(alloc, stmt, work)?)
}

/// Carries a script out alone, over a map of objects: its transcript, the map with its writes, and
/// how it ended. An object outside the map has the value Nothing.
pub fn perform(alloc: Global, script: &Script, map: &ObjectMap) -> Result<Performed, AllocError>
    requires { IsScript script.now.lines }
    ensures { IfOk result (λ p. came_of p ≡ meaning.perform (block script.now.lines) map.now) }
{
    let objects = map.copy(alloc)?;
    let mut work = Work {
        names: Names::new(alloc),
        left: BUDGET,
        lines: Vec::new(alloc),
        objects,
    };
    let ended = all(alloc, script.lines.as_slice(), &mut work)?;
    let Work {
        names: _,
        left: _,
        lines,
        objects,
    } = work;
    let ending = match ended {
        Some(ending) => ending,
        None => Ending::Finished,
    };
    Ok(Performed {
        transcript: Items::of(lines),
        after: objects,
        ending,
    })
}
