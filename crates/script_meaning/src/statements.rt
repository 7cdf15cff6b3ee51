//! The line, the condition and the count of a statement.
ghost use Rattle.std.specs.Prelude.{◌≡◌, IfOk};
ghost use Rattle.script_meaning.specs.Meaning as meaning;
ghost use Rattle.value_form.specs.Mirror.{plain, term};
ghost use Rattle.value_form.specs.Ranges.{IsTerm};

use crate::evaluation::evaluate;
use crate::names::Names;
use crate::numbers::condition_of;
use crate::operations::count_of;
use std::alloc::{AllocError, Global};
use value_form::{Expr, FailKind, Stmt};

/// The line on which a statement begins, from 1.
pub fn line_of(stmt: &Stmt) -> u16
    ensures { result ≡ meaning.line_of (plain stmt.now) }
{
    match stmt {
        Stmt::Let(line, _, _) => *line,
        Stmt::Read(line, _, _) => *line,
        Stmt::Write(line, _, _) => *line,
        Stmt::Print(line, _) => *line,
        Stmt::If(line, _, _, _) => *line,
        Stmt::IfElse(line, _, _, _, _, _) => *line,
        Stmt::Repeat(line, _, _, _) => *line,
        Stmt::Withdraw(line) => *line,
    }
}

/// Whether a condition holds, or the first failure: any number but 0 holds.
pub fn condition(
    alloc: Global,
    names: &Names,
    expression: &Expr,
) -> Result<Result<bool, FailKind>, AllocError>
    requires { IsTerm (term expression.now) }
    ensures { IfOk result (λ r. r ≡ meaning.condition names.now (term expression.now)) }
{
    match evaluate(alloc, names, expression)? {
        Ok(value) => Ok(condition_of(&value)),
        Err(kind) => Ok(Err(kind)),
    }
}

/// How often a part is repeated, from 0 to 1,000, or the first failure.
pub fn count(
    alloc: Global,
    names: &Names,
    expression: &Expr,
) -> Result<Result<u32, FailKind>, AllocError>
    requires { IsTerm (term expression.now) }
    ensures { IfOk result (λ r. r ≡ meaning.count names.now (term expression.now)) }
{
    match evaluate(alloc, names, expression)? {
        Ok(value) => Ok(count_of(&value)),
        Err(kind) => Ok(Err(kind)),
    }
}
