//! What an expression gives, and which object a statement means.
ghost use Rattle.std.specs.Prelude.{◌≡◌, IfOk};
ghost use Rattle.script_meaning.specs.Meaning as meaning;
ghost use Rattle.value_form.specs.Mirror.{term, spot};
ghost use Rattle.value_form.specs.Ranges.{IsTerm, IsSpot};

use crate::names::Names;
use crate::operations::{call_of, given_of, infix_of, object_of, prefix_of};
use std::alloc::{AllocError, Global};
use value_form::{Expr, FailKind, ObjectId, Target, Value};

/// What an expression gives, from left to right, or the first failure.
pub fn evaluate(
    alloc: Global,
    names: &Names,
    expression: &Expr,
) -> Result<Result<Value, FailKind>, AllocError>
    requires { IsTerm (term expression.now) }
    ensures { IfOk result (λ r. r ≡ meaning.value names.now (term expression.now)) }
{
    match expression {
        Expr::Number(number) => Ok(Ok(Value::Number(*number as i64))),
        Expr::Text(text) => Ok(Ok(Value::Text(text.copy(alloc)?))),
        Expr::Nothing => Ok(Ok(Value::Nothing)),
        Expr::Name(name) => Ok(Ok(names.value_of(alloc, name.as_slice())?)),
        Expr::Prefix(operator, of) => match evaluate(alloc, names, of.get())? {
            Ok(value) => Ok(prefix_of(*operator, &value)),
            Err(kind) => Ok(Err(kind)),
        },
        Expr::Infix(operator, left, right) => match evaluate(alloc, names, left.get())? {
            Ok(first) => match evaluate(alloc, names, right.get())? {
                Ok(second) => infix_of(alloc, *operator, &first, &second),
                Err(kind) => Ok(Err(kind)),
            },
            Err(kind) => Ok(Err(kind)),
        },
        Expr::Call(function, of) => match evaluate(alloc, names, of.get())? {
            Ok(value) => call_of(alloc, *function, &value),
            Err(kind) => Ok(Err(kind)),
        },
        Expr::Given(first, second) => match evaluate(alloc, names, first.get())? {
            Ok(one) => match evaluate(alloc, names, second.get())? {
                Ok(other) => Ok(Ok(given_of(one, other))),
                Err(kind) => Ok(Err(kind)),
            },
            Err(kind) => Ok(Err(kind)),
        },
    }
}

/// Which object a statement means, or the first failure.
pub fn object_at(
    alloc: Global,
    names: &Names,
    place: &Target,
) -> Result<Result<ObjectId, FailKind>, AllocError>
    requires { IsSpot (spot place.now) }
    ensures { IfOk result (λ r. r ≡ meaning.object_at names.now (spot place.now)) }
{
    match place {
        Target::Fixed(object) => Ok(Ok(*object)),
        Target::At(repository, number) => match evaluate(alloc, names, number)? {
            Ok(value) => Ok(object_of(*repository, &value)),
            Err(kind) => Ok(Err(kind)),
        },
    }
}
