//! What each operator and each function gives.
ghost use Rattle.std.specs.Prelude.{◌≡◌, IfOk};
ghost use Rattle.script_meaning.specs.Operations as spec;

use crate::numbers::{
    both, difference, either, negative, opposite, product, quotient, remainder, sum, truth,
};
use std::alloc::{AllocError, Global};
use std::cmp::Ordering;
use value_form::{Bytes, Call, FailKind, Infix, MOST_TEXT_BYTES, ObjectId, Prefix, Value};

// Whether two values are equal.
fn is_same(left: &Value, right: &Value) -> bool
    ensures { result ≡ spec.same left.now right.now }
{
    match left {
        Value::Nothing => match right {
            Value::Nothing => true,
            Value::Number(_) => false,
            Value::Text(_) => false,
        },
        Value::Number(first) => match right {
            Value::Nothing => false,
            Value::Number(second) => *first == *second,
            Value::Text(_) => false,
        },
        Value::Text(first) => match right {
            Value::Nothing => false,
            Value::Number(_) => false,
            Value::Text(second) => first.as_slice() == second.as_slice(),
        },
    }
}

// How two numbers or two texts are ordered.
fn order_of(left: &Value, right: &Value) -> Result<Ordering, FailKind>
    ensures { result ≡ spec.order left.now right.now }
{
    match left {
        Value::Nothing => Err(FailKind::Kind),
        Value::Number(first) => match right {
            Value::Nothing => Err(FailKind::Kind),
            Value::Number(second) => Ok(first.cmp(second)),
            Value::Text(_) => Err(FailKind::Kind),
        },
        Value::Text(first) => match right {
            Value::Nothing => Err(FailKind::Kind),
            Value::Number(_) => Err(FailKind::Kind),
            Value::Text(second) => Ok(first.as_slice().cmp(second.as_slice())),
        },
    }
}

// The result of a comparison.
fn comparison(operator: Infix, left: &Value, right: &Value) -> Result<Value, FailKind>
    ensures { result ≡ spec.compared operator left.now right.now }
{
    let order = order_of(left, right)?;
    let holds = match operator {
        Infix::Less => order.is_lt(),
        Infix::LessEqual => order.is_le(),
        Infix::Greater => order.is_gt(),
        _ => order.is_ge(),
    };
    Ok(Value::Number(truth(holds)))
}

// Two texts, one after the other.
fn texts_joined(
    alloc: Global,
    left: &[u8],
    right: &[u8],
) -> Result<Result<Value, FailKind>, AllocError>
    ensures { IfOk result (λ r. r ≡ spec.texts_joined left.now right.now) }
{
    let most = MOST_TEXT_BYTES as usize;
    if left.len() > most || right.len() > most - left.len() {
        return Ok(Err(FailKind::Long));
    }
    let mut bytes = left.to_vec(alloc)?;
    bytes.extend_from_slice(right)?;
    Ok(Ok(Value::Text(Bytes::of(bytes))))
}

fn joined(alloc: Global, left: &Value, right: &Value) -> Result<Result<Value, FailKind>, AllocError>
    ensures { IfOk result (λ r. r ≡ spec.joined left.now right.now) }
{
    match left {
        Value::Nothing => Ok(Err(FailKind::Kind)),
        Value::Number(_) => Ok(Err(FailKind::Kind)),
        Value::Text(first) => match right {
            Value::Nothing => Ok(Err(FailKind::Kind)),
            Value::Number(_) => Ok(Err(FailKind::Kind)),
            Value::Text(second) => texts_joined(alloc, first.as_slice(), second.as_slice()),
        },
    }
}

/// What an operator gives for two values.
pub fn infix_of(
    alloc: Global,
    operator: Infix,
    left: &Value,
    right: &Value,
) -> Result<Result<Value, FailKind>, AllocError>
    ensures { IfOk result (λ r. r ≡ spec.infix_value operator left.now right.now) }
{
    match operator {
        Infix::Or => Ok(either(left, right)),
        Infix::And => Ok(both(left, right)),
        Infix::Equal => Ok(Ok(Value::Number(truth(is_same(left, right))))),
        Infix::NotEqual => Ok(Ok(Value::Number(truth(!is_same(left, right))))),
        Infix::Less => Ok(comparison(operator, left, right)),
        Infix::LessEqual => Ok(comparison(operator, left, right)),
        Infix::Greater => Ok(comparison(operator, left, right)),
        Infix::GreaterEqual => Ok(comparison(operator, left, right)),
        Infix::Add => Ok(sum(left, right)),
        Infix::Subtract => Ok(difference(left, right)),
        Infix::Join => joined(alloc, left, right),
        Infix::Multiply => Ok(product(left, right)),
        Infix::Divide => Ok(quotient(left, right)),
        Infix::Modulo => Ok(remainder(left, right)),
    }
}

/// What an operator gives for a value.
pub fn prefix_of(operator: Prefix, value: &Value) -> Result<Value, FailKind>
    ensures { result ≡ spec.prefix_value operator value.now }
{
    match operator {
        Prefix::Not => opposite(value),
        Prefix::Minus => negative(value),
    }
}

// The printed text of a value, as a text.
fn printed(alloc: Global, value: &Value) -> Result<Value, AllocError>
    ensures { IfOk result (λ r. r ≡ spec.printed value.now) }
{
    let mut bytes = Vec::new(alloc);
    value.print(alloc, &mut bytes)?;
    Ok(Value::Text(Bytes::of(bytes)))
}

// A text is itself, another value gives its printed text.
fn as_text(alloc: Global, value: &Value) -> Result<Value, AllocError>
    ensures { IfOk result (λ r. r ≡ spec.as_text value.now) }
{
    match value {
        Value::Nothing => printed(alloc, value),
        Value::Number(_) => printed(alloc, value),
        Value::Text(bytes) => Ok(Value::Text(bytes.copy(alloc)?)),
    }
}

// How many bytes a text has.
fn length_of(value: &Value) -> Result<Value, FailKind>
    ensures { result ≡ spec.call_value Call.Len value.now }
{
    match value {
        Value::Nothing => Err(FailKind::Kind),
        Value::Number(_) => Err(FailKind::Kind),
        Value::Text(bytes) => Ok(Value::Number(bytes.as_slice().len() as i64)),
    }
}

/// What a function gives for a value.
pub fn call_of(
    alloc: Global,
    function: Call,
    value: &Value,
) -> Result<Result<Value, FailKind>, AllocError>
    ensures { IfOk result (λ r. r ≡ spec.call_value function value.now) }
{
    match function {
        Call::Len => Ok(length_of(value)),
        Call::Text => Ok(Ok(as_text(alloc, value)?)),
    }
}

/// The first value, or the second where the first is Nothing.
pub fn given_of(first: Value, second: Value) -> Value
    ensures { result ≡ spec.given_value first second }
{
    match first {
        Value::Nothing => second,
        Value::Number(number) => Value::Number(number),
        Value::Text(bytes) => Value::Text(bytes),
    }
}

/// The object of a repository whose number is this value.
pub fn object_of(repository: u8, value: &Value) -> Result<ObjectId, FailKind>
    ensures { result ≡ spec.object_in repository value.now }
{
    match value {
        Value::Nothing => Err(FailKind::Object),
        Value::Number(number) => {
            if *number < 0 || *number > 4_294_967_295 {
                return Err(FailKind::Object);
            }
            Ok(ObjectId {
                repository,
                number: *number as u32,
            })
        }
        Value::Text(_) => Err(FailKind::Object),
    }
}

/// How often a part is repeated, where this value says it. It is at most 1,000.
pub fn count_of(value: &Value) -> Result<u32, FailKind>
    ensures { result ≡ spec.count_in value.now }
{
    match value {
        Value::Nothing => Err(FailKind::Count),
        Value::Number(number) => {
            if *number < 0 || *number > 1_000 {
                return Err(FailKind::Count);
            }
            Ok(*number as u32)
        }
        Value::Text(_) => Err(FailKind::Count),
    }
}
