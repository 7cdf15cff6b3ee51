//! Arithmetic on numbers of 64 bits, with its failures.
ghost use Rattle.std.specs.Prelude.{◌≡◌};
ghost use Rattle.script_meaning.specs.Operations as spec;

use value_form::{FailKind, Prefix, Value};

// The number that an operator takes.
fn number_of(value: &Value) -> Result<i64, FailKind>
    ensures { result ≡ spec.number_in value.now }
{
    match value {
        Value::Nothing => Err(FailKind::Kind),
        Value::Number(number) => Ok(*number),
        Value::Text(_) => Err(FailKind::Kind),
    }
}

/// 1 for true, 0 for false.
pub fn truth(holds: bool) -> i64
    ensures { result ≡ spec.truth holds }
{
    if holds { 1 } else { 0 }
}

pub fn sum(left: &Value, right: &Value) -> Result<Value, FailKind>
    ensures { result ≡ spec.numbers spec.sum left.now right.now }
{
    let left = number_of(left)?;
    let right = number_of(right)?;
    let number = left.checked_add(right).ok_or(FailKind::Overflow)?;
    Ok(Value::Number(number))
}

pub fn difference(left: &Value, right: &Value) -> Result<Value, FailKind>
    ensures { result ≡ spec.numbers spec.difference left.now right.now }
{
    let left = number_of(left)?;
    let right = number_of(right)?;
    let number = left.checked_sub(right).ok_or(FailKind::Overflow)?;
    Ok(Value::Number(number))
}

pub fn product(left: &Value, right: &Value) -> Result<Value, FailKind>
    ensures { result ≡ spec.numbers spec.product left.now right.now }
{
    let left = number_of(left)?;
    let right = number_of(right)?;
    let number = left.checked_mul(right).ok_or(FailKind::Overflow)?;
    Ok(Value::Number(number))
}

// Rounded towards 0.
fn quotient_of(left: i64, right: i64) -> Result<i64, FailKind>
    ensures { result ≡ spec.quotient left right }
{
    if right == 0 {
        return Err(FailKind::Division);
    }
    left.checked_div(right).ok_or(FailKind::Overflow)
}

pub fn quotient(left: &Value, right: &Value) -> Result<Value, FailKind>
    ensures { result ≡ spec.numbers spec.quotient left.now right.now }
{
    let left = number_of(left)?;
    let right = number_of(right)?;
    let number = quotient_of(left, right)?;
    Ok(Value::Number(number))
}

// With the sign of the left side.
fn remainder_of(left: i64, right: i64) -> Result<i64, FailKind>
    ensures { result ≡ spec.remainder left right }
{
    if right == 0 {
        return Err(FailKind::Division);
    }
    if right == -1 {
        return Ok(0);
    }
    Ok(left % right)
}

pub fn remainder(left: &Value, right: &Value) -> Result<Value, FailKind>
    ensures { result ≡ spec.numbers spec.remainder left.now right.now }
{
    let left = number_of(left)?;
    let right = number_of(right)?;
    let number = remainder_of(left, right)?;
    Ok(Value::Number(number))
}

/// `or`
pub fn either(left: &Value, right: &Value) -> Result<Value, FailKind>
    ensures { result ≡ spec.numbers spec.either left.now right.now }
{
    let left = number_of(left)?;
    let right = number_of(right)?;
    Ok(Value::Number(truth(left != 0 || right != 0)))
}

/// `and`
pub fn both(left: &Value, right: &Value) -> Result<Value, FailKind>
    ensures { result ≡ spec.numbers spec.both left.now right.now }
{
    let left = number_of(left)?;
    let right = number_of(right)?;
    Ok(Value::Number(truth(left != 0 && right != 0)))
}

/// `not`
pub fn opposite(value: &Value) -> Result<Value, FailKind>
    ensures { result ≡ spec.prefix_value Prefix.Not value.now }
{
    let number = number_of(value)?;
    Ok(Value::Number(truth(number == 0)))
}

/// Unary `-`.
pub fn negative(value: &Value) -> Result<Value, FailKind>
    ensures { result ≡ spec.prefix_value Prefix.Minus value.now }
{
    let number = number_of(value)?;
    let number = number.checked_neg().ok_or(FailKind::Overflow)?;
    Ok(Value::Number(number))
}

/// Whether a condition holds.
pub fn condition_of(value: &Value) -> Result<bool, FailKind>
    ensures { result ≡ spec.condition_in value.now }
{
    let number = number_of(value)?;
    Ok(number != 0)
}
