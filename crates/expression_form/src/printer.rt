//! Prints expressions.
ghost use Rattle.std.specs.Prelude.{◌≡◌, ◌+◌, ◌++◌, OnOk, OnErr};
ghost use Rattle.value_form.specs.Mirror.{term};
ghost use Rattle.value_form.specs.TextForm.{quoted_text};
ghost use Rattle.token_form.specs.Tokens.{spelling};
ghost use Rattle.expression_form.specs.Canonical.{is_looser};
ghost use Rattle.expression_form.specs.Grammar.{level_of};
ghost use Rattle.expression_form.specs.Levels.{infix_level, infix_token, call_token};
ghost use Rattle.expression_form.specs.Texts as spec;

use crate::operators::{left_of, level_before, level_of};
use std::alloc::{AllocError, Global};
use value_form::{Bytes, Call, Expr, Infix, Prefix, Value};

// Room for the text of a short expression, so that it needn't grow.
const ROOM: usize = 32;

// The level of an expression without parentheses.
fn level(expression: &Expr) -> u8
    ensures { result ≡ level_of (term expression.now) }
{
    match expression {
        Expr::Prefix(operator, _) => level_before(*operator),
        Expr::Infix(operator, _, _) => level_of(*operator),
        _ => 7,
    }
}

fn infix_text(operator: Infix) -> &'static [u8]
    ensures { result.now ≡ spelling (infix_token operator) }
{
    match operator {
        Infix::Or => b"or",
        Infix::And => b"and",
        Infix::Equal => b"=",
        Infix::NotEqual => b"<>",
        Infix::Less => b"<",
        Infix::LessEqual => b"<=",
        Infix::Greater => b">",
        Infix::GreaterEqual => b">=",
        Infix::Add => b"+",
        Infix::Subtract => b"-",
        Infix::Join => b"&",
        Infix::Multiply => b"*",
        Infix::Divide => b"/",
        Infix::Modulo => b"mod",
    }
}

fn prefix_text(operator: Prefix) -> &'static [u8]
    ensures { result.now ≡ spec.prefix_text operator }
{
    match operator {
        Prefix::Not => b"not ",
        Prefix::Minus => b"-",
    }
}

fn call_text(function: Call) -> &'static [u8]
    ensures { result.now ≡ spelling (call_token function) }
{
    match function {
        Call::Len => b"len",
        Call::Text => b"text",
    }
}

fn put(out: &mut Vec<u8>, bytes: &[u8]) -> Result<(), AllocError>
    ensures { OnOk result (out.new.items ≡ out.old.items ++ bytes.now) }
{
    out.extend_from_slice(bytes)
}

// A text is printed as the value that it is.
fn put_text(alloc: Global, out: &mut Vec<u8>, content: &Bytes) -> Result<(), AllocError>
    ensures { OnOk result (out.new.items ≡ out.old.items ++ quoted_text content.now) }
{
    let value = Value::Text(content.copy(alloc)?);
    value.print(alloc, out)
}

// An operand, in parentheses where its level is below the least.
#[cycle(printing)]
fn put_operand(
    alloc: Global,
    out: &mut Vec<u8>,
    operand: &Expr,
    least: u8,
) -> Result<(), AllocError>
    ensures { OnOk result (out.new.items ≡ out.old.items ++ spec.parenthesized_if (is_looser (term operand.now) least)
        (spec.text (term operand.now))) }
{
    if level(operand) < least {
        put(out, b"(")?;
        put_expression(alloc, out, operand)?;
        put(out, b")")
    } else {
        put_expression(alloc, out, operand)
    }
}

// The expression without parentheses round it.
#[cycle(printing)]
fn put_expression(alloc: Global, out: &mut Vec<u8>, expression: &Expr) -> Result<(), AllocError>
    ensures { OnOk result (out.new.items ≡ out.old.items ++ spec.text (term expression.now)) }
{
    match expression {
        Expr::Number(number) => {
            let digits = number.to_string(alloc)?;
            put(out, digits.as_bytes())
        }
        Expr::Text(content) => put_text(alloc, out, content),
        Expr::Nothing => put(out, b"nothing"),
        Expr::Name(name) => put(out, name.as_slice()),
        Expr::Prefix(operator, of) => {
            put(out, prefix_text(*operator))?;
            put_operand(alloc, out, of.get(), level_before(*operator))
        }
        Expr::Infix(operator, left, right) => {
            put_operand(alloc, out, left.get(), left_of(*operator))?;
            put(out, b" ")?;
            put(out, infix_text(*operator))?;
            put(out, b" ")?;
            put_operand(alloc, out, right.get(), level_of(*operator) + 1)
        }
        Expr::Call(function, of) => {
            put(out, call_text(*function))?;
            put(out, b"(")?;
            put_expression(alloc, out, of.get())?;
            put(out, b")")
        }
        Expr::Given(first, second) => {
            put(out, b"given(")?;
            put_expression(alloc, out, first.get())?;
            put(out, b", ")?;
            put_expression(alloc, out, second.get())?;
            put(out, b")")
        }
    }
}

/// Appends the canonical text, with exactly the parentheses that the levels of its operators need.
/// Where memory runs out, `out` is as before.
pub fn print_expression(
    alloc: Global,
    out: &mut Vec<u8>,
    expression: &Expr,
) -> Result<(), AllocError>
    ensures ok { OnOk result (out.new.items ≡ out.old.items ++ spec.text (term expression.now)) }
    ensures err { OnErr result (out.new.items ≡ out.old.items) }
{
    let mut text = Vec::with_capacity(alloc, ROOM)?;
    put_expression(alloc, &mut text, expression)?;
    out.extend_from_slice(text.as_slice())
}
