//! Prints a row.
ghost use Rattle.std.specs.Prelude.{◌≡◌, ◌∷◌, ◌++◌, OnOk, OnErr};
ghost use Rattle.value_form.specs.Mirror.{spot, term};
ghost use Rattle.expression_form.specs.Texts.{text};
ghost use Rattle.script_form.specs.Flats.{row_of};
ghost use Rattle.script_form.specs.Row as r;
ghost use Rattle.script_form.specs.RowTexts.{row_text, spot_text};

use crate::flats::Flat;
use expression_form::print_expression;
use std::alloc::{AllocError, Global};
use value_form::{Bytes, Expr, Target};

// An object.
fn put_place(alloc: Global, out: &mut Vec<u8>, place: &Target) -> Result<(), AllocError>
    ensures { OnOk result (out.new.items ≡ out.old.items ++ spot_text (spot place.now)) }
{
    match place {
        Target::Fixed(object) => {
            let repository = object.repository.to_string(alloc)?;
            let number = object.number.to_string(alloc)?;
            out.extend_from_slice(repository.as_bytes())?;
            out.push(b'.')?;
            out.extend_from_slice(number.as_bytes())
        }
        Target::At(repository, number) => {
            let repository = repository.to_string(alloc)?;
            out.extend_from_slice(repository.as_bytes())?;
            out.push(b'[')?;
            print_expression(alloc, out, number)?;
            out.push(b']')?;
            Ok(())
        }
    }
}

// A word with its space, and an expression.
fn put_worded(alloc: Global, out: &mut Vec<u8>, word: &[u8], value: &Expr) -> Result<(), AllocError>
    ensures { OnOk result (out.new.items ≡ out.old.items ++ (word.now ++ text (term value.now))) }
{
    out.extend_from_slice(word)?;
    print_expression(alloc, out, value)
}

/// Appends `let NAME = E`.
pub fn put_let(
    alloc: Global,
    out: &mut Vec<u8>,
    name: &Bytes,
    value: &Expr,
) -> Result<(), AllocError>
    ensures { OnOk result (out.new.items ≡ out.old.items ++ row_text (r.Let name.now (term value.now))) }
{
    out.extend_from_slice(b"let ")?;
    out.extend_from_slice(name.as_slice())?;
    put_worded(alloc, out, b" = ", value)
}

/// Appends `read NAME OBJECT`.
pub fn put_read(
    alloc: Global,
    out: &mut Vec<u8>,
    name: &Bytes,
    place: &Target,
) -> Result<(), AllocError>
    ensures { OnOk result (out.new.items ≡ out.old.items ++ row_text (r.Read name.now (spot place.now))) }
{
    out.extend_from_slice(b"read ")?;
    out.extend_from_slice(name.as_slice())?;
    out.push(b' ')?;
    put_place(alloc, out, place)
}

/// Appends `write OBJECT E`.
pub fn put_write(
    alloc: Global,
    out: &mut Vec<u8>,
    place: &Target,
    value: &Expr,
) -> Result<(), AllocError>
    ensures { OnOk result (out.new.items ≡ out.old.items ++ row_text (r.Write (spot place.now) (term value.now))) }
{
    out.extend_from_slice(b"write ")?;
    put_place(alloc, out, place)?;
    put_worded(alloc, out, b" ", value)
}

/// Appends `print E`.
pub fn put_print(alloc: Global, out: &mut Vec<u8>, value: &Expr) -> Result<(), AllocError>
    ensures { OnOk result (out.new.items ≡ out.old.items ++ row_text (r.Print (term value.now))) }
{
    put_worded(alloc, out, b"print ", value)
}

/// Appends `if E`.
pub fn put_if(alloc: Global, out: &mut Vec<u8>, condition: &Expr) -> Result<(), AllocError>
    ensures { OnOk result (out.new.items ≡ out.old.items ++ row_text (r.If (term condition.now))) }
{
    put_worded(alloc, out, b"if ", condition)
}

/// Appends `repeat E`.
pub fn put_repeat(alloc: Global, out: &mut Vec<u8>, count: &Expr) -> Result<(), AllocError>
    ensures { OnOk result (out.new.items ≡ out.old.items ++ row_text (r.Repeat (term count.now))) }
{
    put_worded(alloc, out, b"repeat ", count)
}

fn put_row(alloc: Global, out: &mut Vec<u8>, flat: &Flat) -> Result<(), AllocError>
    ensures { OnOk result (out.new.items ≡ out.old.items ++ row_text (row_of flat.now)) }
{
    match flat {
        Flat::Let(name, value) => put_let(alloc, out, name, value),
        Flat::Read(name, place) => put_read(alloc, out, name, place),
        Flat::Write(place, value) => put_write(alloc, out, place, value),
        Flat::Print(value) => put_print(alloc, out, value),
        Flat::If(condition) => put_if(alloc, out, condition),
        Flat::Else => out.extend_from_slice(b"else"),
        Flat::End => out.extend_from_slice(b"end"),
        Flat::Repeat(count) => put_repeat(alloc, out, count),
        Flat::Withdraw => out.extend_from_slice(b"withdraw"),
    }
}

/// Appends the canonical text of what stands on a line, without the line's end. Where memory
/// runs out, `out` is as before.
pub fn print_row(alloc: Global, out: &mut Vec<u8>, flat: &Flat) -> Result<(), AllocError>
    ensures ok { OnOk result (out.new.items ≡ out.old.items ++ row_text (row_of flat.now)) }
    ensures err { OnErr result (out.new.items ≡ out.old.items) }
{
    let mut text = Vec::new(alloc);
    put_row(alloc, &mut text, flat)?;
    out.extend_from_slice(text.as_slice())
}
