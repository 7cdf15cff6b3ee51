//! Prints the rows of a script.
ghost use Rattle.std.specs.Prelude.{◌≡◌, ◌+◌, ◌-◌, [], ◌∷◌, ◌++◌, replicate, IfOk, OnOk, OnErr};
ghost use Rattle.value_form.specs.Mirror.{block, plain};
ghost use Rattle.script_form.specs.RowTexts.{Prints, line_text, script_text};
ghost use Rattle.script_form.specs.Rows.{rows, step_rows};

use crate::row_printer::{put_if, put_let, put_print, put_read, put_repeat, put_write};
use std::alloc::{AllocError, Global};
use value_form::{Script, Stmt};

// Room for the text of a short script or row, so that it needn't grow.
const ROOM: usize = 64;

// Ends the lines before this one, where next is the line that comes next.
fn end_lines(out: &mut Vec<u8>, next: u32, line: u32) -> Result<(), AllocError>
    ensures { OnOk result (out.new.items ≡ out.old.items ++ replicate (line - next) 10) }
{
    let mut at = next;
    'lines: while at < line {
        out.push(b'\n')?;
        at += 1;
    }
    Ok(())
}

// A row on its line. Gives the line that comes next.
fn put_line(out: &mut Vec<u8>, next: u32, line: u16, row: &[u8]) -> Result<u32, AllocError>
    ensures text { OnOk result (out.new.items ≡ out.old.items ++ line_text next line row.now) }
    ensures next { IfOk result (λ n. n ≡ line + 1) }
{
    end_lines(out, next, line as u32)?;
    out.extend_from_slice(row)?;
    out.push(b'\n')?;
    Ok(line as u32 + 1)
}

// The rows of a part. Gives the line that comes next.
#[cycle(printing)]
fn put_all(alloc: Global, out: &mut Vec<u8>, next: u32, part: &[Stmt]) -> Result<u32, AllocError>
    ensures { IfOk result (λ after. Prints (rows (block part.now)) next out.old.items after out.new.items) }
{
    let mut after = next;
    'part: for stmt in part {
        after = put_one(alloc, out, after, stmt)?;
    }
    Ok(after)
}

// The rows of a statement. Gives the line that comes next.
#[cycle(printing)]
fn put_one(alloc: Global, out: &mut Vec<u8>, next: u32, stmt: &Stmt) -> Result<u32, AllocError>
    ensures { IfOk result (λ after. Prints (step_rows (plain stmt.now)) next out.old.items after out.new.items) }
{
    let mut row = Vec::with_capacity(alloc, ROOM)?;
    match stmt {
        Stmt::Let(line, name, value) => {
            put_let(alloc, &mut row, name, value)?;
            put_line(out, next, *line, row.as_slice())
        }
        Stmt::Read(line, name, place) => {
            put_read(alloc, &mut row, name, place)?;
            put_line(out, next, *line, row.as_slice())
        }
        Stmt::Write(line, place, value) => {
            put_write(alloc, &mut row, place, value)?;
            put_line(out, next, *line, row.as_slice())
        }
        Stmt::Print(line, value) => {
            put_print(alloc, &mut row, value)?;
            put_line(out, next, *line, row.as_slice())
        }
        Stmt::If(line, condition, part, end) => {
            put_if(alloc, &mut row, condition)?;
            let after = put_line(out, next, *line, row.as_slice())?;
            let after = put_all(alloc, out, after, part.as_slice())?;
            put_line(out, after, *end, b"end")
        }
        Stmt::IfElse(line, condition, part, middle, other, end) => {
            put_if(alloc, &mut row, condition)?;
            let after = put_line(out, next, *line, row.as_slice())?;
            let after = put_all(alloc, out, after, part.as_slice())?;
            let after = put_line(out, after, *middle, b"else")?;
            let after = put_all(alloc, out, after, other.as_slice())?;
            put_line(out, after, *end, b"end")
        }
        Stmt::Repeat(line, count, part, end) => {
            put_repeat(alloc, &mut row, count)?;
            let after = put_line(out, next, *line, row.as_slice())?;
            let after = put_all(alloc, out, after, part.as_slice())?;
            put_line(out, after, *end, b"end")
        }
        Stmt::Withdraw(line) => put_line(out, next, *line, b"withdraw"),
    }
}

/// The canonical text of a script: each statement on its line, and empty lines before where nothing
/// stands.
pub(crate) fn text_of(alloc: Global, script: &Script) -> Result<Vec<u8>, AllocError>
    ensures { IfOk result (λ text. text.items ≡ script_text (block script.now.lines)) }
{
    let mut text = Vec::with_capacity(alloc, ROOM)?;
    put_all(alloc, &mut text, 1, script.lines.as_slice())?;
    Ok(text)
}

/// Appends the canonical text of a script: each statement on its line, and empty lines before where
/// nothing stands. Where memory runs out, `out` is as before.
pub fn print_script(alloc: Global, out: &mut Vec<u8>, script: &Script) -> Result<(), AllocError>
    ensures ok { OnOk result (out.new.items ≡ out.old.items ++ script_text (block script.now.lines)) }
    ensures err { OnErr result (out.new.items ≡ out.old.items) }
{
    let text = text_of(alloc, script)?;
    out.extend_from_slice(text.as_slice())
}
