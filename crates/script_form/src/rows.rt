//! The row on a line.
ghost use Rattle.std.specs.Prelude.{◌≡◌, false};
ghost use Rattle.script_form.specs.Lines.{is_blank};
ghost use Rattle.script_form.specs.LineReads.{ReadsLine, ReadsTokens, ReadsRow};

use crate::parse_faults::ParseKind;
use crate::row_faults::RowFault;
use crate::{Flat, read_row};
use expression_form::ReadFault;
use std::alloc::Global;
use token_form::{LineFault, Token, tokens_of};

fn line_tokens(alloc: Global, line: &[u8], greatest: u8) -> Result<Vec<Token>, RowFault>
    ensures { ReadsTokens greatest line.now result }
{
    match tokens_of(alloc, line, greatest) {
        Ok(tokens) => Ok(tokens),
        Err(LineFault::Token) => Err(RowFault::Kind(ParseKind::Token)),
        Err(LineFault::Range) => Err(RowFault::Kind(ParseKind::Range)),
        Err(LineFault::NoMemory) => Err(RowFault::NoMemory),
    }
}

fn tokens_row(alloc: Global, tokens: &[Token]) -> Result<Flat, RowFault>
    ensures { ReadsRow tokens.now result }
{
    match read_row(alloc, tokens) {
        Ok(row) => Ok(row),
        Err(ReadFault::Syntax) => Err(RowFault::Kind(ParseKind::Syntax)),
        Err(ReadFault::Depth) => Err(RowFault::Kind(ParseKind::Depth)),
        Err(ReadFault::NoMemory) => Err(RowFault::NoMemory),
    }
}

// The row that a line spells.
pub fn line_row(alloc: Global, line: &[u8], greatest: u8) -> Result<Flat, RowFault>
    requires { is_blank line.now ≡ false }
    ensures { ReadsLine greatest line.now result }
{
    let tokens = line_tokens(alloc, line, greatest)?;
    tokens_row(alloc, tokens.as_slice())
}
