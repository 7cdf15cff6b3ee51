//! Prints a script.
ghost use Rattle.std.specs.Prelude.{◌≡◌, IfOk};
ghost use Rattle.value_form.specs.Mirror.{block};
ghost use Rattle.script_form.specs.RowTexts.{script_text};

use crate::script_printer::text_of;
use std::alloc::{AllocError, Global};
use value_form::{Bytes, Script};

/// The canonical text: each statement on its line, with no more spaces and parentheses than its
/// tokens need.
pub fn print(alloc: Global, script: &Script) -> Result<Bytes, AllocError>
    ensures { IfOk result (λ text. text ≡ script_text (block script.now.lines)) }
{
    let text = text_of(alloc, script)?;
    Ok(Bytes::of(text))
}
