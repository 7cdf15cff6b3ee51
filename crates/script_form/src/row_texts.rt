//! How many bytes a row takes.
ghost use Rattle.std.specs.Prelude.{◌≡◌, IfOk, length};
ghost use Rattle.script_form.specs.Flats.{row_of};
ghost use Rattle.script_form.specs.RowTexts.{row_text};

use crate::{Flat, print_row};
use std::alloc::{AllocError, Global};

// The bytes of a row's canonical text.
pub fn row_size(alloc: Global, row: &Flat) -> Result<usize, AllocError>
    ensures { IfOk result (λ size. size ≡ length (row_text (row_of row.now))) }
{
    let mut text = Vec::new(alloc);
    print_row(alloc, &mut text, row)?;
    Ok(text.len())
}
