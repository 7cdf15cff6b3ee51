//! Texts that are kept up to one byte more than a plan may have.
ghost use Rattle.std.specs.Prelude.{◌≡◌, ◌++◌, ◌∷◌, [], ◌↔◌, List, ℕ, IsTrue, OnOk};
ghost use Rattle.session_command.specs.Kept.{IsIdle, IsKept};

use script_form::is_blank;
use session_form::stripped;
use std::alloc::AllocError;

/// The most bytes that a plan has.
const PLAN_BYTES: usize = 4_194_304;

/// Adds a byte to a text, unless the text is longer than a plan already.
pub fn keep_byte(text: &mut Vec<u8>, byte: u8) -> Result<(), AllocError>
    ensures { OnOk result ((whole : List ℕ) → IsKept text.old.items whole →
        IsKept text.new.items (whole ++ byte ∷ [])) }
{
    if text.len() <= PLAN_BYTES {
        text.push(byte)?;
    }
    Ok(())
}

// Adds bytes to a text, unless the text is longer than a plan already.
fn keep_bytes(text: &mut Vec<u8>, bytes: &[u8]) -> Result<(), AllocError>
    ensures { OnOk result ((whole all : List ℕ) → IsKept text.old.items whole → IsKept bytes.now all →
        IsKept text.new.items (whole ++ all)) }
{
    if text.len() > PLAN_BYTES {
        return Ok(());
    }
    text.extend_from_slice(bytes)
}

/// Adds a line and its end to a text, unless the text is longer than a plan already.
pub fn keep_line(text: &mut Vec<u8>, line: &[u8]) -> Result<(), AllocError>
    ensures { OnOk result ((whole all : List ℕ) → IsKept text.old.items whole → IsKept line.now all →
        IsKept text.new.items (whole ++ (all ++ 10 ∷ []))) }
{
    keep_bytes(text, line)?;
    keep_byte(text, b'\n')?;
    Ok(())
}

/// Whether a line is blank or a comment, and no longer than a plan may be.
pub fn is_idle(line: &[u8]) -> bool
    ensures { IsTrue result ↔ IsIdle line.now }
{
    line.len() <= PLAN_BYTES && is_blank(stripped(line))
}
