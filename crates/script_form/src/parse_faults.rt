//! Why a text is no script.
use std::alloc::AllocError;

/// What is wrong with a line of a script.
#[derive(Clone, Copy, Debug, PartialEq, Eq)]
pub enum ParseKind {
    /// The line isn't a list of tokens.
    Token,
    /// A number, text, name or object is outside its limit.
    Range,
    /// The tokens are no statement.
    Syntax,
    /// `else` or `end` without its opening, a second `else`, or a block left open.
    Block,
    /// An expression or a block is deeper than 16.
    Depth,
    /// The line is past line 200, or the canonical text passes 3,900 bytes with it.
    Size,
}

/// Why a text is no script.
#[derive(Clone, Copy, Debug, PartialEq, Eq)]
pub enum ParseFault {
    /// The first line, counted from 1, such that the lines up to it begin no script. For a block
    /// that is left open it is the line after the last.
    Fault { line: u32, kind: ParseKind },
    NoMemory,
}

impl From<AllocError> for ParseFault {
    ghost use Rattle.std.specs.Prelude.{◌≡◌};
    ghost use Rattle.script_form.specs.declared.parse_faults.ParseFault.TheVariants.{NoMemory};

    ghost from_gives = { λ _ fault. fault ≡ NoMemory };

    fn from(_error: AllocError) -> ParseFault {
        ParseFault::NoMemory
    }
}
