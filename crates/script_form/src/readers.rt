//! Reads a script line by line.
ghost use Rattle.script_form.specs.LineReads.{fault_of};
ghost use Rattle.std.specs.Prelude.{◌≡◌, ◌+◌, ◌≤◌, ℕ, List, SomeIff, []};

use crate::line_splits::is_blank;
use crate::parse_faults::{ParseFault, ParseKind};
use crate::row_faults::RowFault;
use crate::row_texts::row_size;
use crate::rows::line_row;
use crate::{BlockFault, Builder, Flat};
use std::alloc::Global;
use value_form::Script;

const MOST_LINES: u16 = 200;

const MOST_BYTES: usize = 3_900;

/// A reader of the lines of a script, one after another. Where a line doesn't go on the script the
/// reader is let go.
#[derive(Drop)]
pub struct ScriptReader {
    builder: Builder,
    // The greatest repository that an object may have.
    greatest: u8,
    // How many lines it has read.
    lines: u8,
    // The line after the last row.
    next: u16,
    // The bytes of the canonical text so far.
    size: u16,
}

fn fault(line: u16, kind: ParseKind) -> ParseFault
    ensures { result ≡ ParseFault.Fault line kind }
{
    ParseFault::Fault {
        line: line as u32,
        kind,
    }
}

// What is wrong with a line, as a fault of that line.
fn row_fault(line: u16, wrong: RowFault) -> ParseFault
    ensures { result ≡ fault_of line wrong }
{
    match wrong {
        RowFault::Kind(kind) => fault(line, kind),
        RowFault::NoMemory => ParseFault::NoMemory,
    }
}

// The bytes of the canonical text with a row more, and the empty lines before it; None exactly
// where they are over 3,900.
fn grown(size: u16, gap: u16, row: usize) -> Option<u16>
    ensures { SomeIff result (size + gap + row + 1 ≤ 3900) (size + gap + row + 1) }
{
    if row > MOST_BYTES {
        return None;
    }
    let grown = size as usize + gap as usize + row + 1;
    if grown > MOST_BYTES {
        return None;
    }
    Some(grown as u16)
}

impl ScriptReader {
    ghost use Rattle.script_form.specs.Feeds.{HoldsLines, FeedsLine, EndsLines, Passes, Places};
    ghost use Rattle.script_form.specs.Scripts.{LineRow};
    ghost use Rattle.script_form.specs.Flats.{row_of};
    ghost use Rattle.script_form.specs.Rows.{row_depth};

    /// No line so far. Objects have the repositories from 1 to `greatest`.
    pub fn new(alloc: Global, greatest: u8) -> ScriptReader
        ensures lines { HoldsLines [] result }
        ensures greatest { result.greatest ≡ greatest }
    {
        ScriptReader {
            builder: Builder::new(alloc),
            greatest,
            lines: 0,
            next: 1,
            size: 0,
        }
    }

    // With a line that is no statement.
    fn passed(self) -> Result<ScriptReader, ParseFault>
        ensures { Passes self result }
    {
        let at = self.lines as u16 + 1;
        if at > MOST_LINES {
            return Err(fault(at, ParseKind::Size));
        }
        let ScriptReader {
            builder,
            greatest,
            lines: _,
            next,
            size,
        } = self;
        let lines = at as u8;
        Ok(ScriptReader {
            builder,
            greatest,
            lines,
            next,
            size,
        })
    }

    // With a line whose row the builder has taken.
    fn placed(
        builder: Builder,
        greatest: u8,
        at: u16,
        size: Option<u16>,
    ) -> Result<ScriptReader, ParseFault>
        requires { at ≤ 256 }
        ensures { Places builder greatest at size result }
    {
        let Some(size) = size else {
            return Err(fault(at, ParseKind::Size));
        };
        if at > MOST_LINES {
            return Err(fault(at, ParseKind::Size));
        }
        Ok(ScriptReader {
            builder,
            greatest,
            lines: at as u8,
            next: at + 1,
            size,
        })
    }

    // With a line that is this row.
    fn with_row(self, alloc: Global, row: Flat) -> Result<ScriptReader, ParseFault>
        ensures { (before : List (List ℕ)) (line : List ℕ) → HoldsLines before self →
            LineRow self.greatest line (row_of row) → row_depth (row_of row) ≤ 16 →
            FeedsLine self.greatest before line result }
    {
        let at = self.lines as u16 + 1;
        let bytes = row_size(alloc, &row)?;
        let ScriptReader {
            builder,
            greatest,
            lines: _,
            next,
            size,
        } = self;
        let size = grown(size, at.saturating_sub(next), bytes);
        match builder.feed(alloc, at, row) {
            Ok(builder) => ScriptReader::placed(builder, greatest, at, size),
            Err(BlockFault::Block) => Err(fault(at, ParseKind::Block)),
            Err(BlockFault::Depth) => Err(fault(at, ParseKind::Depth)),
            Err(BlockFault::NoMemory) => Err(ParseFault::NoMemory),
        }
    }

    /// Takes the next line, without its end. Where it doesn't go on the script, the fault has its
    /// number among the lines of this reader.
    pub fn feed(self, alloc: Global, line: &[u8]) -> Result<ScriptReader, ParseFault>
        ensures { (before : List (List ℕ)) → HoldsLines before self → FeedsLine self.greatest before line.now result }
    {
        if is_blank(line) {
            return self.passed();
        }
        match line_row(alloc, line, self.greatest) {
            Ok(row) => self.with_row(alloc, row),
            Err(wrong) => Err(row_fault(self.lines as u16 + 1, wrong)),
        }
    }

    /// The script of the lines so far.
    pub fn end(self) -> Result<Script, ParseFault>
        ensures { (lines : List (List ℕ)) → HoldsLines lines self → EndsLines self.greatest lines result }
    {
        let ScriptReader {
            builder,
            greatest: _,
            lines,
            next: _,
            size: _,
        } = self;
        match builder.end() {
            Some(script) => Ok(script),
            None => Err(fault(lines as u16 + 1, ParseKind::Block)),
        }
    }
}
