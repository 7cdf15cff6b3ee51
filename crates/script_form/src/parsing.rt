//! Reads a script.
ghost use Rattle.std.specs.Prelude.{◌≡◌};
ghost use Rattle.script_form.specs.Lines.{lines};
ghost use Rattle.script_form.specs.Parses.{Parses};

use crate::line_splits::first_line;
use crate::parse_faults::ParseFault;
use crate::readers::ScriptReader;
use std::alloc::Global;
use value_form::Script;

/// The script that the bytes are, whose objects have the repositories from 1 to 16.
pub fn parse(alloc: Global, bytes: &[u8]) -> Result<Script, ParseFault>
    ensures { Parses 16 (lines bytes.now) result }
{
    let mut reader = ScriptReader::new(alloc, 16);
    let mut rest = bytes;
    while !rest.is_empty() {
        let (line, after) = first_line(rest);
        reader = match reader.feed(alloc, line) {
            Ok(next) => next,
            Err(fault) => return Err(fault),
        };
        rest = after;
    }
    reader.end()
}
