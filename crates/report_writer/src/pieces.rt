//! Appends the parts of which lines are made.
ghost use Rattle.std.specs.Prelude.{◌≡◌, ◌∷◌, [], ◌++◌, OnOk, codes};
ghost use Rattle.value_form.specs.ValueText.{value_text};
ghost use Rattle.report_writer.specs.Parts.{object_text, stamp_text, time_text, access_text, line_text, kind_text};
ghost use Rattle.report_writer.specs.Reports.{named, numbered_line, two_named, refusal_text};

use pseudo_time::{PseudoTime, Stamp};
use std::alloc::{AllocError, Global};
use value_form::{FailKind, Line, ObjectId, Value};

/// Appends a word and a number.
pub fn push_named(
    alloc: Global,
    out: &mut Vec<u8>,
    word: &[u8],
    number: u64,
) -> Result<(), AllocError>
    ensures { OnOk result (out.new.items ≡ out.old.items ++ named word.now number) }
{
    out.extend_from_slice(word)?;
    let digits = number.to_string(alloc)?;
    out.extend_from_slice(digits.as_bytes())
}

// Appends a line of a word and a number.
pub fn push_numbered(
    alloc: Global,
    out: &mut Vec<u8>,
    word: &[u8],
    number: u64,
) -> Result<(), AllocError>
    ensures { OnOk result (out.new.items ≡ out.old.items ++ numbered_line word.now number) }
{
    push_named(alloc, out, word, number)?;
    out.push(b'\n')?;
    Ok(())
}

// Appends two words with a number each.
pub fn push_two(
    alloc: Global,
    out: &mut Vec<u8>,
    first: &[u8],
    one: u64,
    second: &[u8],
    other: u64,
) -> Result<(), AllocError>
    ensures { OnOk result (out.new.items ≡ out.old.items ++ two_named first.now one second.now other) }
{
    push_named(alloc, out, first, one)?;
    push_named(alloc, out, second, other)
}

/// Appends an object.
pub fn push_object(alloc: Global, out: &mut Vec<u8>, object: ObjectId) -> Result<(), AllocError>
    ensures { OnOk result (out.new.items ≡ out.old.items ++ object_text object) }
{
    push_named(alloc, out, b"", object.repository as u64)?;
    push_named(alloc, out, b".", object.number as u64)
}

/// Appends a stamp.
pub fn push_stamp(alloc: Global, out: &mut Vec<u8>, stamp: Stamp) -> Result<(), AllocError>
    ensures { OnOk result (out.new.items ≡ out.old.items ++ stamp_text stamp) }
{
    push_named(alloc, out, b"", stamp.clock())?;
    push_named(alloc, out, b".", stamp.broker() as u64)?;
    push_named(alloc, out, b".", stamp.home() as u64)
}

/// Appends a pseudotime.
pub fn push_time(alloc: Global, out: &mut Vec<u8>, time: PseudoTime) -> Result<(), AllocError>
    ensures { OnOk result (out.new.items ≡ out.old.items ++ time_text time) }
{
    push_stamp(alloc, out, time.stamp())?;
    push_named(alloc, out, b"/", time.step() as u64)
}

// Appends a word, an object and a pseudotime.
pub fn push_refusal(
    alloc: Global,
    out: &mut Vec<u8>,
    word: &[u8],
    object: ObjectId,
    time: PseudoTime,
) -> Result<(), AllocError>
    ensures { OnOk result (out.new.items ≡ out.old.items ++ refusal_text word.now object time) }
{
    out.extend_from_slice(word)?;
    push_object(alloc, out, object)?;
    out.push(b' ')?;
    push_time(alloc, out, time)
}

// Appends a line of a word, an object and a value.
pub fn push_access(
    alloc: Global,
    out: &mut Vec<u8>,
    word: &[u8],
    object: ObjectId,
    value: &Value,
) -> Result<(), AllocError>
    ensures { OnOk result (out.new.items ≡ out.old.items ++ access_text word.now object value.now) }
{
    out.extend_from_slice(word)?;
    push_object(alloc, out, object)?;
    out.push(b' ')?;
    value.print(alloc, out)?;
    out.push(b'\n')?;
    Ok(())
}

// Appends a line of a transcript.
pub fn push_line(alloc: Global, out: &mut Vec<u8>, line: &Line) -> Result<(), AllocError>
    ensures { OnOk result (out.new.items ≡ out.old.items ++ line_text line.now) }
{
    match line {
        Line::Read(object, value) => push_access(alloc, out, b"read ", *object, value),
        Line::Wrote(object, value) => push_access(alloc, out, b"wrote ", *object, value),
        Line::Print(value) => {
            out.extend_from_slice(b"print ")?;
            value.print(alloc, out)?;
            out.push(b'\n')?;
            Ok(())
        }
    }
}

// Appends the word of a kind of failures.
pub fn push_kind(out: &mut Vec<u8>, kind: FailKind) -> Result<(), AllocError>
    ensures { OnOk result (out.new.items ≡ out.old.items ++ kind_text kind) }
{
    match kind {
        FailKind::Overflow => out.extend_from_slice(b"overflow"),
        FailKind::Division => out.extend_from_slice(b"division"),
        FailKind::Kind => out.extend_from_slice(b"kind"),
        FailKind::Long => out.extend_from_slice(b"long"),
        FailKind::Object => out.extend_from_slice(b"object"),
        FailKind::Count => out.extend_from_slice(b"count"),
        FailKind::Budget => out.extend_from_slice(b"budget"),
    }
}
