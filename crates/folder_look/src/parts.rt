//! Texts of parts.
ghost use Rattle.std.specs.Prelude.{◌≡◌, ◌++◌, OnOk};
ghost use Rattle.std.specs.Fmt.{decimal};
ghost use Rattle.value_form.specs.ValueText.{value_text};
ghost use Rattle.page_text.specs.Escapes.{page_text};
ghost use Rattle.folder_look.specs.Pieces as spec;

use page_text::push_text;
use pseudo_time::{PseudoTime, Stamp};
use report_writer::{push_named, push_object, push_stamp, push_time};
use std::alloc::{AllocError, Global};
use value_form::{ObjectId, Value};

/// A part of a text.
#[derive(Clone, Copy)]
pub enum Part<'a> {
    /// The page's own words.
    Words(&'a [u8]),
    Number(u64),
    /// Bytes that mean nothing to the page.
    Text(&'a [u8]),
    Stamp(Stamp),
    Time(PseudoTime),
    Object(ObjectId),
    /// A value as it prints.
    Printed(&'a Value),
}

// Appends a printed value.
fn push_value(alloc: Global, out: &mut Vec<u8>, value: &Value) -> Result<(), AllocError>
    ensures { OnOk result (out.new.items ≡ out.old.items ++ page_text (value_text value.now)) }
{
    let mut text = Vec::new(alloc);
    value.print(alloc, &mut text)?;
    push_text(out, text.as_slice())
}

// Appends a part.
fn push_part<'a>(alloc: Global, out: &mut Vec<u8>, part: &Part<'a>) -> Result<(), AllocError>
    ensures { OnOk result (out.new.items ≡ out.old.items ++ spec.piece_text (spec.piece_of part.now)) }
{
    match *part {
        Part::Words(words) => out.extend_from_slice(words),
        Part::Number(number) => push_named(alloc, out, b"", number),
        Part::Text(bytes) => push_text(out, bytes),
        Part::Stamp(stamp) => push_stamp(alloc, out, stamp),
        Part::Time(time) => push_time(alloc, out, time),
        Part::Object(object) => push_object(alloc, out, object),
        Part::Printed(value) => push_value(alloc, out, value),
    }
}

/// Appends parts, one after another.
pub fn push_parts<'a>(
    alloc: Global,
    out: &mut Vec<u8>,
    parts: &[Part<'a>],
) -> Result<(), AllocError>
    ensures { OnOk result (out.new.items ≡ out.old.items ++ spec.parts_text parts.now) }
{
    for part in parts {
        push_part(alloc, out, part)?;
    }
    Ok(())
}
