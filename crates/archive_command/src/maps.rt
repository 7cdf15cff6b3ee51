//! The text of the map as of a mark.
ghost use Rattle.std.specs.Prelude.{◌≡◌, ◌++◌, IfOk, OnOk, codes};
ghost use Rattle.std.specs.List.{flat_map};
ghost use Rattle.report_writer.specs.Parts.{access_text};
ghost use Rattle.archive_command.specs.Lines as spec;

use commit_watch::Moved;
use pseudo_time::PseudoTime;
use report_writer::{push_named, push_object, push_time};
use std::alloc::{AllocError, Global};
use value_form::{Bytes, ObjectId, Value};

/// Appends the mark, and ends the line.
pub fn push_mark(alloc: Global, out: &mut Vec<u8>, mark: PseudoTime) -> Result<(), AllocError>
    ensures { OnOk result (out.new.items ≡ out.old.items ++ spec.mark_text mark) }
{
    out.extend_from_slice(b" mark ")?;
    push_time(alloc, out, mark)?;
    out.push(b'\n')?;
    Ok(())
}

// Appends the first line.
fn push_head(
    alloc: Global,
    out: &mut Vec<u8>,
    repository: u8,
    mark: PseudoTime,
) -> Result<(), AllocError>
    ensures { OnOk result (out.new.items ≡ out.old.items ++ spec.asof_head repository mark) }
{
    push_named(alloc, out, b"asof repository ", repository as u64)?;
    push_mark(alloc, out, mark)?;
    Ok(())
}

// Appends the line of an object with a value that isn't Nothing.
fn push_line(
    alloc: Global,
    out: &mut Vec<u8>,
    object: ObjectId,
    value: &Value,
) -> Result<(), AllocError>
    ensures { OnOk result (out.new.items ≡ out.old.items ++ access_text (codes "value ") object value.now) }
{
    out.extend_from_slice(b"value ")?;
    push_object(alloc, out, object)?;
    out.push(b' ')?;
    value.print(alloc, out)?;
    out.push(b'\n')?;
    Ok(())
}

// Appends the line of an object, where its value isn't Nothing.
fn push_moved(alloc: Global, out: &mut Vec<u8>, moved: &Moved<Value>) -> Result<(), AllocError>
    ensures { OnOk result (out.new.items ≡ out.old.items ++ spec.moved_line moved.now) }
{
    match &moved.total {
        Value::Nothing => Ok(()),
        Value::Number(_) => push_line(alloc, out, moved.object, &moved.total),
        Value::Text(_) => push_line(alloc, out, moved.object, &moved.total),
    }
}

/// Appends the lines of objects.
pub fn push_values(
    alloc: Global,
    out: &mut Vec<u8>,
    list: &[Moved<Value>],
) -> Result<(), AllocError>
    ensures { OnOk result (out.new.items ≡ out.old.items ++ flat_map spec.moved_line list.now) }
{
    for moved in list {
        push_moved(alloc, out, moved)?;
    }
    Ok(())
}

/// The text of the map as of the mark, which has this list.
pub fn asof_text(
    alloc: Global,
    repository: u8,
    mark: PseudoTime,
    list: &[Moved<Value>],
) -> Result<Bytes, AllocError>
    ensures { IfOk result (λ text. text ≡ spec.asof_text repository mark list.now) }
{
    let mut out = Vec::new(alloc);
    push_head(alloc, &mut out, repository, mark)?;
    push_values(alloc, &mut out, list)?;
    Ok(Bytes::of(out))
}
