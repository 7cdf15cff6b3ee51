//! Lines that tell why a command gave no text.
ghost use Rattle.std.specs.Prelude.{◌≡◌, IfOk};
ghost use Rattle.report_writer.specs.Lines as spec;
ghost use Rattle.report_writer.specs.Reports.{down_text};

use crate::pieces::{push_object, push_time};
use crate::records::Down;
use crate::writing::push_downs;
use pseudo_time::{DownCause, NodeId, PseudoTime};
use std::alloc::{AllocError, Global};
use value_form::{Bytes, ObjectId};

/// The line of an undecided version below the mark.
pub fn undecided_line(
    alloc: Global,
    object: ObjectId,
    start: PseudoTime,
) -> Result<Bytes, AllocError>
    ensures { IfOk result (λ text. text ≡ spec.undecided_line object start) }
{
    let mut text = Vec::new(alloc);
    text.extend_from_slice(b"swallow: undecided ")?;
    push_object(alloc, &mut text, object)?;
    text.push(b' ')?;
    push_time(alloc, &mut text, start)?;
    text.push(b'\n')?;
    Ok(Bytes::of(text))
}

/// The line of a node that is down.
pub fn down_line(alloc: Global, node: NodeId, cause: DownCause) -> Result<Bytes, AllocError>
    ensures { IfOk result (λ text. text ≡ down_text (record { node = node; cause = cause })) }
{
    let mut text = Vec::new(alloc);
    push_downs(alloc, &mut text, &[Down { node, cause }])?;
    Ok(Bytes::of(text))
}
