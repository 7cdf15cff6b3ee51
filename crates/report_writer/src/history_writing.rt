//! Appends the lines of a history.
ghost use Rattle.std.specs.Prelude.{◌≡◌, ◌++◌, OnOk};
ghost use Rattle.std.specs.List.{flat_map};
ghost use Rattle.report_writer.specs.Histories.{state_text, end_text, head_text};
ghost use Rattle.report_writer.specs.Tellings.{told_line};

use crate::floors::reach;
use crate::versions::Version;
use crate::{push_object, push_time};
use object_history::Settles;
use pseudo_time::PseudoTime;
use std::alloc::{AllocError, Global};
use value_form::ObjectId;

// Appends how a version stands.
fn push_state(out: &mut Vec<u8>, settled: Option<bool>) -> Result<(), AllocError>
    ensures { OnOk result (out.new.items ≡ out.old.items ++ state_text settled) }
{
    match settled {
        None => out.extend_from_slice(b"undecided"),
        Some(true) => out.extend_from_slice(b"committed"),
        Some(false) => out.extend_from_slice(b"aborted"),
    }
}

// Appends how far a version was read, and ends the line.
fn push_end(alloc: Global, out: &mut Vec<u8>, end: &Option<PseudoTime>) -> Result<(), AllocError>
    ensures { OnOk result (out.new.items ≡ out.old.items ++ end_text end.now) }
{
    match end {
        None => out.extend_from_slice(b" end none\n"),
        Some(end) => {
            out.extend_from_slice(b" end ")?;
            push_time(alloc, out, *end)?;
            out.push(b'\n')?;
            Ok(())
        }
    }
}

/// Appends the line of the object, and that of its origin.
pub fn push_head(
    alloc: Global,
    out: &mut Vec<u8>,
    object: ObjectId,
    origin: &Option<PseudoTime>,
) -> Result<(), AllocError>
    ensures { OnOk result (out.new.items ≡ out.old.items ++ head_text object origin.now) }
{
    out.extend_from_slice(b"history ")?;
    push_object(alloc, out, object)?;
    out.extend_from_slice(b"\norigin")?;
    push_end(alloc, out, origin)
}

// Appends the line of a version.
fn push_version(
    alloc: Global,
    out: &mut Vec<u8>,
    settles: &Settles,
    floor: &Option<PseudoTime>,
    version: &Version,
) -> Result<(), AllocError>
    ensures { OnOk result (out.new.items ≡ out.old.items ++ told_line settles.now floor.now version.now) }
{
    out.extend_from_slice(b"version ")?;
    push_time(alloc, out, version.start)?;
    out.push(b' ')?;
    push_state(out, settles.get(version.start.stamp()))?;
    out.push(b' ')?;
    version.value.print(alloc, out)?;
    let end = reach(floor, version);
    push_end(alloc, out, &end)
}

/// Appends the lines of versions, in order.
pub fn push_versions(
    alloc: Global,
    out: &mut Vec<u8>,
    settles: &Settles,
    floor: &Option<PseudoTime>,
    versions: &[Version],
) -> Result<(), AllocError>
    ensures { OnOk result (out.new.items ≡ out.old.items ++ flat_map (told_line settles.now floor.now) versions.now) }
{
    for version in versions {
        push_version(alloc, out, settles, floor, version)?;
    }
    Ok(())
}
