//! The text of all versions of an object.
ghost use Rattle.std.specs.Prelude.{◌≡◌, ◌++◌, IfOk, OnOk};
ghost use Rattle.std.specs.FinMap as finite;
ghost use Rattle.std.specs.List.{flat_map};
ghost use Rattle.report_writer.specs.Histories.{state_text};
ghost use Rattle.archive_command.specs.Lines as lines;
ghost use Rattle.archive_command.specs.Versions as spec;

use crate::archives::{Archived, holding_volume};
use crate::versions::versions_of;
use commit_watch::{Version, settles_of};
use object_history::Settles;
use pseudo_time::PseudoTime;
use report_writer::{push_named, push_object, push_time};
use std::alloc::{AllocError, Global};
use value_form::{Bytes, ObjectId, Value};

// Appends the first line.
fn push_head(alloc: Global, out: &mut Vec<u8>, object: ObjectId) -> Result<(), AllocError>
    ensures { OnOk result (out.new.items ≡ out.old.items ++ lines.audit_head object) }
{
    out.extend_from_slice(b"audit ")?;
    push_object(alloc, out, object)?;
    out.push(b'\n')?;
    Ok(())
}

// Appends how a version stands.
fn push_state(out: &mut Vec<u8>, settled: Option<bool>) -> Result<(), AllocError>
    ensures { OnOk result (out.new.items ≡ out.old.items ++ state_text settled) }
{
    match settled {
        None => out.extend_from_slice(b"undecided"),
        Some(true) => out.extend_from_slice(b"committed"),
        Some(false) => out.extend_from_slice(b"aborted"),
    }
}

// Appends which volume has a version.
fn push_volume(alloc: Global, out: &mut Vec<u8>, volume: Option<u32>) -> Result<(), AllocError>
    ensures { OnOk result (out.new.items ≡ out.old.items ++ lines.volume_text volume) }
{
    match volume {
        None => Ok(()),
        Some(volume) => push_named(alloc, out, b" volume ", volume as u64),
    }
}

// Appends where a version starts, and how it stands.
fn push_front(
    alloc: Global,
    out: &mut Vec<u8>,
    start: PseudoTime,
    settled: Option<bool>,
) -> Result<(), AllocError>
    ensures { OnOk result (out.new.items ≡ out.old.items ++ lines.version_front start settled) }
{
    out.extend_from_slice(b"version ")?;
    push_time(alloc, out, start)?;
    out.push(b' ')?;
    push_state(out, settled)?;
    out.push(b' ')?;
    Ok(())
}

// Appends the value of a version, and which volume has it, and ends the line.
fn push_back(
    alloc: Global,
    out: &mut Vec<u8>,
    value: &Value,
    volume: Option<u32>,
) -> Result<(), AllocError>
    ensures { OnOk result (out.new.items ≡ out.old.items ++ lines.version_back value.now volume) }
{
    value.print(alloc, out)?;
    push_volume(alloc, out, volume)?;
    out.push(b'\n')?;
    Ok(())
}

// Appends the line of a version.
fn push_version(
    alloc: Global,
    out: &mut Vec<u8>,
    settles: &Settles,
    archived: &Archived,
    version: &Version,
) -> Result<(), AllocError>
    ensures { OnOk result (out.new.items ≡ out.old.items ++ spec.told_line
        (λ p. finite.get settles.now p) archived.now.archive archived.now.volumes.items version.now) }
{
    let settled = settles.get(version.start.stamp());
    let volume = holding_volume(archived, version.object, version.start);
    push_front(alloc, out, version.start, settled)?;
    push_back(alloc, out, &version.value, volume)
}

// Appends the lines of versions, in order.
fn push_versions(
    alloc: Global,
    out: &mut Vec<u8>,
    settles: &Settles,
    archived: &Archived,
    versions: &[Version],
) -> Result<(), AllocError>
    ensures { OnOk result (out.new.items ≡ out.old.items ++ flat_map
        (spec.told_line (λ p. finite.get settles.now p) archived.now.archive archived.now.volumes.items) versions.now) }
{
    for version in versions {
        push_version(alloc, out, settles, archived, version)?;
    }
    Ok(())
}

/// The text of all versions of the object in the archive. It costs a walk over the logs for each of them.
pub fn audit_text(alloc: Global, object: ObjectId, archived: &Archived) -> Result<Bytes, AllocError>
    ensures { IfOk result (λ text. text ≡ spec.archive_text object archived.now.archive archived.now.volumes.items) }
{
    let marks = archived.archive.joined()?;
    let settles = settles_of(alloc, marks.as_slice())?;
    let versions = versions_of(alloc, object, marks.as_slice())?;
    let mut out = Vec::new(alloc);
    push_head(alloc, &mut out, object)?;
    push_versions(alloc, &mut out, &settles, archived, versions.as_slice())?;
    Ok(Bytes::of(out))
}
