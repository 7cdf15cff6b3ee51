//! The lines of the report.
ghost use Rattle.std.specs.Prelude.{◌≡◌, ◌++◌, OnOk};
ghost use Rattle.std.specs.List.{flat_map};
ghost use Rattle.pseudo_time.specs.Nodes.{repository};
ghost use Rattle.pseudo_time.specs.declared.nodes.NodeId.{NodeId};
ghost use Rattle.trace_report.specs.Reports.{logs_by, nodes_to};
ghost use Rattle.settle_report.specs.Versions.{open_in};
ghost use Rattle.settle_report.specs.Texts as spec;

use crate::ledgers::record_at;
use crate::tallies::{Tally, tally_of};
use crate::versions::HeldVersion;
use commit_record::{RecordState, Records};
use pseudo_time::NodeId;
use report_writer::{push_named, push_object, push_time};
use std::alloc::{AllocError, Global};
use trace_report::log_of;
use world_core::Opened;

/// Appends the first line.
pub fn push_head(alloc: Global, out: &mut Vec<u8>, repositories: u8) -> Result<(), AllocError>
    ensures { OnOk result (out.new.items ≡ out.old.items ++ spec.head_line repositories) }
{
    push_named(alloc, out, b"settle repositories ", repositories as u64)?;
    out.push(b'\n')?;
    Ok(())
}

// Appends the line of a repository.
fn push_tally(alloc: Global, out: &mut Vec<u8>, number: u8, tally: Tally) -> Result<(), AllocError>
    ensures { OnOk result (out.new.items ≡ out.old.items ++ spec.tally_line number tally) }
{
    push_named(alloc, out, b"repository ", number as u64)?;
    push_named(alloc, out, b" committed ", tally.committed)?;
    push_named(alloc, out, b" aborted ", tally.aborted)?;
    push_named(alloc, out, b" open ", tally.undecided)?;
    out.push(b'\n')?;
    Ok(())
}

// Appends the line of a repository by its logs, and to the list its open versions.
fn push_repository(
    alloc: Global,
    out: &mut Vec<u8>,
    undecided: &mut Vec<HeldVersion>,
    number: u8,
    before: &[Opened],
    after: &[Opened],
) -> Result<(), AllocError>
    ensures out { OnOk result (out.new.items ≡ out.old.items ++
        spec.repository_line (logs_by before.now) (logs_by after.now) (repository number)) }
    ensures undecided { OnOk result (undecided.new.items ≡ undecided.old.items ++ open_in (logs_by after.now (repository number))) }
{
    let node = NodeId::repository(number);
    let tally = tally_of(alloc, log_of(before, node), log_of(after, node), undecided)?;
    push_tally(alloc, out, number, tally)
}

/// Appends the lines of repositories 1 to this number, by their logs before and after, and to the list the
/// versions that are open.
pub fn push_repositories(
    alloc: Global,
    out: &mut Vec<u8>,
    undecided: &mut Vec<HeldVersion>,
    repositories: u8,
    before: &[Opened],
    after: &[Opened],
) -> Result<(), AllocError>
    ensures out { OnOk result (out.new.items ≡ out.old.items ++
        flat_map (spec.repository_line (logs_by before.now) (logs_by after.now)) (nodes_to repository repositories)) }
    ensures undecided { OnOk result (undecided.new.items ≡ undecided.old.items ++
        flat_map (λ (n : NodeId). open_in (logs_by after.now n)) (nodes_to repository repositories)) }
{
    for below in 0..repositories {
        push_repository(alloc, out, undecided, below + 1, before, after)?;
    }
    Ok(())
}

// Appends why a version is open, by the record of its attempt at its home.
fn push_why(
    alloc: Global,
    out: &mut Vec<u8>,
    home: u8,
    state: Option<RecordState>,
) -> Result<(), AllocError>
    ensures { OnOk result (out.new.items ≡ out.old.items ++ spec.why_text home state) }
{
    match state {
        Some(RecordState::Unknown { deadline }) => push_named(alloc, out, b" deadline ", deadline),
        Some(RecordState::Decided(_)) => push_named(alloc, out, b" home ", home as u64),
        None => push_named(alloc, out, b" home ", home as u64),
    }
}

// Appends the line of an open version.
fn push_version(
    alloc: Global,
    out: &mut Vec<u8>,
    version: HeldVersion,
    state: Option<RecordState>,
) -> Result<(), AllocError>
    ensures { OnOk result (out.new.items ≡ out.old.items ++ spec.version_line version state) }
{
    out.extend_from_slice(b"open ")?;
    push_object(alloc, out, version.object)?;
    out.push(b' ')?;
    push_time(alloc, out, version.start)?;
    push_why(alloc, out, version.start.stamp().home(), state)?;
    out.push(b'\n')?;
    Ok(())
}

/// Appends the lines of open versions, by the records of the repositories.
pub fn push_open(
    alloc: Global,
    out: &mut Vec<u8>,
    ledgers: &[Records],
    undecided: &[HeldVersion],
) -> Result<(), AllocError>
    ensures { OnOk result (out.new.items ≡ out.old.items ++ flat_map (spec.line_by ledgers.now) undecided.now) }
{
    for version in undecided {
        let state = record_at(ledgers, version.start.stamp());
        push_version(alloc, out, *version, state)?;
    }
    Ok(())
}
