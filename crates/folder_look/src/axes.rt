//! The columns of the page: the pseudotimes at which something starts or ends.
ghost use Rattle.std.specs.Prelude.{◌≡◌, ◌≤◌, [], OnOk, IfOk};
ghost use Rattle.folder_look.specs.Axes as spec;

use crate::looks::{ObjectRow, VersionRow};
use pseudo_time::{PseudoTime, Stamp};
use std::alloc::{AllocError, Global};
use std::collections::BTreeSet;

// Adds the stamp of an end, if there is one.
fn add_end(axis: &mut BTreeSet<Stamp>, end: &Option<PseudoTime>) -> Result<(), AllocError>
    ensures { OnOk result (axis.new.keys ≡ spec.with_end axis.old.keys end.now) }
{
    match end {
        None => Ok(()),
        Some(end) => {
            axis.insert(end.stamp())?;
            Ok(())
        }
    }
}

// Adds the stamps of a version's start and end.
fn add_version(axis: &mut BTreeSet<Stamp>, version: &VersionRow) -> Result<(), AllocError>
    ensures { OnOk result (axis.new.keys ≡ spec.with_version axis.old.keys version.now) }
{
    axis.insert(version.start.stamp())?;
    add_end(axis, &version.end)
}

// Adds the stamps of versions.
fn add_versions(axis: &mut BTreeSet<Stamp>, versions: &[VersionRow]) -> Result<(), AllocError>
    ensures { OnOk result (axis.new.keys ≡ spec.with_versions axis.old.keys versions.now) }
{
    for version in versions {
        add_version(axis, version)?;
    }
    Ok(())
}

// Adds the stamps of an object's origin and versions.
fn add_row(axis: &mut BTreeSet<Stamp>, row: &ObjectRow) -> Result<(), AllocError>
    ensures { OnOk result (axis.new.keys ≡ spec.with_row axis.old.keys row.now) }
{
    add_end(axis, &row.origin)?;
    add_versions(axis, row.versions.as_slice())
}

/// The stamps that rows show, in order.
pub fn axis_of(alloc: Global, rows: &[ObjectRow]) -> Result<BTreeSet<Stamp>, AllocError>
    ensures { IfOk result (λ axis. axis.keys ≡ spec.axis_of rows.now) }
{
    let mut axis = BTreeSet::new(alloc);
    for row in rows {
        add_row(&mut axis, row)?;
    }
    Ok(axis)
}

/// The column of a stamp.
pub fn column(axis: &BTreeSet<Stamp>, stamp: Stamp) -> u64
    ensures value { result ≡ spec.column axis.now.keys stamp }
    ensures most { result ≤ 1000000 }
{
    let mut count = 0u64;
    for other in axis {
        if *other < stamp && count < 1_000_000 {
            count += 1;
        }
    }
    count
}
