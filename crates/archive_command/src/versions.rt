//! The versions of an object.
ghost use Rattle.std.specs.Prelude.{◌≡◌, ◌≤◌, ◌∷◌, List, IfOk, OnOk, length, reverse};
ghost use Rattle.object_history.specs.declared.marks.Mark.{Mark};
ghost use Rattle.archive_command.specs.Versions as spec;

use commit_watch::Version;
use object_history::Mark;
use pseudo_time::PseudoTime;
use std::alloc::{AllocError, Global};
use value_form::ObjectId;

// The place behind the versions at the front that start no later.
fn place_behind(versions: &[Version], start: PseudoTime) -> usize
    ensures place { result ≡ spec.count_until start versions.now }
    ensures within { result ≤ length versions.now }
{
    for (place, version) in versions.iter().enumerate() {
        if start.is_before(version.start) {
            return place;
        }
    }
    versions.len()
}

// Adds a version behind those that start no later.
fn put_version(versions: &mut Vec<Version>, version: Version) -> Result<(), AllocError>
    ensures { OnOk result (versions.new.items ≡ spec.with_version version versions.old.items) }
{
    let place = place_behind(versions.as_slice(), version.start);
    versions.insert(place, version)?;
    Ok(())
}

// Adds the version that the mark puts, where it is one of the object.
#[tactic(auto, unfolding(object_history::specs::Settled::listed))]
fn add_version(
    alloc: Global,
    versions: &mut Vec<Version>,
    object: ObjectId,
    mark: &Mark,
) -> Result<(), AllocError>
    ensures { (m : List Mark) → versions.old.items ≡ spec.versions_of object m →
        OnOk result (versions.new.items ≡ spec.versions_of object (mark.now ∷ m)) }
{
    match mark {
        Mark::Put(name, start, value) => {
            if *name != object {
                return Ok(());
            }
            let value = value.copy(alloc)?;
            put_version(
                versions,
                Version {
                    object,
                    start: *start,
                    value,
                },
            )
        }
        Mark::Stretch(_, _) => Ok(()),
        Mark::Settle(_, _) => Ok(()),
        Mark::Floor(_) => Ok(()),
    }
}

/// The versions of the object among the marks, which stand oldest first, in rising order of start; of equal
/// starts the marks' order counts.
#[tactic(auto, unfolding(object_history::specs::Settled::listed))]
pub fn versions_of(
    alloc: Global,
    object: ObjectId,
    marks: &[Mark],
) -> Result<Vec<Version>, AllocError>
    ensures { IfOk result (λ versions. versions.items ≡ spec.versions_of object (reverse marks.now)) }
{
    let mut versions = Vec::new(alloc);
    for mark in marks {
        add_version(alloc, &mut versions, object, mark)?;
    }
    Ok(versions)
}
