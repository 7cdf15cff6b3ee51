//! What became of the versions of a repository between two of its logs.
ghost use Rattle.std.specs.Prelude.{◌≡◌, ◌++◌, IfOk, OnOk, length};
ghost use Rattle.std.specs.List.{filter};
ghost use Rattle.settle_report.specs.Versions as spec;

use crate::versions::{HeldVersion, versions_of};
use effect_form::Effect;
use forward_copy::settles_of;
use object_history::Settles;
use std::alloc::{AllocError, Global};

/// How many versions of a repository a settle settled as committed and as aborted, and how many are open.
#[derive(Clone, Copy, Debug, PartialEq, Eq)]
pub struct Tally {
    pub committed: u64,
    pub aborted: u64,
    pub undecided: u64,
}

// Whether an attempt wasn't known before, and is known as this now.
fn becomes(committed: bool, before: Option<bool>, now: Option<bool>) -> bool
    ensures { result ≡ spec.becomes committed before now }
{
    match before {
        Some(_) => false,
        None => match now {
            Some(decision) => decision == committed,
            None => false,
        },
    }
}

// How many of these versions were settled so between two logs.
fn settled_count(committed: bool, was: &Settles, is: &Settles, versions: &[HeldVersion]) -> u64
    ensures { result ≡ length (filter (spec.is_settled_between committed was.now is.now) versions.now) }
{
    let mut count = 0;
    for version in versions {
        let stamp = version.start.stamp();
        if becomes(committed, was.get(stamp), is.get(stamp)) {
            count += 1;
        }
    }
    count
}

// Adds those of these versions that a log leaves open. The answer is how many these are.
fn add_open(
    is: &Settles,
    versions: &[HeldVersion],
    undecided: &mut Vec<HeldVersion>,
) -> Result<u64, AllocError>
    ensures count { IfOk result (λ n. n ≡ length (filter (spec.is_open_by is.now) versions.now)) }
    ensures added { OnOk result (undecided.new.items ≡ undecided.old.items ++ filter (spec.is_open_by is.now) versions.now) }
{
    let mut count = 0;
    for version in versions {
        if is.get(version.start.stamp()).is_none() {
            undecided.push(*version)?;
            count += 1;
        }
    }
    Ok(count)
}

/// What became of the versions of a repository's log, by the one before. The versions that are open are
/// appended to the list.
pub fn tally_of(
    alloc: Global,
    before: &[Effect],
    after: &[Effect],
    undecided: &mut Vec<HeldVersion>,
) -> Result<Tally, AllocError>
    ensures tally { IfOk result (λ t. t ≡ spec.tally_of before.now after.now) }
    ensures undecided { OnOk result (undecided.new.items ≡ undecided.old.items ++ spec.open_in after.now) }
{
    let versions = versions_of(alloc, after)?;
    let first = settles_of(alloc, before)?;
    let last = settles_of(alloc, after)?;
    let count = add_open(&last, versions.as_slice(), undecided)?;
    Ok(Tally {
        committed: settled_count(true, &first, &last, versions.as_slice()),
        aborted: settled_count(false, &first, &last, versions.as_slice()),
        undecided: count,
    })
}
