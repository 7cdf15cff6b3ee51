//! The new versions of each object, in order of their starts.
ghost use Rattle.std.specs.Prelude.{◌≡◌, ◌≤◌, ◌+◌, ◌&&◌, ℕ, Some, length, OnOk, true, false, if◌then◌else◌};
ghost use Rattle.std.specs.List.{AllWithin};
ghost use Rattle.std.specs.Prelude.{slice_index_or};
ghost use Rattle.pseudo_time.specs.Order.{lt};
ghost use Rattle.object_history.specs.History.{is_committed, is_settled};
ghost use Rattle.commit_watch.specs.declared.versions.Version.{Version};
ghost use Rattle.commit_watch.specs.Standings as spec;

use crate::puts::Put;
use crate::times::earlier;
use crate::versions::Version;
use pseudo_time::PseudoTime;
use std::alloc::{AllocError, Global};
use std::marker::Model;
use value_form::Value;

// The place behind the last of these versions that doesn't start above.
fn place_for(versions: &[Version], start: PseudoTime) -> usize
    ensures within { result ≤ length versions.now }
    ensures above { AllWithin (λ w. lt start w.start ≡ true) versions.now result (length versions.now) }
    ensures stops { (q : ℕ) (d : Version) → q + 1 ≡ result → lt start (slice_index_or versions.now q d).start ≡ false }
{
    let mut place = versions.len();
    while place > 0 && start.is_before(versions[place - 1].start) {
        place -= 1;
    }
    place
}

// Whether the version is to be folded, where no undecided one lies below.
fn is_folded(put: &Put) -> bool
    ensures { result ≡ (is_committed put.now.settled && put.now.is_wanted) }
{
    match put.settled {
        Some(committed) => committed && put.is_wanted,
        None => false,
    }
}

// The start of the first undecided version, with one version more.
fn first_undecided(undecided: &Option<PseudoTime>, put: &Put) -> Option<PseudoTime>
    ensures { result ≡ (if is_settled put.now.settled then undecided.now else Some
        (spec.earlier put.now.start undecided.now)) }
{
    match put.settled {
        Some(_) => *undecided,
        None => Some(earlier(put.start, undecided)),
    }
}

// Adds a version that is to be folded.
fn add_version(
    versions: &mut Vec<Version>,
    alloc: Global,
    put: &Put,
    value: &Value,
) -> Result<(), AllocError>
    ensures { OnOk result (versions.new.items ≡ spec.version_in
        (record { object = put.now.object; start = put.now.start; value = value.now }) versions.old.items) }
{
    let value = value.copy(alloc)?;
    let place = place_for(versions.as_slice(), put.start);
    versions.insert(
        place,
        Version {
            object: put.object,
            start: put.start,
            value,
        },
    )?;
    Ok(())
}

/// How the versions of an object stand, as far as the marks were read.
#[derive(Drop)]
pub struct Standing {
    /// The committed ones to be folded, in rising start.
    versions: Vec<Version>,
    /// The start of the first undecided one.
    undecided: Option<PseudoTime>,
    /// One above the cursor lies below the floor.
    is_retired: bool,
}

impl Model for Standing {
    ghost use Rattle.commit_watch.specs.Standings.{StandingParts};

    ghost Value = { StandingParts };

    ghost view = { λ s. record { versions = s.versions.items; undecided = s.undecided; is_retired = s.is_retired } };
}

impl Standing {
    /// The object has no versions.
    pub fn new(alloc: Global) -> Standing
        ensures { result ≡ spec.empty_standing }
    {
        Standing {
            versions: Vec::new(alloc),
            undecided: None,
            is_retired: false,
        }
    }

    /// Adds a version with this value.
    pub fn add(&mut self, alloc: Global, put: &Put, value: &Value) -> Result<(), AllocError>
        ensures { OnOk result (self.new ≡ spec.with_version put.now value.now self.old) }
    {
        if is_folded(put) {
            add_version(&mut self.versions, alloc, put, value)?;
        }
        self.undecided = first_undecided(&self.undecided, put);
        self.is_retired = put.is_lost || self.is_retired;
        Ok(())
    }

    /// The committed versions to be folded.
    pub fn versions(&self) -> &[Version]
        ensures { result.now ≡ self.now.versions }
    {
        self.versions.as_slice()
    }

    /// The start of the first undecided version.
    pub fn undecided(&self) -> Option<PseudoTime>
        ensures { result ≡ self.now.undecided }
    {
        self.undecided
    }

    /// Whether a version above the cursor lies below the floor.
    pub fn is_retired(&self) -> bool
        ensures { result ≡ self.now.is_retired }
    {
        self.is_retired
    }
}
