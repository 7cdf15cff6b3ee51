//! The versions of an object, and which of them a read sees.
ghost use Rattle.std.specs.Prelude.{◌≡◌, OnOk, OnErr, Some, true, reverse};
ghost use Rattle.std.specs.Option.{option_copied};
ghost use Rattle.object_history.specs.History.{top};
ghost use Rattle.object_history.specs.Kept as kept;

use crate::maps::Settles;
use pseudo_time::PseudoTime;
use std::alloc::{AllocError, Global};
use std::marker::Model;

/// A version of an object. Its value stands in its mark.
#[derive(Drop)]
pub struct Version {
    /// How many versions of the object were put before it.
    pub place: usize,
    /// How many marks were added before its Put.
    pub mark: usize,
    pub start: PseudoTime,
    /// The last Stretch that fell on it.
    pub end: Option<PseudoTime>,
}

/// The later of a time and of an end.
pub fn later(time: PseudoTime, end: &Option<PseudoTime>) -> PseudoTime
    ensures { Some result ≡ top time end.now }
{
    match end {
        Some(end) if time.is_before(*end) => *end,
        _ => time,
    }
}

// Whether a version with this start is taken in the place of one that was found above it.
fn takes_over(found: Option<&Version>, start: PseudoTime) -> bool
    ensures { result ≡ kept.takes_over (option_copied found.entry) start }
{
    match found {
        Some(found) => found.start.is_before(start),
        None => true,
    }
}

// Whether a version with this start is below the end, if there is one, and isn't dead.
fn is_living(settles: &Settles, end: &Option<PseudoTime>, start: PseudoTime) -> bool
    ensures { result ≡ kept.is_living settles.now end.now start }
{
    let is_below = match end {
        Some(end) => start.is_before(*end),
        None => true,
    };
    is_below && settles.get(start.stamp()).unwrap_or(true)
}

// Whether the start is above the other start, if there is one.
fn is_past(other: &Option<PseudoTime>, start: PseudoTime) -> bool
    ensures { result ≡ kept.is_past other.now start }
{
    match other {
        Some(other) => other.is_before(start),
        None => true,
    }
}

// Whether a version with this start is above the other start, if there is one, and committed.
fn is_firm(settles: &Settles, other: &Option<PseudoTime>, start: PseudoTime) -> bool
    ensures { result ≡ kept.is_firm settles.now other.now start }
{
    is_past(other, start) && settles.get(start.stamp()).unwrap_or(false)
}

// Whether the time is above the start of the last of these versions, if there is one.
fn is_on_top(versions: &[Version], time: PseudoTime) -> bool
    ensures { result ≡ kept.tops (reverse versions.now) time }
{
    match versions.split_last() {
        Some((newest, _)) => newest.start.is_before(time),
        None => true,
    }
}

// The last version that isn't dead, of those that start below the end, if there is one: where starts
// rise, the first that is met from the newest on.
fn newest_living<'a>(
    versions: &'a [Version],
    settles: &Settles,
    end: &Option<PseudoTime>,
) -> Option<&'a Version>
    requires { kept.rising (reverse versions.now) ≡ true }
    ensures { option_copied result ≡ kept.last_of (kept.is_living settles.now end.now) (reverse versions.now) }
{
    for version in versions.iter().rev() {
        if is_living(settles, end, version.start) {
            return Some(version);
        }
    }
    None
}

// The same, whatever the order of starts: all versions are looked at.
fn greatest_living<'a>(
    versions: &'a [Version],
    settles: &Settles,
    end: &Option<PseudoTime>,
) -> Option<&'a Version>
    ensures { option_copied result ≡ kept.last_of (kept.is_living settles.now end.now) (reverse versions.now) }
{
    let mut last: Option<&Version> = None;
    for version in versions.iter().rev() {
        if takes_over(last, version.start) && is_living(settles, end, version.start) {
            last = Some(version);
        }
    }
    last
}

/// The versions of one object, oldest first, and how far its origin was read. Contracts see the
/// versions newest first.
#[derive(Drop)]
pub struct Track {
    origin: Option<PseudoTime>,
    versions: Vec<Version>,
    /// Each version starts above the one before it.
    rises: bool,
}

impl Model for Track {
    ghost use Rattle.std.specs.Prelude.{◌≡◌, reverse};
    ghost use Rattle.object_history.specs.Kept.{TrackParts, rising};

    ghost Value = { TrackParts };

    ghost view = { λ t. record { origin = t.origin; versions = reverse t.versions.items } };

    ghost invariant = { λ t. t.rises ≡ rising (reverse t.versions.items) };
}

impl Track {
    ghost use Rattle.object_history.specs.Kept.{empty_track, with_version, with_end, last_of, some_version, rising};

    /// No versions, and an origin that was never read.
    pub fn new(alloc: Global) -> Track
        ensures { result ≡ empty_track }
    {
        Track {
            origin: None,
            versions: Vec::new(alloc),
            rises: true,
        }
    }

    /// Adds a version, by the number of marks before its own. Where memory runs out, the track is
    /// as before.
    pub fn add(&mut self, mark: usize, start: PseudoTime) -> Result<(), AllocError>
        ensures ok { OnOk result (self.new ≡ with_version mark start self.old) }
        ensures err { OnErr result (self.new ≡ self.old) }
    {
        let version = Version {
            place: self.versions.len(),
            mark,
            start,
            end: None,
        };
        let rises = self.rises && is_on_top(self.versions.as_slice(), start);
        self.versions.push(version)?;
        self.rises = rises;
        Ok(())
    }

    /// The last Stretch on the origin.
    pub fn origin(&self) -> Option<PseudoTime>
        ensures { result ≡ self.now.origin }
    {
        self.origin
    }

    /// The versions, oldest first.
    pub fn versions(&self) -> &[Version]
        ensures { reverse result.now ≡ self.now.versions }
    {
        self.versions.as_slice()
    }

    /// Whether each version starts above the one before it.
    pub fn rises(&self) -> bool
        ensures { result ≡ rising self.now.versions }
    {
        self.rises
    }

    /// The last version that isn't dead, of those that start below the end, if there is one.
    pub fn last(&self, settles: &Settles, end: &Option<PseudoTime>) -> Option<&Version>
        ensures { option_copied result ≡ last_of (kept.is_living settles.now end.now) self.now.versions }
    {
        let versions = self.versions.as_slice();
        if self.rises {
            newest_living(versions, settles, end)
        } else {
            greatest_living(versions, settles, end)
        }
    }

    /// Whether a committed version starts above the other start, or there is one at all.
    pub fn has_firm(&self, settles: &Settles, other: &Option<PseudoTime>) -> bool
        ensures { result ≡ some_version (λ v. kept.is_firm settles.now other.now v.start) self.now.versions }
    {
        for version in self.versions.iter().rev() {
            if is_firm(settles, other, version.start) {
                return true;
            }
            if self.rises && !is_past(other, version.start) {
                return false;
            }
        }
        false
    }

    /// The version at this place, or the origin, is now read up to this time.
    pub fn stretch(&mut self, place: Option<usize>, time: PseudoTime)
        ensures { self.new ≡ with_end place time self.old }
    {
        match place {
            None => {
                let end = later(time, &self.origin);
                self.origin = Some(end);
            }
            Some(place) => {
                if place < self.versions.len() {
                    let end = later(time, &self.versions[place].end);
                    self.versions[place].end = Some(end);
                }
            }
        }
    }
}
