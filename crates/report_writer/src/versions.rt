//! The versions of an object, as a history shows them.
ghost use Rattle.std.specs.Prelude.{◌≡◌, ◌≤◌, length, IfSome, ◌<◌};
ghost use Rattle.report_writer.specs.Tellings as spec;

use object_history::Settles;
use pseudo_time::PseudoTime;
use value_form::Value;

/// A version of the object whose history is written.
#[derive(Drop)]
pub struct Version {
    pub start: PseudoTime,
    pub value: Value,
    /// The last Stretch that fell on it.
    pub end: Option<PseudoTime>,
}

// Whether a read at this time can see a version with this start: it lies below and isn't dead.
fn is_visible(settles: &Settles, at: PseudoTime, start: PseudoTime) -> bool
    ensures { result ≡ spec.is_visible settles.now at start }
{
    start.is_before(at) && settles.get(start.stamp()).unwrap_or(true)
}

/// The place of the first of these versions that a read at this time can see.
pub fn place_seen(versions: &[Version], settles: &Settles, at: PseudoTime) -> Option<usize>
    ensures place { result ≡ spec.first_place (spec.is_visible settles.now at) versions.now }
    ensures within { IfSome result (λ place. place < length versions.now) }
{
    for (place, version) in versions.iter().enumerate() {
        if is_visible(settles, at, version.start) {
            return Some(place);
        }
    }
    None
}

/// The place for a version with this start among versions that fall.
pub fn place_for(versions: &[Version], start: PseudoTime) -> usize
    ensures place { result ≡ spec.count_above start versions.now }
    ensures within { result ≤ length versions.now }
{
    for (place, version) in versions.iter().enumerate() {
        if !start.is_before(version.start) {
            return place;
        }
    }
    versions.len()
}
