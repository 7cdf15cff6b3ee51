//! The floor of a log, and how far a version was read above it.
ghost use Rattle.std.specs.Prelude.{◌≡◌, reverse};
ghost use Rattle.object_history.specs.History as history;
ghost use Rattle.repository_log.specs.Logs.{marks};

use crate::versions::Version;
use effect_form::Effect;
use object_history::later;
use pseudo_time::PseudoTime;
use repository_log::floor_with;

/// The floor of a log, whose effects stand oldest first.
pub fn floor_of(effects: &[Effect]) -> Option<PseudoTime>
    ensures { result ≡ history.floor_of (marks (reverse effects.now)) }
{
    let mut floor = None;
    for effect in effects {
        floor = floor_with(floor, effect);
    }
    floor
}

/// The later of two ends, if there are any.
pub fn latest(floor: &Option<PseudoTime>, end: Option<PseudoTime>) -> Option<PseudoTime>
    ensures { result ≡ history.latest floor.now end }
{
    match floor {
        Some(floor) => Some(later(*floor, &end)),
        None => end,
    }
}

/// How far a version was read, over this floor.
pub fn reach(floor: &Option<PseudoTime>, version: &Version) -> Option<PseudoTime>
    ensures { result ≡ history.latest floor.now (history.top version.now.start version.now.end) }
{
    latest(floor, Some(later(version.start, &version.end)))
}
