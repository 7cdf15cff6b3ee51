//! Comparisons of pseudotimes that may be missing.
ghost use Rattle.std.specs.Prelude.{◌≡◌};
ghost use Rattle.object_history.specs.Kept as kept;
ghost use Rattle.commit_watch.specs.Folds as folds;
ghost use Rattle.commit_watch.specs.Standings as spec;

use pseudo_time::PseudoTime;

/// The earlier of a time and of another, where there is one.
pub fn earlier(time: PseudoTime, other: &Option<PseudoTime>) -> PseudoTime
    ensures { result ≡ spec.earlier time other.now }
{
    match other {
        Some(other) if other.is_before(time) => *other,
        _ => time,
    }
}

/// Whether the time is above the cursor, where there is one.
pub fn is_past(cursor: &Option<PseudoTime>, time: PseudoTime) -> bool
    ensures { result ≡ kept.is_past cursor.now time }
{
    match cursor {
        Some(cursor) => cursor.is_before(time),
        None => true,
    }
}

/// Whether the time is below the end, where there is one.
pub fn is_below(end: &Option<PseudoTime>, time: PseudoTime) -> bool
    ensures { result ≡ kept.is_below end.now time }
{
    match end {
        Some(end) => time.is_before(*end),
        None => true,
    }
}

/// Whether the time is below the floor, where there is one.
pub fn is_under(floor: &Option<PseudoTime>, time: PseudoTime) -> bool
    ensures { result ≡ folds.is_under floor.now time }
{
    match floor {
        Some(floor) => time.is_before(*floor),
        None => false,
    }
}

/// Whether the time isn't below the first undecided version, where there is one.
pub fn is_stopped(undecided: &Option<PseudoTime>, time: PseudoTime) -> bool
    ensures { result ≡ spec.is_stopped undecided.now time }
{
    match undecided {
        Some(undecided) => !time.is_before(*undecided),
        None => false,
    }
}
