//! The greatest clock that archives have.
ghost use Rattle.std.specs.Prelude.{◌≡◌, ◌≤◌, ◌<◌, ◌+◌, SomeIff};
ghost use Rattle.archive_store.specs.Clocks as spec;

use crate::known::Known;
use object_history::Mark;

// The mark's clock.
fn clock_in(mark: &Mark) -> u64
    ensures clock { result ≡ spec.clock_in mark.now }
    ensures most { result ≤ 1099511627775 }
{
    match mark {
        Mark::Put(_, start, _) => start.stamp().clock(),
        Mark::Stretch(_, at) => at.stamp().clock(),
        Mark::Settle(stamp, _) => stamp.clock(),
        Mark::Floor(at) => at.stamp().clock(),
    }
}

// The greatest clock of these marks.
#[tactic(auto, unfolding(crate::specs::Clocks::top_clock))]
fn top_clock(marks: &[Mark]) -> u64
    ensures clock { result ≡ spec.top_clock marks.now }
    ensures most { result ≤ 1099511627775 }
{
    let mut top = 0;
    for mark in marks {
        top = clock_in(mark).max(top);
    }
    top
}

// The greatest clock of these archives.
#[tactic(auto, unfolding(crate::specs::Clocks::top_of_all))]
fn top_of_all(known: &[Known]) -> u64
    ensures clock { result ≡ spec.top_of_all known.now }
    ensures most { result ≤ 1099511627775 }
{
    let mut top = 0;
    for archive in known {
        top = top_clock(archive.as_slice()).max(top);
    }
    top
}

/// The clock above each of these archives. None where no clock is above.
pub fn clock_above(known: &[Known]) -> Option<u64>
    ensures { SomeIff result (spec.top_of_all known.now < 1099511627775) (spec.top_of_all known.now + 1) }
{
    let top = top_of_all(known);
    if top < 1_099_511_627_775 {
        Some(top + 1)
    } else {
        None
    }
}
