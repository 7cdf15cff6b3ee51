//! The map as of a pseudotime, by a plain scan of marks: each put is looked at by itself, and its settling
//! is looked up among all marks.

use crate::shows;
use object_history::Mark;
use pseudo_time::{PseudoTime, Stamp};
use std::alloc::{AllocError, Global};
use value_form::ObjectId;

// How the stamp was decided first.
fn settled(marks: &[Mark], stamp: Stamp) -> Option<bool> {
    for mark in marks {
        if let Mark::Settle(name, committed) = mark {
            if *name == stamp {
                return Some(*committed);
            }
        }
    }
    None
}

// Whether the first object comes before the second, where both are there.
fn are_rising(first: Option<ObjectId>, second: Option<ObjectId>) -> bool {
    match (first, second) {
        (Some(first), Some(second)) => first < second,
        _ => true,
    }
}

// The least object of a put above this one.
fn next_object(marks: &[Mark], above: Option<ObjectId>) -> Option<ObjectId> {
    let mut least: Option<ObjectId> = None;
    for mark in marks {
        if let Mark::Put(name, _, _) = mark {
            if are_rising(above, Some(*name)) && are_rising(Some(*name), least) {
                least = Some(*name);
            }
        }
    }
    least
}

// Whether a put with this start is below the pseudotime, and decided so.
fn is_wanted(marks: &[Mark], start: PseudoTime, at: PseudoTime, state: Option<bool>) -> bool {
    start < at && settled(marks, start.stamp()) == state
}

// The first start of an undecided put of the object below the pseudotime.
fn first_undecided(marks: &[Mark], object: ObjectId, at: PseudoTime) -> Option<PseudoTime> {
    let mut first: Option<PseudoTime> = None;
    for mark in marks {
        if let Mark::Put(name, start, _) = mark {
            let is_first = match first {
                Some(other) => *start < other,
                None => true,
            };
            if is_first && *name == object && is_wanted(marks, *start, at, None) {
                first = Some(*start);
            }
        }
    }
    first
}

// The last start of a committed put of the object below the pseudotime.
fn last_committed(marks: &[Mark], object: ObjectId, at: PseudoTime) -> Option<PseudoTime> {
    let mut last: Option<PseudoTime> = None;
    for mark in marks {
        if let Mark::Put(name, start, _) = mark {
            let is_last = match last {
                Some(other) => other < *start,
                None => true,
            };
            if is_last && *name == object && is_wanted(marks, *start, at, Some(true)) {
                last = Some(*start);
            }
        }
    }
    last
}

// The object with the value of its put with this start.
fn tell_put(
    alloc: Global,
    marks: &[Mark],
    object: ObjectId,
    at: PseudoTime,
    said: &mut String,
) -> Result<(), AllocError> {
    for mark in marks {
        if let Mark::Put(name, start, value) = mark {
            if *name == object && *start == at {
                return shows::total(alloc, object, at, value, said);
            }
        }
    }
    Ok(())
}

// The map as of the pseudotime, below which nothing is undecided.
fn tell_map(
    alloc: Global,
    marks: &[Mark],
    at: PseudoTime,
    said: &mut String,
) -> Result<(), AllocError> {
    let mut above = None;
    for _ in 0..marks.len() {
        let Some(name) = next_object(marks, above) else {
            return Ok(());
        };
        if let Some(start) = last_committed(marks, name, at) {
            tell_put(alloc, marks, name, start, said)?;
        }
        above = Some(name);
    }
    Ok(())
}

/// The map as of the pseudotime, or the first version below that is undecided.
pub fn scanned(
    alloc: Global,
    marks: &[Mark],
    at: PseudoTime,
    said: &mut String,
) -> Result<(), AllocError> {
    let mut above = None;
    for _ in 0..marks.len() {
        let Some(name) = next_object(marks, above) else {
            return tell_map(alloc, marks, at, said);
        };
        if let Some(start) = first_undecided(marks, name, at) {
            return shows::refused(alloc, "undecided", name, start, said);
        }
        above = Some(name);
    }
    tell_map(alloc, marks, at, said)
}
