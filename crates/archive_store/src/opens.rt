//! The first undecided version below a pseudotime.
ghost use Rattle.std.specs.Prelude.{◌≡◌, ◌∷◌, List, Some, IfOk, reverse};
ghost use Rattle.std.specs.FinMap as finite;
ghost use Rattle.object_history.specs.declared.marks.Mark.{Mark};
ghost use Rattle.archive_store.specs.Opens as spec;

use crate::starts::Start;
use commit_watch::settles_of;
use object_history::{Mark, Settles};
use pseudo_time::PseudoTime;
use std::alloc::{AllocError, Global};

// The lesser of two, by object, then start.
fn lesser(put: Start, other: &Option<Start>) -> Start
    ensures { result ≡ spec.lesser put other.now }
{
    match other {
        Some(other) if *other < put => *other,
        _ => put,
    }
}

// Whether a version with this start is below the pseudotime and unsettled.
fn is_unsettled(settles: &Settles, at: PseudoTime, start: PseudoTime) -> bool
    ensures { result ≡ spec.is_unsettled (λ p. finite.get settles.now p) at start }
{
    start.is_before(at) && settles.get(start.stamp()).is_none()
}

// The first, with one mark more.
#[tactic(auto, unfolding(crate::specs::Opens::first_among))]
fn with_mark(first: Option<Start>, settles: &Settles, at: PseudoTime, mark: &Mark) -> Option<Start>
    ensures { (m : List Mark) → first ≡ spec.first_among (λ p. finite.get settles.now p) at m →
        result ≡ spec.first_among (λ p. finite.get settles.now p) at (mark.now ∷ m) }
{
    match mark {
        Mark::Put(object, start, _) => {
            if is_unsettled(settles, at, *start) {
                let put = Start {
                    object: *object,
                    start: *start,
                };
                Some(lesser(put, &first))
            } else {
                first
            }
        }
        Mark::Stretch(_, _) => first,
        Mark::Settle(_, _) => first,
        Mark::Floor(_) => first,
    }
}

// The first among these marks.
#[tactic(auto, unfolding(crate::specs::Opens::first_among))]
fn first_among(settles: &Settles, marks: &[Mark], at: PseudoTime) -> Option<Start>
    ensures { result ≡ spec.first_among (λ p. finite.get settles.now p) at (reverse marks.now) }
{
    let mut first = None;
    for mark in marks {
        first = with_mark(first, settles, at, mark);
    }
    first
}

/// The undecided version below the pseudotime of the least object, and of its starts the least.
pub fn first_open(
    alloc: Global,
    marks: &[Mark],
    at: PseudoTime,
) -> Result<Option<Start>, AllocError>
    ensures { IfOk result (λ first. first ≡ spec.first_open (reverse marks.now) at) }
{
    let settles = settles_of(alloc, marks)?;
    Ok(first_among(&settles, marks, at))
}
