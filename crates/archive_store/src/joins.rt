//! The marks of several volumes, joined into one list.
ghost use Rattle.std.specs.Prelude.{◌≡◌, ◌∷◌, ◌++◌, [], List, map, filter, not, reverse, IfOk, OnOk};
ghost use Rattle.object_history.specs.declared.marks.Mark.{Mark};
ghost use Rattle.object_history.specs.History.{floor_of};
ghost use Rattle.archive_store.specs.Joined as spec;
ghost use Rattle.archive_store.specs.Met.{Meets};

use crate::starts::{Met, meet, none_met, was_met};
use commit_watch::{floor_among, is_under};
use object_history::Mark;
use pseudo_time::PseudoTime;
use std::alloc::{AllocError, Global};

/// An equal mark.
pub fn copy_of(alloc: Global, mark: &Mark) -> Result<Mark, AllocError>
    ensures { IfOk result (λ f. f ≡ mark.now) }
{
    match mark {
        Mark::Put(object, start, value) => {
            let value = value.copy(alloc)?;
            Ok(Mark::Put(*object, *start, value))
        }
        Mark::Stretch(object, at) => Ok(Mark::Stretch(*object, *at)),
        Mark::Settle(stamp, committed) => Ok(Mark::Settle(*stamp, *committed)),
        Mark::Floor(at) => Ok(Mark::Floor(*at)),
    }
}

// Whether the mark is a put below the floor, of which none was met.
fn is_new(floor: &Option<PseudoTime>, met: &Met, mark: &Mark) -> bool
    ensures { (m : List Mark) → Meets met.now m → result ≡ spec.is_new floor.now m mark.now }
{
    match mark {
        Mark::Put(object, start, _) => is_under(floor, *start) && !was_met(met, *object, *start),
        Mark::Stretch(_, _) => false,
        Mark::Settle(_, _) => false,
        Mark::Floor(_) => false,
    }
}

// Adds a mark that is new.
#[tactic(auto, unfolding(crate::specs::Joined::firsts, crate::specs::Joined::met_after))]
fn add_new(
    marks: &mut Vec<Mark>,
    met: &mut Met,
    alloc: Global,
    floor: &Option<PseudoTime>,
    mark: &Mark,
) -> Result<(), AllocError>
    ensures marks { (m : List Mark) → Meets met.old m →
        OnOk result (marks.new.items ≡ marks.old.items ++ spec.firsts floor.now m (mark.now ∷ [])) }
    ensures met { (m : List Mark) → Meets met.old m →
        OnOk result (Meets met.new (spec.met_after floor.now m (mark.now ∷ []))) }
{
    if is_new(floor, met, mark) {
        let copy = copy_of(alloc, mark)?;
        meet(met, mark)?;
        marks.push(copy)?;
    }
    Ok(())
}

// Adds those of a log.
fn add_firsts(
    marks: &mut Vec<Mark>,
    met: &mut Met,
    alloc: Global,
    floor: &Option<PseudoTime>,
    log: &[Mark],
) -> Result<(), AllocError>
    ensures marks { (m : List Mark) → Meets met.old m →
        OnOk result (marks.new.items ≡ marks.old.items ++ spec.firsts floor.now m log.now) }
    ensures met { (m : List Mark) → Meets met.old m → OnOk result (Meets met.new (spec.met_after floor.now m log.now)) }
{
    for mark in log {
        add_new(marks, met, alloc, floor, mark)?;
    }
    Ok(())
}

// The puts of a log, as met.
fn met_in(alloc: Global, log: &[Mark]) -> Result<Met, AllocError>
    ensures { IfOk result (λ met. Meets met (reverse log.now)) }
{
    let mut met = none_met(alloc);
    for mark in log {
        meet(&mut met, mark)?;
    }
    Ok(met)
}

// What the last log gave up.
fn given_up(alloc: Global, logs: &[Vec<Mark>], last: &[Mark]) -> Result<Vec<Mark>, AllocError>
    ensures { IfOk result (λ marks. marks.items ≡ spec.given_up (map (λ log. log.items) logs.now) last.now) }
{
    let floor = floor_among(last);
    let mut met = met_in(alloc, last)?;
    let mut marks = Vec::new(alloc);
    for log in logs {
        add_firsts(&mut marks, &mut met, alloc, &floor, log.as_slice())?;
    }
    Ok(marks)
}

// Adds a mark that is no floor.
fn add_kept(marks: &mut Vec<Mark>, alloc: Global, mark: &Mark) -> Result<(), AllocError>
    ensures { OnOk result (marks.new.items ≡ marks.old.items ++ filter (λ f. not (spec.is_floor f)) (mark.now ∷ [])) }
{
    match mark {
        Mark::Floor(_) => Ok(()),
        _ => {
            let copy = copy_of(alloc, mark)?;
            marks.push(copy)?;
            Ok(())
        }
    }
}

/// What the last log gave up, then the last log without its floors.
pub fn joined_with(
    alloc: Global,
    logs: &[Vec<Mark>],
    last: &[Mark],
) -> Result<Vec<Mark>, AllocError>
    ensures { IfOk result (λ marks. marks.items ≡ spec.joined_with (map (λ log. log.items) logs.now) last.now) }
{
    let mut marks = given_up(alloc, logs, last)?;
    for mark in last {
        add_kept(&mut marks, alloc, mark)?;
    }
    Ok(marks)
}
