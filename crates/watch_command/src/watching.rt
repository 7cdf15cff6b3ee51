//! The call.
ghost use Rattle.std.specs.Prelude.{◌≡◌, ◌⊎◌, None, reverse};
ghost use Rattle.object_history.specs.History.{floor_of};
ghost use Rattle.object_history.specs.Ranges.{AreMarks};
ghost use Rattle.run_volumes.specs.Shelves.{shelf_sight};
ghost use Rattle.run_volumes.specs.Standings.{Stands};
ghost use Rattle.archive_command.specs.Answers.{TookNothing};
ghost use Rattle.watch_command.specs.Watches as spec;

use crate::lines::down_watch_line;
use crate::preparing::prepare;
use crate::volumes::{marks_in, totals_volume};
use crate::writing::add_puts;
use archive_command::{Outcome, fallen};
use command_words::Rule;
use medium_port::{Medium, Shelf};
use object_history::Mark;
use pseudo_time::NodeId;
use run_volumes::{
    Kept, Opening, give_back, keep_one, keep_volumes, open_one, open_volumes, take_volume,
};
use std::alloc::Global;

// What comes of a watch over these marks, with this volume of totals. Hands its medium back.
fn watch_opened<M: Medium>(
    alloc: Global,
    repository: u8,
    rule: Rule,
    marks: &[Mark],
    opening: Opening<M>,
) -> (Outcome, Option<M>)
    requires unretired { floor_of (reverse marks.now) ≡ None }
    requires marks { AreMarks (reverse marks.now) }
    requires stands { Stands M.Medium opening }
    ensures { spec.ComesTo M.Medium repository rule (reverse marks.now) opening result.0 result.1 }
{
    match opening {
        Opening::Open(store, effects) => {
            match prepare(alloc, repository, rule, marks, effects.as_slice()) {
                Ok(prepared) => {
                    let (outcome, medium) = add_puts(alloc, repository, store, prepared);
                    (outcome, Some(medium))
                }
                Err(outcome) => (outcome, Some(store.release())),
            }
        }
        Opening::Shut(medium, cause) => {
            (fallen(down_watch_line(alloc, repository, cause)), medium)
        }
        Opening::Wanting(medium) => (Outcome::NoMemory, Some(medium)),
    }
}

// Takes and opens the volume of totals, and brings them up to date over these marks.
fn watch_totals<S: Shelf>(
    alloc: Global,
    repository: u8,
    rule: Rule,
    marks: &[Mark],
    shelf: &mut S,
) -> (Outcome, Option<S::Medium>)
    requires unretired { floor_of (reverse marks.now) ≡ None }
    requires marks { AreMarks (reverse marks.now) }
    ensures { spec.TotalsOver S.Medium.Medium (shelf_sight S.Shelf shelf.old)
        (shelf_sight S.Shelf shelf.new) repository rule (reverse marks.now) result.0 result.1 }
{
    let node = NodeId::repository(repository);
    let taken = take_volume(shelf, node, totals_volume(rule));
    let opening = open_one(alloc, taken);
    watch_opened(alloc, repository, rule, marks, opening)
}

/// Brings the totals of a repository's objects by the rule up to date: its volumes are taken and opened, and
/// then that of its totals, which go on from what they were over all stable versions that ever stood in a
/// complete volume. Answers what came of it, and the media that were taken, in the order of the volumes.
///
/// One put is written for each object whose total went on, all in one append, and nothing to the
/// repository's volumes.
pub fn watch<S: Shelf>(
    alloc: Global,
    repository: u8,
    rule: Rule,
    shelf: &mut S,
) -> (Outcome, Vec<Kept<S::Medium>>)
    ensures { TookNothing S.Medium.Medium (shelf_sight S.Shelf shelf.old)
        (shelf_sight S.Shelf shelf.new) result.1.items result.0
        ⊎ (spec.StopsBefore S.Medium.Medium (shelf_sight S.Shelf shelf.old)
        (shelf_sight S.Shelf shelf.new) repository rule result.1.items result.0
        ⊎ spec.WatchesOver S.Medium.Medium (shelf_sight S.Shelf shelf.old)
        (shelf_sight S.Shelf shelf.new) repository rule result.1.items result.0) }
{
    let Ok(room) = Vec::with_capacity(alloc, 1_000) else {
        return (Outcome::NoMemory, Vec::new(alloc));
    };
    let Ok(places) = Vec::with_capacity(alloc, 1_000) else {
        return (Outcome::NoMemory, Vec::new(alloc));
    };
    let Ok(kept) = Vec::with_capacity(alloc, 1_001) else {
        return (Outcome::NoMemory, Vec::new(alloc));
    };
    let node = NodeId::repository(repository);
    let openings = open_volumes(alloc, shelf, node, room);
    match marks_in(alloc, repository, openings.as_slice()) {
        Ok(marks) => {
            let (outcome, medium) = watch_totals(alloc, repository, rule, marks.as_slice(), shelf);
            let kept = keep_volumes(node, give_back(places, openings), kept);
            (outcome, keep_one(node, totals_volume(rule), medium, kept))
        }
        Err(outcome) => (
            outcome,
            keep_volumes(node, give_back(places, openings), kept),
        ),
    }
}
