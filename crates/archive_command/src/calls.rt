//! The call.
ghost use Rattle.std.specs.Prelude.{◌⊎◌};
ghost use Rattle.run_volumes.specs.Shelves.{shelf_sight};
ghost use Rattle.archive_command.specs.Answers as spec;

use crate::answers::answer;
use crate::outcomes::Outcome;
use crate::questions::{Question, asked_of};
use medium_port::{Medium, Shelf};
use run_volumes::{Kept, give_back, keep_volumes, open_volumes};
use std::alloc::Global;

/// Asks a repository's archive: its volumes are taken and opened, and the logs of the complete ones tell the
/// answer together. Answers what came of it, and the media that were taken, in the order of the volumes.
///
/// Nothing is written to them.
pub fn ask<S: Shelf>(
    alloc: Global,
    question: Question,
    shelf: &mut S,
) -> (Outcome, Vec<Kept<S::Medium>>)
    ensures { spec.TookNothing S.Medium.Medium (shelf_sight S.Shelf shelf.old)
        (shelf_sight S.Shelf shelf.new) result.1.items result.0
        ⊎ spec.AnswersOver S.Medium.Medium (shelf_sight S.Shelf shelf.old)
        (shelf_sight S.Shelf shelf.new) question result.1.items result.0 }
{
    let Ok(room) = Vec::with_capacity(alloc, 1_000) else {
        return (Outcome::NoMemory, Vec::new(alloc));
    };
    let Ok(places) = Vec::with_capacity(alloc, 1_000) else {
        return (Outcome::NoMemory, Vec::new(alloc));
    };
    let Ok(kept) = Vec::with_capacity(alloc, 1_000) else {
        return (Outcome::NoMemory, Vec::new(alloc));
    };
    let node = asked_of(&question);
    let openings = open_volumes(alloc, shelf, node, room);
    let outcome = answer(alloc, &question, openings.as_slice());
    (
        outcome,
        keep_volumes(node, give_back(places, openings), kept),
    )
}
