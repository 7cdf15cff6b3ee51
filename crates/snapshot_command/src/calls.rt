//! The call.
ghost use Rattle.std.specs.Prelude.{◌≤◌, ◌⊎◌, IfSome};
ghost use Rattle.watch_command.specs.Shelves.{shelf_sight};
ghost use Rattle.watch_command.specs.Answers.{TookNothing};
ghost use Rattle.snapshot_command.specs.Repositories as spec;

use crate::answers::tell;
use crate::gathering::gather;
use medium_port::Shelf;
use std::alloc::Global;
use watch_command::{Kept, Outcome};

/// The map of all repositories as of the mark at the clock, or else at one above all their clocks. The volumes of
/// repositories 1 to 16 are taken and opened, up to the first repository that can't be; their archives tell the
/// map together. Answers what came of it, and the media that were taken, in the order of the repositories and
/// volumes.
///
/// Nothing is written to them.
pub fn snapshot<S: Shelf>(
    alloc: Global,
    clock: Option<u64>,
    shelf: &mut S,
) -> (Outcome, Vec<Kept<S::Medium>>)
    requires { IfSome clock (λ c. (1 ≤ c) × (c ≤ 1099511627775)) }
    ensures { TookNothing S.Medium.Medium (shelf_sight S.Shelf shelf.old)
        (shelf_sight S.Shelf shelf.new) result.1.items result.0
        ⊎ spec.SnapshotOver S.Medium.Medium (shelf_sight S.Shelf shelf.old)
        (shelf_sight S.Shelf shelf.new) clock result.1.items result.0 }
{
    let Ok(kept) = Vec::with_capacity(alloc, 16_000) else {
        return (Outcome::NoMemory, Vec::new(alloc));
    };
    let (read, kept) = gather(alloc, shelf, kept);
    match read {
        Ok(known) => (tell(alloc, known.as_slice(), clock), kept),
        Err(outcome) => (outcome, kept),
    }
}
