//! The call.
ghost use Rattle.std.specs.Prelude.{◌⊎◌};
ghost use Rattle.snapshot_command.specs.Answers.{TookNothing};
ghost use Rattle.snapshot_command.specs.Shelves.{shelf_sight};
ghost use Rattle.replay_command.specs.Replayed as spec;

use crate::gathering::gather;
use crate::texts::tell;
use medium_port::Shelf;
use snapshot_command::{Kept, Outcome};
use std::alloc::Global;

/// Carries out again every attempt that the logs of a folder tell, each by its script alone over the map that the
/// committed ones before it leave, and says whether the logs say the same. The volumes of repositories 1 to 16 and
/// of brokers 1 to 16 are taken and opened, up to the first node that can't be. Answers what came of it, and the
/// media that were taken, in the order of the nodes and volumes.
///
/// What is told has the values that the attempts leave, if they are asked for. Nothing is written to the media.
pub fn replay<S: Shelf>(
    alloc: Global,
    values: bool,
    shelf: &mut S,
) -> (Outcome, Vec<Kept<S::Medium>>)
    ensures { TookNothing S.Medium.Medium (shelf_sight S.Shelf shelf.old)
        (shelf_sight S.Shelf shelf.new) result.1.items result.0
        ⊎ spec.ReplayOver S.Medium.Medium (shelf_sight S.Shelf shelf.old)
        (shelf_sight S.Shelf shelf.new) values result.1.items result.0 }
{
    let Ok(kept) = Vec::with_capacity(alloc, 32_000) else {
        return (Outcome::NoMemory, Vec::new(alloc));
    };
    let (read, kept) = gather(alloc, shelf, kept);
    match read {
        Ok(nodes) => (tell(alloc, nodes, values), kept),
        Err(outcome) => (outcome, kept),
    }
}
