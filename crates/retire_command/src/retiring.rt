//! The call.
ghost use Rattle.std.specs.Prelude.{◌≡◌, ◌≤◌, ◌⊎◌, [], List, vec_len, vec_capacity};
ghost use Rattle.pseudo_time.specs.Lists.{Every};
ghost use Rattle.pseudo_time.specs.Nodes.{repository as named};
ghost use Rattle.pseudo_time.specs.declared.nodes.NodeKind.TheVariants.{Repository};
ghost use Rattle.run_volumes.specs.Shelves.{shelf_sight};
ghost use Rattle.run_volumes.specs.Standings.{Stands};
ghost use Rattle.run_volumes.specs.Volumes.{EndRightly};
ghost use Rattle.retire_command.specs.Retires as spec;

use crate::carrying::carry_out;
use crate::outcomes::Retired;
use crate::preparing::prepare;
use medium_port::{Medium, Shelf};
use pseudo_time::{NodeId, PseudoTime};
use run_volumes::{Kept, Opening, give_back, keep_volumes, open_volumes};
use std::alloc::Global;

// Retires a repository with these volumes. The empty list has room for what is left of them.
fn retire_volumes<M: Medium>(
    alloc: Global,
    node: NodeId,
    mark: PseudoTime,
    openings: Vec<Opening<M>>,
    room: Vec<Option<M>>,
) -> (Retired, Vec<Option<M>>)
    requires first { mark.step ≡ 1 }
    requires stands { Every (Stands M.Medium) openings.items }
    requires ends { EndRightly Repository openings.items }
    requires empty { room.items ≡ [] }
    requires room { vec_len openings ≤ vec_capacity room }
    ensures came { spec.ComesTo M.Medium node mark openings.items result.1.items result.0 }
    ensures count { vec_len result.1 ≡ vec_len openings }
{
    match prepare(alloc, node, mark, openings.as_slice()) {
        Ok(prepared) => carry_out(alloc, node, mark, openings, prepared, room),
        Err(retired) => (retired, give_back(room, openings)),
    }
}

/// Retires a repository at the mark, which is the first pseudotime of a stamp: its volumes are taken and
/// opened, and what its log carries forward is written into the fresh one. Answers what came of it, and
/// the media that were taken, in the order of the volumes.
///
/// Nothing is written where it is refused. Only the last page that is written has the Whole, so the
/// volume that was current stays so unless all is there.
pub fn retire<S: Shelf>(
    alloc: Global,
    repository: u8,
    mark: PseudoTime,
    shelf: &mut S,
) -> (Retired, Vec<Kept<S::Medium>>)
    requires first { mark.step ≡ 1 }
    ensures { spec.TookNothing S.Medium.Medium (shelf_sight S.Shelf shelf.old)
        (shelf_sight S.Shelf shelf.new) result.1.items result.0
        ⊎ spec.RetiresOver S.Medium.Medium (shelf_sight S.Shelf shelf.old) (shelf_sight S.Shelf shelf.new)
        (named repository) mark result.1.items result.0 }
{
    let Ok(room) = Vec::with_capacity(alloc, 1_000) else {
        return (Retired::NoMemory, Vec::new(alloc));
    };
    let Ok(places) = Vec::with_capacity(alloc, 1_000) else {
        return (Retired::NoMemory, Vec::new(alloc));
    };
    let Ok(kept) = Vec::with_capacity(alloc, 1_000) else {
        return (Retired::NoMemory, Vec::new(alloc));
    };
    let node = NodeId::repository(repository);
    let openings = open_volumes(alloc, shelf, node, room);
    let (retired, media) = retire_volumes(alloc, node, mark, openings, places);
    (retired, keep_volumes(node, media, kept))
}
