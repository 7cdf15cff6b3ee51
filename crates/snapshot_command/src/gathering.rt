//! The repositories' volumes are taken, opened and handed back, and their archives are read.
ghost use Rattle.std.specs.Prelude.{◌≡◌, ◌≤◌, ◌+◌, ◌⊎◌, ◌++◌, ◌∷◌, [], List, IfErr, OnErr, length, map, vec_len, vec_capacity};
ghost use Rattle.pseudo_time.specs.Nodes.{repository as named};
ghost use Rattle.watch_command.specs.Shelves.{shelf_sight};
ghost use Rattle.watch_command.specs.Archives.{joined_marks};
ghost use Rattle.snapshot_command.specs.Nodes.{Reads};
ghost use Rattle.snapshot_command.specs.Repositories as spec;

use archive_store::Known;
use medium_port::{Medium, Shelf};
use pseudo_time::NodeId;
use report_writer::down_line;
use std::alloc::Global;
use watch_command::{
    Kept, Opening, Outcome, Standing, archived_of, fallen, give_back, keep_volumes, open_volumes,
    stand_of,
};

// What the archive of a repository with these volumes says, or what stops it.
fn known_of<M: Medium>(
    alloc: Global,
    node: NodeId,
    openings: &[Opening<M>],
) -> Result<Known, Outcome>
    requires some { 1 ≤ length openings.now }
    requires few { length openings.now ≤ 1000 }
    ensures { Reads joined_marks node openings.now result }
{
    match stand_of(openings) {
        Standing::Shut(cause) => Err(fallen(down_line(alloc, node, cause))),
        Standing::Wanting => Err(Outcome::NoMemory),
        Standing::Open => {
            let Ok(archived) = archived_of(alloc, openings) else {
                return Err(Outcome::NoMemory);
            };
            match Known::of(alloc, &archived.archive) {
                Ok(known) => Ok(known),
                Err(_) => Err(Outcome::NoMemory),
            }
        }
    }
}

// Takes the volumes of a repository and reads its archive. They are kept behind others, for which the list has
// room.
fn take_repository<S: Shelf>(
    alloc: Global,
    shelf: &mut S,
    number: u8,
    kept: Vec<Kept<S::Medium>>,
) -> (Result<Known, Outcome>, Vec<Kept<S::Medium>>)
    requires room { vec_len kept + 1000 ≤ vec_capacity kept }
    ensures took { spec.Takes S.Medium.Medium (shelf_sight S.Shelf shelf.old) (shelf_sight S.Shelf shelf.new)
        number kept.items result.1.items result.0 }
    ensures room { vec_capacity result.1 ≡ vec_capacity kept }
    ensures few { vec_len result.1 ≤ vec_len kept + 1000 }
{
    let Ok(room) = Vec::with_capacity(alloc, 1_000) else {
        return (Err(Outcome::NoMemory), kept);
    };
    let Ok(places) = Vec::with_capacity(alloc, 1_000) else {
        return (Err(Outcome::NoMemory), kept);
    };
    let node = NodeId::repository(number);
    let openings = open_volumes(alloc, shelf, node, room);
    let known = known_of(alloc, node, openings.as_slice());
    (known, keep_volumes(node, give_back(places, openings), kept))
}

/// Takes the volumes of repositories 1 to 16 and reads their archives, up to the first that can't be read. The
/// empty list has room for the volumes.
pub fn gather<S: Shelf>(
    alloc: Global,
    shelf: &mut S,
    kept: Vec<Kept<S::Medium>>,
) -> (Result<Vec<Known>, Outcome>, Vec<Kept<S::Medium>>)
    requires empty { kept.items ≡ [] }
    requires room { 16000 ≤ vec_capacity kept }
    ensures { spec.Gathers S.Medium.Medium (shelf_sight S.Shelf shelf.old) (shelf_sight S.Shelf shelf.new)
        result.1.items result.0 }
{
    let mut kept = kept;
    let mut known = Vec::new(alloc);
    for number in 1..17u8 {
        let (read, more) = take_repository(alloc, shelf, number, kept);
        kept = more;
        match read {
            Ok(archive) => {
                let Ok(()) = known.push(archive) else {
                    return (Err(Outcome::NoMemory), kept);
                };
            }
            Err(outcome) => return (Err(outcome), kept),
        }
    }
    (Ok(known), kept)
}
