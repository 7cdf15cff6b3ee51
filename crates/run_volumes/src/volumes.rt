//! Takes and opens a node's volumes.
ghost use Rattle.std.specs.Prelude.{◌≡◌, ◌≤◌, [], vec_len, vec_capacity, Option, List};
ghost use Rattle.run_volumes.specs.Shelves.{shelf_sight};
ghost use Rattle.run_volumes.specs.Volumes as spec;
ghost use Rattle.run_volumes.specs.Volumes.{AreVolumes};

use crate::shelves::take_volume;
use medium_port::{Medium, Shelf};
use pseudo_time::{NodeId, NodeKind};
use run_media::{Opening, open_one};
use std::alloc::Global;

// Whether the next volume is taken behind one that was opened so.
fn goes_on<M: Medium>(kind: NodeKind, volume: u32, opening: &Opening<M>) -> bool
    ensures { result ≡ spec.goes_on kind volume opening.now }
{
    match opening {
        Opening::Open(_, effects) => match kind {
            NodeKind::Repository => (volume == 0 || !effects.is_empty()) && volume < 999,
            NodeKind::Broker => false,
        },
        Opening::Shut(_, _) => false,
        Opening::Wanting(_) => false,
    }
}

/// Takes a node's volumes from 0 on and opens them, one after another, up to the first behind which none
/// follows. The empty list has room for them.
pub fn open_volumes<S: Shelf>(
    alloc: Global,
    shelf: &mut S,
    node: NodeId,
    room: Vec<Opening<S::Medium>>,
) -> Vec<Opening<S::Medium>>
    requires empty { room.items ≡ [] }
    requires room { 1000 ≤ vec_capacity room }
    ensures volumes { (media : List (Option S.Medium)) ×
        AreVolumes S.Medium.Medium (shelf_sight S.Shelf shelf.old)
        (shelf_sight S.Shelf shelf.new) node media result.items }
    ensures few { vec_len result ≤ 1000 }
    ensures room { vec_capacity result ≡ vec_capacity room }
{
    let mut openings = room;
    for volume in 0..1_000u32 {
        let opening = open_one(alloc, take_volume(shelf, node, volume));
        let is_last = !goes_on(node.kind, volume, &opening);
        openings.push_reserved(opening);
        if is_last {
            return openings;
        }
    }
    openings
}
