//! Takes one volume of a node.
ghost use Rattle.run_volumes.specs.Shelves.{TakesOne, shelf_sight, volume_name};

use medium_port::{Medium, Shelf};
use pseudo_time::NodeId;

/// Takes a volume of a node. None where the shelf gives none.
pub fn take_volume<S: Shelf>(shelf: &mut S, node: NodeId, volume: u32) -> Option<S::Medium>
    ensures { TakesOne S.Medium.Medium
        (shelf_sight S.Shelf shelf.old)
        (shelf_sight S.Shelf shelf.new) (volume_name node volume) result }
{
    match shelf.take(node.kind, node.number, volume) {
        Ok(medium) => Some(medium),
        Err(_) => None,
    }
}
