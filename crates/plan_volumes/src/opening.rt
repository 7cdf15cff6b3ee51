//! The volumes of all nodes are taken and opened.
ghost use Rattle.std.specs.Prelude.{◌≡◌, ◌≤◌, [], length, List, All, vec_capacity};
ghost use Rattle.plan_form.specs.PlanTexts.{CanRun};
ghost use Rattle.run_volumes.specs.Places as order;
ghost use Rattle.run_volumes.specs.Shelves.{shelf_sight};
ghost use Rattle.plan_volumes.specs.Asides.{AreApart, IsApart};
ghost use Rattle.plan_volumes.specs.Volumes.{NodeVolumes};

use crate::asides::{Aside, is_wanting, set_aside};
use medium_port::{Medium, Shelf};
use plan_form::Plan;
use pseudo_time::NodeId;
use run_volumes::{Opening, node_at, open_volumes};
use std::alloc::Global;

/// The volumes of a plan's nodes, opened.
#[derive(Drop)]
pub struct Opened<M: Medium> {
    /// The one of each node that a run is given.
    pub openings: Vec<Opening<M>>,
    /// The others.
    pub asides: Vec<Aside<M>>,
    /// Whether memory ran out when one of them was opened. The media are all there.
    pub wanting: bool,
}

// Takes and opens the volumes of a node: the one that a run is given, the others, and whether memory ran
// out for one of them. The empty list has room for them.
fn open_node<S: Shelf>(
    alloc: Global,
    shelf: &mut S,
    node: NodeId,
    room: Vec<Opening<S::Medium>>,
) -> (Opening<S::Medium>, Aside<S::Medium>, bool)
    requires room { (room.items ≡ []) × (1000 ≤ vec_capacity room) }
    ensures { (v : NodeVolumes S.Medium.Medium) × IsApart S.Medium.Medium (shelf_sight S.Shelf shelf.old)
        (shelf_sight S.Shelf shelf.new)
        node v result.0 result.1 result.2 }
{
    let volumes = open_volumes(alloc, shelf, node, room);
    let wanting = is_wanting(volumes.as_slice());
    let (opening, aside) = set_aside(volumes);
    (opening, aside, wanting)
}

/// Takes and opens the volumes of the plan's nodes, in their order. The emptied lists have room for them.
pub fn open_nodes<S: Shelf>(
    alloc: Global,
    plan: &Plan,
    shelf: &mut S,
    rooms: Vec<Vec<Opening<S::Medium>>>,
    openings: Vec<Opening<S::Medium>>,
    asides: Vec<Aside<S::Medium>>,
) -> Opened<S::Medium>
    requires plan { CanRun plan.now }
    requires rooms { length rooms.items ≡ order.node_count plan.now }
    requires room { All (λ room. room.items ≡ []) rooms.items × All (λ room. 1000 ≤ vec_capacity room) rooms.items }
    requires openings { (openings.items ≡ []) × (order.node_count plan.now ≤ vec_capacity openings) }
    requires asides { (asides.items ≡ []) × (order.node_count plan.now ≤ vec_capacity asides) }
    ensures apart { (volumes : List (NodeVolumes S.Medium.Medium)) ×
        AreApart S.Medium.Medium (shelf_sight S.Shelf shelf.old) (shelf_sight S.Shelf shelf.new)
        plan.now volumes result.openings.items result.asides.items result.wanting }
    ensures count { (length result.openings.items ≡ order.node_count plan.now) ×
        (length result.asides.items ≡ order.node_count plan.now) }
{
    let mut rooms = rooms;
    let mut openings = openings;
    let mut asides = asides;
    let mut is_short = false;
    while let Some(room) = rooms.pop() {
        let node = node_at(plan, openings.len());
        let (opening, aside, wanting) = open_node(alloc, shelf, node, room);
        openings.push_reserved(opening);
        asides.push_reserved(aside);
        is_short = is_short || wanting;
    }
    Opened {
        openings,
        asides,
        wanting: is_short,
    }
}
