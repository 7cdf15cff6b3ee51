//! The volumes of a plan's nodes are taken for a run, and handed back.
ghost use Rattle.std.specs.Prelude.{◌≡◌, List, IfOk, OnErr, map};
ghost use Rattle.plan_form.specs.PlanTexts.{CanRun};
ghost use Rattle.plan_volumes.specs.Openings.{medium_in};
ghost use Rattle.plan_volumes.specs.Shelves.{shelf_sight};
ghost use Rattle.plan_volumes.specs.Volumes.{NodeVolumes};
ghost use Rattle.run_command.specs.Takings.{AreHanded, AreTaken, WereGiven};

use medium_port::{Medium, Shelf};
use plan_form::Plan;
use plan_volumes::{
    Aside, Kept, Opened, Opening, Rooms, give_back, keep_nodes, make_rooms, open_nodes,
};
use std::alloc::{AllocError, Global};

/// The volumes of a plan's nodes, opened, and room for what is handed back of them.
#[derive(Drop)]
pub struct Taken<M: Medium> {
    /// The one of each node that a run is given.
    pub openings: Vec<Opening<M>>,
    /// The others.
    pub asides: Vec<Aside<M>>,
    /// Whether memory ran out when one of them was opened.
    pub wanting: bool,
    /// Emptied, with room for what is left of those that a run is given.
    pub media: Vec<Option<M>>,
    /// Emptied, with room for all.
    pub kept: Vec<Kept<M>>,
}

/// Takes and opens the volumes of the plan's nodes. Where memory is wanting for the lists of them, the shelf
/// isn't asked for any.
pub fn take_volumes<S: Shelf>(
    alloc: Global,
    plan: &Plan,
    shelf: &mut S,
) -> Result<Taken<S::Medium>, AllocError>
    requires { CanRun plan.now }
    ensures given { IfOk result (λ taken. (volumes : List (NodeVolumes S.Medium.Medium)) ×
        WereGiven S.Medium.Medium plan.now volumes (shelf_sight S.Shelf shelf.old) (shelf_sight S.Shelf shelf.new)
        taken) }
    ensures none { OnErr result (shelf.new ≡ shelf.old) }
{
    let Rooms {
        nodes,
        openings,
        asides,
        media,
        kept,
    } = make_rooms(alloc, plan)?;
    let Opened {
        openings,
        asides,
        wanting,
    } = open_nodes(alloc, plan, shelf, nodes, openings, asides);
    Ok(Taken {
        openings,
        asides,
        wanting,
        media,
        kept,
    })
}

/// The volumes under their names, as opening left them.
pub fn hand_back<M: Medium>(plan: &Plan, taken: Taken<M>) -> Vec<Kept<M>>
    requires plan { CanRun plan.now }
    requires taken { (volumes : List (NodeVolumes M.Medium)) × AreTaken M.Medium plan.now volumes taken }
    ensures { (volumes : List (NodeVolumes M.Medium)) → AreTaken M.Medium plan.now volumes taken →
        AreHanded M.Medium plan.now volumes (map medium_in taken.openings.items) result.items }
{
    let Taken {
        openings,
        asides,
        wanting: _,
        media,
        kept,
    } = taken;
    keep_nodes(plan, asides, give_back(media, openings), kept)
}
