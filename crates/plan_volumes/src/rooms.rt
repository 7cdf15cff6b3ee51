//! Room for the volumes of a plan's nodes.
ghost use Rattle.std.specs.Prelude.{◌≡◌, ◌≤◌, [], length, vec_capacity, All, IfOk};
ghost use Rattle.plan_form.specs.PlanTexts.{CanRun};
ghost use Rattle.run_volumes.specs.Places as order;
ghost use Rattle.plan_volumes.specs.Asides.{HasRoom};

use crate::asides::Aside;
use medium_port::Medium;
use plan_form::Plan;
use run_volumes::{Kept, Opening, node_count};
use std::alloc::{AllocError, Global};

/// Emptied lists for the volumes of a plan's nodes, so that none of these is lost because memory ran out.
#[derive(Drop)]
pub struct Rooms<M: Medium> {
    /// One for the volumes of each node.
    pub nodes: Vec<Vec<Opening<M>>>,
    pub openings: Vec<Opening<M>>,
    pub asides: Vec<Aside<M>>,
    pub media: Vec<Option<M>>,
    pub kept: Vec<Kept<M>>,
}

fn node_rooms<M: Medium>(alloc: Global, count: usize) -> Result<Vec<Vec<Opening<M>>>, AllocError>
    ensures count { IfOk result (λ rooms. length rooms.items ≡ count) }
    ensures empty { IfOk result (λ rooms. All (λ room. room.items ≡ []) rooms.items) }
    ensures room { IfOk result (λ rooms. All (λ room. 1000 ≤ vec_capacity room) rooms.items) }
{
    let mut rooms = Vec::with_capacity(alloc, count)?;
    for _ in 0..count {
        rooms.push_reserved(Vec::with_capacity(alloc, 1_000)?);
    }
    Ok(rooms)
}

/// Room for the volumes of the plan's nodes. A node has at most 1,000.
pub fn make_rooms<M: Medium>(alloc: Global, plan: &Plan) -> Result<Rooms<M>, AllocError>
    requires { CanRun plan.now }
    ensures { IfOk result (HasRoom (order.node_count plan.now)) }
{
    let count = node_count(plan);
    Ok(Rooms {
        nodes: node_rooms(alloc, count)?,
        openings: Vec::with_capacity(alloc, count)?,
        asides: Vec::with_capacity(alloc, count)?,
        media: Vec::with_capacity(alloc, count)?,
        kept: Vec::with_capacity(alloc, 1_000 * count)?,
    })
}
