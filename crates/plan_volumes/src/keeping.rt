//! The volumes of all nodes are handed back.
ghost use Rattle.std.specs.Prelude.{◌≡◌, ◌≤◌, ◌+◌, ◌*◌, ◌++◌, [], length, map, List, vec_len, vec_capacity};
ghost use Rattle.std.specs.List.{AllZip};
ghost use Rattle.plan_form.specs.PlanTexts.{CanRun};
ghost use Rattle.run_volumes.specs.Openings.{medium_in};
ghost use Rattle.run_volumes.specs.Places as order;
ghost use Rattle.run_volumes.specs.Kept.{kept_under};
ghost use Rattle.run_volumes.specs.Shelves.{first_names};
ghost use Rattle.plan_volumes.specs.Asides.{IsAside};
ghost use Rattle.plan_volumes.specs.Volumes.{NodeVolumes, all_left, names_from};

use crate::asides::{Aside, put_back};
use medium_port::Medium;
use plan_form::Plan;
use pseudo_time::NodeId;
use run_volumes::{Kept, Opening, keep_one, node_at};

// A node's volumes under their names, from 0 on, behind others. The list has room for them.
fn keep_openings<M: Medium>(
    node: NodeId,
    openings: Vec<Opening<M>>,
    kept: Vec<Kept<M>>,
) -> Vec<Kept<M>>
    requires few { vec_len openings ≤ 1000 }
    requires room { vec_len kept + vec_len openings ≤ vec_capacity kept }
    ensures kept { result.items ≡ kept.items ++ kept_under (first_names node (length openings.items))
        (map medium_in openings.items) }
    ensures room { vec_capacity result ≡ vec_capacity kept }
    ensures few { vec_len result ≤ vec_len kept + vec_len openings }
{
    let mut openings = openings;
    let Some(opening) = openings.pop() else {
        return kept;
    };
    let volume = openings.len();
    let kept = keep_openings(node, openings, kept);
    keep_one(node, volume as u32, opening.release(), kept)
}

/// All volumes of the plan's nodes under their names, with what is left of those that a run had. The
/// empty list has room for them.
pub fn keep_nodes<M: Medium>(
    plan: &Plan,
    asides: Vec<Aside<M>>,
    media: Vec<Option<M>>,
    kept: Vec<Kept<M>>,
) -> Vec<Kept<M>>
    requires plan { CanRun plan.now }
    requires asides { (volumes : List (NodeVolumes M.Medium)) × AllZip IsAside volumes asides.items }
    requires within { vec_len asides ≤ order.node_count plan.now }
    requires count { vec_len media ≡ vec_len asides }
    requires empty { kept.items ≡ [] }
    requires room { 1000 * vec_len asides ≤ vec_capacity kept }
    ensures kept { (volumes : List (NodeVolumes M.Medium)) → AllZip IsAside volumes asides.items →
        result.items ≡ kept_under (names_from plan.now 0 volumes) (all_left volumes media.items) }
    ensures room { vec_capacity result ≡ vec_capacity kept }
    ensures few { vec_len result ≤ 1000 * vec_len asides }
{
    let mut asides = asides;
    let Some(aside) = asides.pop() else {
        return kept;
    };
    let mut media = media;
    let Some(medium) = media.pop() else {
        unreachable!()
    };
    let place = asides.len();
    let kept = keep_nodes(plan, asides, media, kept);
    keep_openings(node_at(plan, place), put_back(aside, medium), kept)
}
