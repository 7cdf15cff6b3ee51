//! Where a node can't be opened: a down visit for each such node, and no round.
ghost use Rattle.std.specs.Prelude.{◌≡◌, ◌≤◌, ◌⊎◌, length, take, vec_len, vec_capacity, All, Some, OnOk};
ghost use Rattle.plan_form.specs.PlanTexts.{CanRun};
ghost use Rattle.seat_lock.specs.Words.{base_of};
ghost use Rattle.node_rounds.specs.Sights.{IsWirePass};
ghost use Rattle.run_media.specs.Places as order;
ghost use Rattle.run_starts.specs.Seats.{Along};
ghost use Rattle.run_starts.specs.Starts.{IsUnseen, HasFallen};

use medium_port::Medium;
use node_rounds::{Reason, SharedWire, WirePass};
use plan_form::Plan;
use pseudo_time::NodeId;
use run_media::{Opening, node_at};
use std::alloc::AllocError;
use std::sync::Wait;
use stream_port::{Clock, Fates};

// The down visit of a node, if it can't be opened.
fn down_visit<F: Fates, C: Clock, M: Medium, R: Wait>(
    rt: &R,
    wire: &SharedWire<F, C, M>,
    node: NodeId,
    opening: &Opening<M>,
    pass: WirePass<F, C, M>,
) -> (WirePass<F, C, M>, Result<(), AllocError>)
    requires pass { IsWirePass wire.now.lock pass }
    requires unseen { IsUnseen (base_of wire.now.lock) node opening.now pass }
    ensures pass { IsWirePass wire.now.lock result.0 }
    ensures fallen { OnOk result.1 (HasFallen (base_of wire.now.lock) node opening.now result.0) }
{
    match opening {
        Opening::Shut(_, cause) => {
            let (pass, fallen) = wire.down(rt, node, pass, *cause);
            (pass, fallen)
        }
        _ => (pass, Ok(())),
    }
}

/// A down visit for each node that can't be opened, in the order of the nodes.
pub fn down_visits<F: Fates, C: Clock, M: Medium, R: Wait>(
    rt: &R,
    wire: &SharedWire<F, C, M>,
    plan: &Plan,
    openings: &[Opening<M>],
    mut passes: Vec<WirePass<F, C, M>>,
) -> (Vec<WirePass<F, C, M>>, Reason)
    requires plan { CanRun plan.now }
    requires count { (length openings.now ≡ order.node_count plan.now) × (vec_len passes ≤ length openings.now) }
    requires passes { All (IsWirePass wire.now.lock) passes.items }
    requires unseen { Along (λ i o pass.
        IsUnseen (base_of wire.now.lock) (order.node_at plan.now i) o pass) 0
        (take (vec_len passes) openings.now) passes.items }
    ensures passes { All (IsWirePass wire.now.lock) result.0.items }
    ensures fallen { result.1 ≡ Reason.Down →
        Along (λ i o pass. HasFallen (base_of wire.now.lock) (order.node_at plan.now i) o pass) 0
        (take (vec_len passes) openings.now) result.0.items }
    ensures reason { (result.1 ≡ Reason.Down) ⊎ (result.1 ≡ Reason.Wanting) }
    ensures count { (vec_len result.0 ≡ vec_len passes) × (vec_capacity result.0 ≡ vec_capacity passes) }
{
    let Some(pass) = passes.pop() else {
        return (passes, Reason::Down);
    };
    let place = passes.len();
    let (mut passes, reason) = down_visits(rt, wire, plan, openings, passes);
    let (pass, fallen) = down_visit(rt, wire, node_at(plan, place), &openings[place], pass);
    passes.push_reserved(pass);
    if fallen.is_err() {
        return (passes, Reason::Wanting);
    }
    (passes, reason)
}
