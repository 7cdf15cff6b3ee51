//! The start of a run: its wire, and the passes of its nodes.
ghost use Rattle.std.specs.Prelude.{◌≡◌, ◌≢◌, ◌<◌, [], length, vec_len, vec_capacity, AllPairs, IfOk};
ghost use Rattle.seat_lock.specs.Words.{base_of};
ghost use Rattle.plan_form.specs.PlanTexts.{CanRun};
ghost use Rattle.node_rounds.specs.Sights.{owners_for};
ghost use Rattle.run_media.specs.Places as order;
ghost use Rattle.run_starts.specs.Starts.{HasPasses, IsSetUp};

use medium_port::Medium;
use node_rounds::{SharedWire, Wire, WirePass};
use plan_form::Plan;
use run_media::{Opening, opened_nodes};
use std::alloc::{AllocError, Global};
use stream_port::{Clock, Fates};

/// The wire of a run, with the passes of its nodes, in their order, and the conductor's. None of them is
/// let go.
pub struct Begun<F: Fates, C: Clock, M: Medium> {
    pub wire: SharedWire<F, C, M>,
    pub passes: Vec<WirePass<F, C, M>>,
    pub conductor: WirePass<F, C, M>,
    /// The moment at which the run begins.
    pub start: u64,
}

/// The wire of a run over what was opened.
pub fn wire_for<F: Fates, C: Clock, M: Medium>(
    alloc: Global,
    plan: &Plan,
    openings: &[Opening<M>],
    fates: F,
    clock: C,
) -> Result<Begun<F, C, M>, (F, C, AllocError)>
    requires plan { CanRun plan.now }
    requires count { length openings.now ≡ order.node_count plan.now }
    ensures set_up { IfOk result (λ b. IsSetUp plan.now openings.now (F.asked fates) (C.answers clock)
        (base_of b.wire.lock).origin) }
    ensures has { IfOk result (λ b. HasPasses b.wire.lock b.start b.passes.items b.conductor) }
    ensures room { IfOk result (λ b. vec_len b.passes < vec_capacity b.passes) }
{
    let Ok(opened) = opened_nodes(alloc, plan, openings) else {
        return Err((fates, clock, AllocError));
    };
    match Wire::new(alloc, plan.run, &plan.acts, opened, fates, clock) {
        Err(refused) => Err(refused),
        Ok(wire) => {
            let start = wire.start();
            shared(alloc, wire, start)
        }
    }
}

// The wire under its lock, with its passes.
fn shared<F: Fates, C: Clock, M: Medium>(
    alloc: Global,
    wire: Wire<F, C, M>,
    start: u64,
) -> Result<Begun<F, C, M>, (F, C, AllocError)>
    requires new { wire.entries ≡ [] }
    requires start { start ≡ wire.origin.start }
    requires differ { AllPairs (λ a b. a ≢ b) (owners_for wire.origin.opened) }
    ensures base { IfOk result (λ b. base_of b.wire.lock ≡ wire) }
    ensures has { IfOk result (λ b. HasPasses b.wire.lock b.start b.passes.items b.conductor) }
    ensures room { IfOk result (λ b. vec_len b.passes < vec_capacity b.passes) }
{
    match SharedWire::new(alloc, wire) {
        Ok((wire, passes)) => {
            let mut passes = passes;
            let Some(conductor) = passes.pop() else {
                unreachable!()
            };
            Ok(Begun {
                wire,
                passes,
                conductor,
                start,
            })
        }
        Err((wire, wanting)) => {
            let (_, fates, clock) = wire.finish();
            Err((fates, clock, wanting))
        }
    }
}
