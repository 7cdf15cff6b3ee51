//! The start and the end of a shared wire.
ghost use Rattle.std.specs.Prelude.{◌≡◌, ◌≢◌, ◌+◌, ◌↔◌, [], length, map, vec_len, IsTrue, IfOk, IfErr, All, AllPairs};
ghost use Rattle.seat_lock.specs.Rule.{IsOneOf};
ghost use Rattle.seat_lock.specs.Words.{CarriesOn, base_of, fresh, knows};
ghost use Rattle.world_core.specs.Legal.{Idle, fates_of};
ghost use Rattle.wire_core.specs.Boards.{owner_for, owner_of};
ghost use Rattle.wire_lock.specs.Sights.{HasNothingOpen, IsWirePass, owners_for};
ghost use Rattle.wire_lock.specs.Stories.{IsWhole, LeavesUntold, end_of, no_trace};

use crate::shared::{SharedWire, WirePass};
use medium_port::Medium;
use pseudo_time::{NodeId, NodeKind};
use seat_lock::SeatLock;
use std::alloc::{AllocError, Global};
use std::marker::Model;
use stream_port::{Clock, Fates};
use value_form::Items;
use wire_core::Wire;
use world_core::{Opened, Trace};

/// A trace that the end of a shared wire reported, or that of no run. It is made in no other way.
#[derive(Debug, Drop)]
pub struct Told {
    trace: Trace,
}

impl Model for Told {
    ghost use Rattle.world_core.specs.declared.traces.Trace.{Trace};

    ghost Value = { Trace };

    ghost view = { λ t. t.trace };
}

impl Told {
    /// The trace of no run, which names no node.
    pub fn none(alloc: Global) -> Told
        ensures { result ≡ no_trace }
    {
        let trace = Trace {
            start: 0,
            opened: Items::of(Vec::new(alloc)),
            sent: Items::of(Vec::new(alloc)),
            entries: Items::of(Vec::new(alloc)),
        };
        Told { trace }
    }

    /// The trace.
    pub fn trace(&self) -> &Trace
        ensures { result.now ≡ self.now }
    {
        &self.trace
    }
}

/// A run that has ended.
#[derive(Drop)]
pub struct Closed<F, C> {
    /// Its trace.
    pub told: Told,
    /// At the end no node that is up had anything to do.
    pub idle: bool,
    /// The run's fates.
    pub fates: F,
    /// The run's clock.
    pub clock: C,
}

// The number of the owner of a node's entries.
fn owner_for(node: NodeId) -> u32
    ensures { result ≡ owner_for node }
{
    match node.kind {
        NodeKind::Repository => u32::from(node.number),
        NodeKind::Broker => 16 + u32::from(node.number),
    }
}

// The owners of the passes: the nodes in their order, and the conductor.
fn owners_for(alloc: Global, opened: &[Opened]) -> Result<Vec<u32>, AllocError>
    ensures { IfOk result (λ owners. owners.items ≡ owners_for opened.now) }
{
    let mut owners = Vec::new(alloc);
    for one in opened {
        owners.push(owner_for(one.node))?;
    }
    owners.push(0)?;
    Ok(owners)
}

impl<F: Fates, C: Clock, M: Medium> SharedWire<F, C, M> {
    /// Shares a wire to which nothing happened yet. There is a pass for each node, in the order in
    /// which they were opened, and a last one for the conductor.
    pub fn new(
        alloc: Global,
        wire: Wire<F, C, M>,
    ) -> Result<(SharedWire<F, C, M>, Vec<WirePass<F, C, M>>), (Wire<F, C, M>, AllocError)>
        requires empty { wire.entries ≡ [] }
        requires differ { AllPairs (λ a b. a ≢ b) (owners_for wire.origin.opened) }
        ensures base { IfOk result (λ r. base_of r.0.lock ≡ wire) }
        ensures passes { IfOk result (λ r. All (IsWirePass r.0.lock) r.1.items) }
        ensures fresh { IfOk result (λ r. map knows r.1.items ≡ map (fresh wire) (owners_for wire.origin.opened)) }
        ensures err { IfErr result (λ e. e.0 ≡ wire) }
    {
        let Ok(owners) = owners_for(alloc, wire.opened()) else {
            return Err((wire, AllocError));
        };
        match SeatLock::new(alloc, wire, owners.as_slice(), 4096) {
            Ok((lock, passes)) => Ok((SharedWire { lock }, passes)),
            Err(refused) => Err(refused),
        }
    }

    /// Ends the run: tells its trace, and hands the fates and the clock back. `passes` are all its
    /// passes, in any order. An error comes just where memory ran out in a visit, which only the
    /// wire knows: a pass doesn't.
    ///
    /// The entries begin with the story of each pass, and of the owner of each pass they have just
    /// that pass's own.
    pub fn close(self, passes: Vec<WirePass<F, C, M>>) -> Result<Closed<F, C>, (F, C, AllocError)>
        requires passes { All (IsWirePass self.lock) passes.items }
        requires all { vec_len passes ≡ length (base_of self.lock).origin.opened + 1 }
        ensures whole { IfOk result (λ r. IsWhole M.tells (base_of self.lock).origin r.told (F.asked r.fates)
            (C.answers r.clock)) }
        ensures idle { IsTrue M.tells →
            IfOk result (λ r. IsTrue r.idle ↔ Idle (fates_of r.told.sent) (end_of (base_of self.lock).origin r.told)) }
        ensures rest { IfOk result (λ r. IsTrue r.idle → HasNothingOpen (end_of (base_of self.lock).origin r.told)) }
        ensures carries { IfOk result (λ r. All (λ pass. CarriesOn owner_of (knows pass) r.told.entries) passes.items) }
        ensures owned { IfOk result (λ r. All (λ e. IsOneOf (owners_for (base_of self.lock).origin.opened)
            (owner_of e)) r.told.entries) }
        // Where it isn't told, there is one, too.
        ensures untold { IfErr result (λ e. LeavesUntold M.tells (base_of self.lock).origin passes.items) }
    {
        let SharedWire { lock } = self;
        let wire = lock.close(passes);
        let broken = wire.is_broken();
        let idle = wire.idle();
        let (trace, fates, clock) = wire.finish();
        if broken {
            return Err((fates, clock, AllocError));
        }
        Ok(Closed {
            told: Told { trace },
            idle,
            fates,
            clock,
        })
    }
}
