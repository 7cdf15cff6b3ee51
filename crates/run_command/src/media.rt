//! What a call answers.
ghost use Rattle.std.specs.Prelude.{◌≡◌};
ghost use Rattle.run_rounds.specs.Stories.{no_trace};

use medium_port::Medium;
use plan_volumes::Kept;
use run_rounds::Told;
use std::alloc::Global;
use value_form::Items;
use world_core::Trace;

/// What a call answers.
#[derive(Drop)]
pub struct Finish<M: Medium, F, C> {
    /// The status with which a program ends, 0 to 8.
    pub status: u8,
    /// What happened. Where no run began it names no node.
    pub trace: Told,
    /// The media that were taken, in the order of their nodes, and each node's by their volumes.
    pub media: Items<Kept<M>>,
    pub fates: F,
    pub clock: C,
    /// What happened between members and polls. But for `votes` it names nobody.
    pub votes: Trace,
}

/// The trace in which nobody votes.
pub fn no_votes(alloc: Global) -> Trace
    ensures { result ≡ no_trace }
{
    Trace {
        start: 0,
        opened: Items::of(Vec::new(alloc)),
        sent: Items::of(Vec::new(alloc)),
        entries: Items::of(Vec::new(alloc)),
    }
}

/// A call in which no run began.
pub fn quiet<M: Medium, F, C>(
    alloc: Global,
    status: u8,
    media: Vec<Kept<M>>,
    fates: F,
    clock: C,
) -> Finish<M, F, C>
    ensures status { result.status ≡ status }
    ensures trace { result.trace ≡ no_trace }
    ensures media { result.media ≡ media.items }
    ensures votes { result.votes ≡ no_trace }
    ensures told { (result.fates ≡ fates) × (result.clock ≡ clock) }
{
    Finish {
        status,
        trace: Told::none(alloc),
        media: Items::of(media),
        fates,
        clock,
        votes: no_votes(alloc),
    }
}
