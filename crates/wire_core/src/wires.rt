//! The wire between the nodes of a run.
ghost use Rattle.std.specs.Prelude.{◌≡◌, ◌≤◌, ◌^◌, length, IsTrue, IfOk, IfErr};
ghost use Rattle.world_core.specs.Walks.{sent_by};
ghost use Rattle.wire_core.specs.Wires.{world_of, IsNew};

use crate::stories::{Story, names_of};
use medium_port::Medium;
use message_core::Flight;
use std::alloc::{AllocError, Global};
use std::marker::{Model, PhantomData};
use std::snapshot::Snapshot;
use stream_port::{Clock, Fates};
use value_form::{ActSpec, Items};
use world_core::{Opened, Sent};

/// The wire between the nodes of a run, with the trace of what happened. `M` is the type of the nodes'
/// media, which contracts alone use: a wire holds no medium.
///
/// Each change adds one entry to the trace, or none. A change that answers an error found no memory:
/// the trace is as before, the fates or the clock may have been asked, and every later change answers
/// the same. There are fewer than 2^32 messages and fewer than 2^32 entries, and a change that would
/// pass that answers the same.
#[derive(Drop)]
pub struct Wire<F: Fates, C: Clock, M: Medium> {
    pub(crate) alloc: Global,
    pub(crate) run: u32,
    /// The acts of the plan, for contracts alone.
    pub(crate) acts: Snapshot<Items<ActSpec>>,
    pub(crate) start: u64,
    pub(crate) opened: Vec<Opened>,
    pub(crate) sent: Vec<Sent>,
    pub(crate) story: Story,
    pub(crate) flight: Flight,
    pub(crate) fates: F,
    pub(crate) clock: C,
    /// The fates and the clock as they were handed in, for contracts alone.
    pub(crate) first_fates: Snapshot<F>,
    pub(crate) first_clock: Snapshot<C>,
    /// A change found no memory.
    pub(crate) broken: bool,
    pub(crate) media: PhantomData<M>,
}

impl<F: Fates, C: Clock, M: Medium> Model for Wire<F, C, M> {
    ghost use Rattle.std.specs.Coded.{codes};
    ghost use Rattle.value_form.specs.contracts.scripts.Stmt as stmt;
    ghost use Rattle.wire_core.specs.Wires.{WireParts};
    ghost use Rattle.wire_core.specs.Sound.{IsSound, origin_with, parts_with};

    ghost Value = { WireParts };

    ghost coded = { Prim.hlevel (codes, stmt.the_row.coded) };

    ghost view = { λ w. parts_with
        (origin_with w.run w.acts.value w.start w.opened.items (F.asked w.first_fates.value)
        (C.answers w.first_clock.value))
        w.story w.sent.items (F.asked w.fates) (C.answers w.clock) w.flight w.broken };

    ghost invariant = { λ w. IsSound M.tells (parts_with
        (origin_with w.run w.acts.value w.start w.opened.items (F.asked w.first_fates.value)
        (C.answers w.first_clock.value))
        w.story w.sent.items (F.asked w.fates) (C.answers w.clock) w.flight w.broken)
        w.story.nodes.entries w.story.ticks w.story.last };
}

impl<F: Fates, C: Clock, M: Medium> Wire<F, C, M> {
    /// A wire in a run of these nodes, each opened with its effects. Asks the clock once, for the
    /// moment at which the run begins: a later one than 2^62 counts as 2^62. Keeps no copy of the acts.
    pub fn new(
        alloc: Global,
        run: u32,
        acts: &Items<ActSpec>,
        opened: Vec<Opened>,
        fates: F,
        clock: C,
    ) -> Result<Wire<F, C, M>, (F, C, AllocError)>
        ensures origin { IfOk result (λ w. w.origin ≡ record {
          run = run;
          acts = acts.now;
          start = w.origin.start;
          opened = opened.items;
          asked = F.asked fates;
          answers = C.answers clock;
        }) }
        ensures empty { IfOk result IsNew }
        ensures start { IfOk result (λ w. w.origin.start ≤ 2 ^ 62) }
        ensures err { IfErr result (λ e. F.asked e.0 ≡ F.asked fates) }
    {
        let mut clock = clock;
        let first_fates = Snapshot::of(&fates);
        let first_clock = Snapshot::of(&clock);
        let start = clock.moment().min(1 << 62);
        let Ok(names) = names_of(alloc, opened.as_slice()) else {
            return Err((fates, clock, AllocError));
        };
        let Ok(story) = Story::open(alloc, names.as_slice()) else {
            return Err((fates, clock, AllocError));
        };
        let Ok(flight) = Flight::new(alloc, names.as_slice()) else {
            return Err((fates, clock, AllocError));
        };
        Ok(Wire {
            alloc,
            run,
            acts: Snapshot::of(acts),
            start,
            opened,
            sent: Vec::new(alloc),
            story,
            flight,
            fates,
            clock,
            first_fates,
            first_clock,
            broken: false,
            media: PhantomData,
        })
    }

    /// The moment at which the run began.
    pub fn start(&self) -> u64
        ensures { result ≡ self.now.origin.start }
    {
        self.start
    }

    /// The nodes of the run, each with the effects that it was opened with.
    pub fn opened(&self) -> &[Opened]
        ensures { result.now ≡ self.now.origin.opened }
    {
        self.opened.as_slice()
    }

    /// The number of messages sent.
    pub fn sent(&self) -> u32
        ensures count { result ≡ length self.now.sent }
        ensures told { IsTrue M.tells → result ≡ length (sent_by (world_of self.now)) }
    {
        self.sent.len() as u32
    }

    /// How many entries there are.
    pub fn entry_count(&self) -> u32
        ensures { result ≡ length self.now.entries }
    {
        self.story.entries.len() as u32
    }

    /// Whether a change found no memory.
    pub fn is_broken(&self) -> bool
        ensures { result ≡ self.now.broken }
    {
        self.broken
    }
}
