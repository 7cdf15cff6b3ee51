//! The messages between members and polls on their way, and the trace of what happened.
ghost use Rattle.std.specs.Option.{unwrap_or};
ghost use Rattle.std.specs.Prelude.{◌≡◌, ◌++◌, ◌∷◌, [], ◌↔◌, ◌^◌, ◌≤◌, min, length, is_some, Some, IsTrue, IfOk, IfErr, OnOk, OnErr};
ghost use Rattle.stream_port.specs.Clocks.{Adds};
ghost use Rattle.message_core.specs.Flights.{AllEmpty, passed, was_shut};
ghost use Rattle.message_core.specs.Parts.{state_of};
ghost use Rattle.message_form.specs.Ranges.{AreOuts};
ghost use Rattle.world_core.specs.declared.entries.Entry.TheVariants as entry;
ghost use Rattle.vote_courier.specs.Couriers.{HasSent, IsNew, Takes, tick_moment, with_entry};

use message_core::{Arrival, Flight};
use message_form::Out;
use pseudo_time::{DownCause, NodeId};
use std::alloc::{AllocError, Global};
use std::marker::Model;
use stream_port::{Clock, Fates};
use value_form::Items;
use vote_wire::send_all;
use world_core::{Entry, Opened, Sent, Trace};

/// The copies of messages between members and polls, and the trace of what happened. After an error
/// the run has to end: memory runs out.
#[derive(Drop)]
pub struct Courier<F: Fates, C: Clock> {
    alloc: Global,
    start: u64,
    opened: Vec<Opened>,
    sent: Vec<Sent>,
    entries: Vec<Entry>,
    flight: Flight,
    fates: F,
    clock: C,
    last: Option<u64>,
}

impl<F: Fates, C: Clock> Model for Courier<F, C> {
    ghost use Rattle.vote_courier.specs.Couriers.{CourierParts, HasSmallMoments};

    ghost Value = { CourierParts };

    ghost view = { λ c. record {
      start = c.start;
      opened = c.opened.items;
      sent = c.sent.items;
      entries = c.entries.items;
      asked = F.asked c.fates;
      answers = C.answers c.clock;
      flight = c.flight;
      last = c.last;
    } };

    ghost invariant = { λ c. HasSmallMoments c.start c.last c.entries.items };
}

impl<F: Fates, C: Clock> Courier<F, C> {
    /// A courier between nodes with these names, each opened with its effects. Asks the clock once, for
    /// the moment at which the run begins: a later one than 2^62 counts as 2^62.
    pub fn new(
        alloc: Global,
        names: &[NodeId],
        opened: Vec<Opened>,
        fates: F,
        clock: C,
    ) -> Result<Courier<F, C>, (F, C)>
        ensures new { IfOk result (IsNew names.now opened.items (F.asked fates)) }
        ensures clock { IfOk result (λ c. (first : _) × Adds (C.answers clock) c.answers (first ∷ []) ×
            (c.start ≡ min first (2 ^ 62))) }
        ensures err { IfErr result (λ e. F.asked e.0 ≡ F.asked fates) }
    {
        let mut clock = clock;
        let start = clock.moment().min(1 << 62);
        let Ok(flight) = Flight::new(alloc, names) else {
            return Err((fates, clock));
        };
        Ok(Courier {
            alloc,
            start,
            opened,
            sent: Vec::new(alloc),
            entries: Vec::new(alloc),
            flight,
            fates,
            clock,
            last: None,
        })
    }

    // Adds an entry. There are fewer than 2^32, and a call that would pass that answers the same as
    // where memory runs out.
    fn note(&mut self, entry: Entry) -> Result<(), AllocError>
        ensures ok { OnOk result (self.new ≡ with_entry self.old entry) }
        ensures err { OnErr result (self.new ≡ self.old) }
    {
        if self.entries.len() >= u32::MAX as usize {
            return Err(AllocError);
        }
        self.entries.push(entry)?;
        Ok(())
    }

    /// Takes the node's first due copy, if there is one.
    pub fn take(&mut self, node: NodeId) -> Result<Option<Arrival>, AllocError>
        ensures takes { IfOk result (Takes node self.old self.new) }
    {
        let Some(arrival) = self.flight.take(node)? else {
            return Ok(None);
        };
        let number = arrival.number;
        self.note(Entry::Take { node, number })?;
        Ok(Some(arrival))
    }

    /// The poll goes.
    pub fn go(&mut self, node: NodeId) -> Result<(), AllocError>
        ensures ok { OnOk result (self.new ≡ with_entry self.old (entry.Go node)) }
        ensures err { OnErr result (self.new ≡ self.old) }
    {
        self.note(Entry::Go { node })
    }

    /// The node hears the moment of the last tick.
    pub fn hear(&mut self, node: NodeId) -> Result<(), AllocError>
        ensures ok { OnOk result (self.new ≡ with_entry self.old (entry.Hear node)) }
        ensures err { OnErr result (self.new ≡ self.old) }
    {
        self.note(Entry::Hear { node })
    }

    /// The node's new effects are durable. Sends the messages, in order, and asks the fates once for
    /// each.
    pub fn gate(&mut self, node: NodeId, outs: Vec<Out>) -> Result<(), AllocError>
        requires { AreOuts outs.items }
        ensures { OnOk result (HasSent node outs.items self.old self.new) }
    {
        if self.sent.len() + outs.len() >= u32::MAX as usize {
            return Err(AllocError);
        }
        let first = self.sent.len() as u32 + 1;
        let mut news = send_all(
            self.alloc,
            &mut self.fates,
            &mut self.flight,
            first,
            node,
            outs,
        )?;
        self.sent.append(&mut news)?;
        self.note(Entry::Gate { node })
    }

    /// The member stopped, and was opened again with so many of its effects that weren't gated.
    pub fn crash(&mut self, node: NodeId, kept: u32) -> Result<(), AllocError>
        ensures ok { OnOk result (self.new ≡ with_entry self.old (entry.Crash node kept)) }
        ensures err { OnErr result (self.new ≡ self.old) }
    {
        self.note(Entry::Crash { node, kept })
    }

    /// The member stopped for good.
    pub fn down(&mut self, node: NodeId, cause: DownCause) -> Result<(), AllocError>
        ensures ok { OnOk result (state_of self.new.flight ≡ was_shut (state_of self.old.flight) node) }
        ensures entries { OnOk result (self.new ≡ record (with_entry self.old (entry.Down node cause))
            { flight = self.new.flight }) }
        ensures err { OnErr result (self.new ≡ self.old) }
    {
        self.note(Entry::Down { node, cause })?;
        self.flight.shut(node);
        Ok(())
    }

    /// The moment at which the run began.
    pub fn start(&self) -> u64
        ensures start { result ≡ self.now.start }
        ensures most { result ≤ 2 ^ 63 }
    {
        self.start
    }

    /// The moment of the last tick, or that at which the run began.
    pub fn moment(&self) -> u64
        ensures moment { result ≡ unwrap_or self.now.last self.now.start }
        ensures most { result ≤ 2 ^ 63 }
    {
        self.last.unwrap_or(self.start)
    }

    /// Whether a tick stands.
    pub fn has_ticked(&self) -> bool
        ensures { result ≡ is_some self.now.last }
    {
        self.last.is_some()
    }

    /// How many messages were sent.
    pub fn sent_count(&self) -> usize
        ensures { result ≡ length self.now.sent }
    {
        self.sent.len()
    }

    /// Whether no copy is due at any node.
    pub fn is_empty(&self) -> bool
        ensures { IsTrue result ↔ AllEmpty (state_of self.now.flight) }
    {
        self.flight.empty()
    }

    /// Lets time pass: asks the clock once.
    pub fn tick(&mut self) -> Result<(), AllocError>
        ensures clock { OnOk result ((answer moment : _) × Adds self.old.answers self.new.answers (answer ∷ []) ×
            (moment ≡ tick_moment self.old answer) ×
            (self.new.entries ≡ self.old.entries ++ entry.Tick moment ∷ []) × (self.new.last ≡ Some moment)) }
        ensures copies { OnOk result (state_of self.new.flight ≡ passed (state_of self.old.flight)) }
        ensures same { OnOk result ((self.new.start ≡ self.old.start) × (self.new.opened ≡ self.old.opened) ×
            (self.new.sent ≡ self.old.sent) × (self.new.asked ≡ self.old.asked)) }
    {
        let last = self.last.unwrap_or(self.start);
        let answer = self.clock.moment();
        let moment = answer.min(1 << 62).max(last + 1);
        self.flight.pass()?;
        self.note(Entry::Tick { moment })?;
        self.last = Some(moment);
        Ok(())
    }

    /// The trace, and the fates and the clock, handed back.
    pub fn finish(self) -> (Trace, F, C)
        ensures start { result.0.start ≡ self.start }
        ensures opened { result.0.opened ≡ self.opened }
        ensures sent { result.0.sent ≡ self.sent }
        ensures entries { result.0.entries ≡ self.entries }
        ensures told { (F.asked result.1 ≡ self.asked) × (C.answers result.2 ≡ self.answers) }
    {
        let Courier {
            alloc: _,
            start,
            opened,
            sent,
            entries,
            flight: _,
            fates,
            clock,
            last: _,
        } = self;
        let trace = Trace {
            start,
            opened: Items::of(opened),
            sent: Items::of(sent),
            entries: Items::of(entries),
        };
        (trace, fates, clock)
    }
}
