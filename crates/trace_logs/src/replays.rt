//! Carries a trace out again, entry by entry.
ghost use Rattle.std.specs.Prelude.{◌≡◌, ◌≤◌, ◌<◌, ◌^◌, ℕ, List, true, length, slice_index_or, Some, None, IfOk, OnOk, MatchOption};
ghost use Rattle.pseudo_time.specs.Lists.{Every};
ghost use Rattle.pseudo_time.specs.declared.nodes.NodeId.{NodeId};
ghost use Rattle.broker_core.specs.Ledgers.{AreBrokerActs};
ghost use Rattle.broker_core.specs.Tasks.{Scripted};
ghost use Rattle.pseudo_time.specs.Nodes.{same_node};
ghost use Rattle.serial_model.specs.Questions.{Tree};
ghost use Rattle.world_core.specs.declared.traces.Opened.{Opened};
ghost use Rattle.world_core.specs.declared.entries.Entry.TheVariants as entry;
ghost use Rattle.world_core.specs.Walks.{Base, World, opened_life, walk, step};
ghost use Rattle.trace_logs.specs.Cores.{own_acts};
ghost use Rattle.trace_logs.specs.ReplayedNodes.{Lives, IsSound};
ghost use Rattle.trace_logs.specs.Replays.{IsOpened, IsOnce, IsMoment, IsAbsent, Shows, IsFit, AreAt, base_for, logs_in, gated_logs};

use crate::letters::{SentMessage, letter_at};
use crate::replayed_nodes::ReplayedNode;
use effect_form::Effect;
use pseudo_time::{NodeId, NodeKind, Stamp};
use std::alloc::{AllocError, Global};
use value_form::{ActSpec, Items};
use world_core::{Entry, Opened, Trace};

/// A run at a place of its trace.
#[derive(Drop)]
pub struct Replay {
    alloc: Global,
    run: u32,
    start: u64,
    /// The nodes that were opened, in their order.
    replayed: Vec<ReplayedNode>,
    /// The message with number k stands at place k - 1.
    letters: Vec<SentMessage>,
    /// The moment of the last Tick.
    last: Option<u64>,
}

// The place of a node.
fn place_of(replayed: &[ReplayedNode], node: NodeId) -> Option<usize>
    ensures { MatchOption result (IsAbsent node replayed.now)
        (λ place. (place < length replayed.now) × ((d : ReplayedNode) →
        same_node (slice_index_or replayed.now place d).node node ≡ true)) }
{
    for place in 0..replayed.len() {
        if replayed[place].node == node {
            return Some(place);
        }
    }
    None
}

// A broker's own acts of the plan. A repository has none.
fn acts_of(alloc: Global, node: NodeId, acts: &[ActSpec]) -> Result<Vec<ActSpec>, AllocError>
    ensures { IfOk result (λ own. own.items ≡ own_acts node acts.now) }
{
    let mut own = Vec::new(alloc);
    if node.kind == NodeKind::Repository {
        return Ok(own);
    }
    for act in acts {
        if act.broker == node.number {
            own.push(act.copy(alloc)?)?;
        }
    }
    Ok(own)
}

fn copies(alloc: Global, effects: &[Effect]) -> Result<Vec<Effect>, AllocError>
    ensures { IfOk result (λ copied. copied.items ≡ effects.now) }
{
    let mut copied = Vec::new(alloc);
    for effect in effects {
        copied.push(effect.copy(alloc)?)?;
    }
    Ok(copied)
}

// A node as it was opened.
fn opened_node(
    alloc: Global,
    run: u32,
    start: u64,
    acts: &[ActSpec],
    opened: &Opened,
) -> Result<ReplayedNode, AllocError>
    requires run { 1 ≤ run }
    requires acts { AreBrokerActs acts.now }
    requires opened { IsOpened opened.now }
    requires start { start ≤ 2 ^ 63 }
    ensures lives { (b : Base) → b.run ≡ run → b.acts ≡ acts.now → Scripted b.script acts.now
        → IfOk result (λ s. Lives b s (opened_life start opened.now.effects)) }
    ensures node { IfOk result (λ s. s.node ≡ opened.now.node) }
    ensures sound { IfOk result IsSound }
{
    let own = acts_of(alloc, opened.node, acts)?;
    let log = copies(alloc, opened.effects.as_slice())?;
    ReplayedNode::open(alloc, run, start, opened.node, own, log)
}

// The nodes as they were opened.
fn opened_nodes(
    alloc: Global,
    run: u32,
    start: u64,
    acts: &[ActSpec],
    opened: &[Opened],
) -> Result<Vec<ReplayedNode>, AllocError>
    requires run { 1 ≤ run }
    requires acts { AreBrokerActs acts.now }
    requires opened { Every IsOpened opened.now }
    requires start { start ≤ 2 ^ 63 }
    ensures lives { (b : Base) → b.run ≡ run → b.acts ≡ acts.now → Scripted b.script acts.now
        → IfOk result (λ replayed. AreAt b start opened.now replayed.items) }
    ensures sound { IfOk result (λ replayed. Every IsSound replayed.items) }
{
    let mut replayed = Vec::new(alloc);
    for one in opened {
        let node = opened_node(alloc, run, start, acts, one)?;
        replayed.push(node)?;
    }
    Ok(replayed)
}

// The nodes with their durable logs.
fn logs_of(alloc: Global, replayed: Vec<ReplayedNode>) -> Result<Vec<Opened>, AllocError>
    ensures { IfOk result (λ opened. opened.items ≡ gated_logs replayed.items) }
{
    let mut opened = Vec::new(alloc);
    for node in replayed {
        opened.push(Opened {
            node: node.node,
            effects: Items::of(node.gated),
        })?;
    }
    Ok(opened)
}

impl Replay {
    // The node takes a message. One that was not sent gives nothing.
    fn take(&mut self, node: NodeId, number: u32) -> Result<(), AllocError>
        requires fit { IsFit self.old }
        ensures shows { (b : Base) (w : World) → Shows b w self.old →
            OnOk result (Shows b (step b w (entry.Take node number)) self.new) }
        ensures fit { OnOk result (IsFit self.new) }
    {
        let Some(place) = place_of(self.replayed.as_slice(), node) else {
            return Ok(());
        };
        match letter_at(self.letters.as_slice(), number) {
            None => Ok(()),
            Some(letter) => self.replayed[place].take(letter.from, &letter.out.message),
        }
    }

    // The node goes.
    fn go(&mut self, node: NodeId) -> Result<(), AllocError>
        requires fit { IsFit self.old }
        ensures shows { (b : Base) (w : World) → Shows b w self.old →
            OnOk result (Shows b (step b w (entry.Go node)) self.new) }
        ensures fit { OnOk result (IsFit self.new) }
    {
        let Some(place) = place_of(self.replayed.as_slice(), node) else {
            return Ok(());
        };
        self.replayed[place].go(self.alloc)
    }

    // The node learns a decision.
    fn learn(&mut self, node: NodeId, stamp: Stamp, committed: bool) -> Result<(), AllocError>
        requires fit { IsFit self.old }
        ensures shows { (b : Base) (w : World) → Shows b w self.old →
            OnOk result (Shows b (step b w (entry.Learn node stamp committed)) self.new) }
        ensures fit { OnOk result (IsFit self.new) }
    {
        let Some(place) = place_of(self.replayed.as_slice(), node) else {
            return Ok(());
        };
        self.replayed[place].learn(self.alloc, stamp, committed)
    }

    // The node hears the moment of the last Tick. Before any there is none.
    fn hear(&mut self, node: NodeId) -> Result<(), AllocError>
        requires fit { IsFit self.old }
        ensures shows { (b : Base) (w : World) → Shows b w self.old →
            OnOk result (Shows b (step b w (entry.Hear node)) self.new) }
        ensures fit { OnOk result (IsFit self.new) }
    {
        let Some(place) = place_of(self.replayed.as_slice(), node) else {
            return Ok(());
        };
        match self.last {
            None => Ok(()),
            Some(moment) => self.replayed[place].hear(moment),
        }
    }

    // The node gates.
    fn gate(&mut self, node: NodeId) -> Result<(), AllocError>
        requires fit { IsFit self.old }
        ensures shows { (b : Base) (w : World) → Shows b w self.old →
            OnOk result (Shows b (step b w (entry.Gate node)) self.new) }
        ensures fit { OnOk result (IsFit self.new) }
    {
        let Some(place) = place_of(self.replayed.as_slice(), node) else {
            return Ok(());
        };
        self.replayed[place].gate(self.alloc, &mut self.letters)
    }

    // The node crashes, and is opened anew.
    fn crash(&mut self, node: NodeId, kept: u32) -> Result<(), AllocError>
        requires fit { IsFit self.old }
        ensures shows { (b : Base) (w : World) → Shows b w self.old →
            OnOk result (Shows b (step b w (entry.Crash node kept)) self.new) }
        ensures fit { OnOk result (IsFit self.new) }
    {
        let Some(place) = place_of(self.replayed.as_slice(), node) else {
            return Ok(());
        };
        self.replayed[place].crash(self.alloc, self.run, self.start, kept)
    }

    // One entry. That of a node that was not opened gives nothing.
    fn on_entry(&mut self, entry: &Entry) -> Result<(), AllocError>
        requires fit { IsFit self.old }
        requires moment { IsMoment entry.now }
        ensures shows { (b : Base) (w : World) → Shows b w self.old →
            OnOk result (Shows b (step b w entry.now) self.new) }
        ensures fit { OnOk result (IsFit self.new) }
    {
        match entry {
            Entry::Take { node, number } => self.take(*node, *number),
            Entry::Go { node } => self.go(*node),
            Entry::Learn {
                node,
                stamp,
                committed,
            } => self.learn(*node, *stamp, *committed),
            Entry::Hear { node } => self.hear(*node),
            Entry::Gate { node } => self.gate(*node),
            Entry::Crash { node, kept } => self.crash(*node, *kept),
            Entry::Down { node: _, cause: _ } => Ok(()),
            Entry::Tick { moment } => {
                self.last = Some(*moment);
                Ok(())
            }
        }
    }
}

/// The durable log of each node that was opened, in the order of `opened`, at the end of the trace. The
/// trace may be illegal; its `sent` is never read.
///
/// The cost is what the cores take for the entries, and one reading of a node's log at each Crash.
///
/// `acts` are those of the plan, and runs count from 1. Numbers of nodes are 1 to 16, no node is opened
/// twice, the effects in the logs are in range, and no moment is above 2^63.
pub fn logs(
    alloc: Global,
    run: u32,
    acts: &[ActSpec],
    trace: &Trace,
) -> Result<Vec<Opened>, AllocError>
    requires run { 1 ≤ run }
    requires acts { AreBrokerActs acts.now }
    requires opened { Every IsOpened trace.now.opened }
    requires once { IsOnce trace.now.opened }
    requires start { trace.now.start ≤ 2 ^ 63 }
    requires moments { Every IsMoment trace.now.entries }
    ensures { (script : List ℕ → Tree) → Scripted script acts.now
        → IfOk result (λ logs. logs.items ≡ logs_in (walk (base_for script run acts.now trace.now) trace.now.entries)
        trace.now.opened) }
{
    let mut replay = Replay {
        alloc,
        run,
        start: trace.start,
        replayed: opened_nodes(alloc, run, trace.start, acts, trace.opened.as_slice())?,
        letters: Vec::with_capacity(alloc, trace.sent.as_slice().len())?,
        last: None,
    };
    for entry in trace.entries.as_slice() {
        replay.on_entry(entry)?;
    }
    logs_of(alloc, replay.replayed)
}
