//! The entries so far, and the flags of each node after them.
ghost use Rattle.std.specs.Prelude.{◌≡◌, ◌↔◌, [], ℕ, true, false, IsTrue, IfOk, OnOk, OnErr, MatchOption, Some, None, map, if◌then◌else◌};
ghost use Rattle.std.specs.List.{list_any};
ghost use Rattle.pseudo_time.specs.declared.nodes.NodeId.{NodeId};
ghost use Rattle.pseudo_time.specs.Nodes.{same_node};
ghost use Rattle.world_core.specs.Walks.{names, ticks_after};
ghost use Rattle.wire_core.specs.Flagged.{flags_at, new_flags, after_entry, standing_at, is_idle_at, names_of};
ghost use Rattle.wire_core.specs.Stories.{HasOneMore, IsSameStory, IsOpened};

use crate::flags::{NodeFlags, Standing, as_opened};
use pseudo_time::NodeId;
use std::alloc::{AllocError, Global};
use std::collections::BTreeMap;
use world_core::{Entry, Opened};

/// How the nodes of a run stand, by their names.
pub type Nodes = BTreeMap<NodeId, NodeFlags>;

/// The entries, and how the nodes stand after them.
#[derive(Drop)]
pub struct Story {
    pub entries: Vec<Entry>,
    pub nodes: Nodes,
    /// How many ticks there were.
    pub ticks: u64,
    /// The moment of the last tick.
    pub last: Option<u64>,
}

/// The names of nodes that were opened, in their order.
pub fn names_of(alloc: Global, opened: &[Opened]) -> Result<Vec<NodeId>, AllocError>
    ensures { IfOk result (λ names. names.items ≡ names_of opened.now) }
{
    let mut names = Vec::new(alloc);
    for one in opened {
        names.push(one.node)?;
    }
    Ok(names)
}

// The nodes with these names, as they are opened.
fn nodes_with(alloc: Global, names: &[NodeId]) -> Result<Nodes, AllocError>
    ensures { IfOk result (λ nodes. (n : NodeId) →
        flags_at nodes.entries n ≡ (if list_any (λ m. same_node m n) names.now then Some new_flags else None)) }
{
    let mut nodes = BTreeMap::new(alloc);
    for name in names {
        nodes.insert(*name, as_opened())?;
    }
    Ok(nodes)
}

// The node that an entry names. A tick names none.
fn node_of(entry: &Entry) -> Option<NodeId>
    ensures { MatchOption result ((n : NodeId) → names n entry.now ≡ false) (λ m. (n : NodeId) →
        names n entry.now ≡ same_node m n) }
{
    match entry {
        Entry::Take { node, number: _ } => Some(*node),
        Entry::Go { node } => Some(*node),
        Entry::Learn {
            node,
            stamp: _,
            committed: _,
        } => Some(*node),
        Entry::Hear { node } => Some(*node),
        Entry::Gate { node } => Some(*node),
        Entry::Crash { node, kept: _ } => Some(*node),
        Entry::Down { node, cause: _ } => Some(*node),
        Entry::Tick { moment: _ } => None,
    }
}

// The nodes after an entry.
fn note(nodes: &mut Nodes, last: Option<u64>, ticks: u64, entry: &Entry)
    ensures { (n : NodeId) → flags_at nodes.new.entries n ≡ after_entry last ticks entry.now n
        (flags_at nodes.old.entries n) }
{
    let Some(node) = node_of(entry) else {
        return;
    };
    let Some(flags) = nodes.get_mut(&node) else {
        return;
    };
    *flags = flags.after_own(last, ticks, node.kind, entry);
}

// How many ticks there are after an entry.
fn ticks_after(ticks: u64, entry: &Entry) -> Result<u64, AllocError>
    ensures { IfOk result (λ t. t ≡ ticks_after ticks entry.now) }
{
    match entry {
        Entry::Tick { moment: _ } => match ticks.checked_add(1) {
            Some(more) => Ok(more),
            None => Err(AllocError),
        },
        _ => Ok(ticks),
    }
}

impl Story {
    /// A story without entries, of nodes with these names.
    pub fn open(alloc: Global, names: &[NodeId]) -> Result<Story, AllocError>
        ensures { IfOk result (IsOpened names.now) }
    {
        let nodes = nodes_with(alloc, names)?;
        Ok(Story {
            entries: Vec::new(alloc),
            nodes,
            ticks: 0,
            last: None,
        })
    }

    /// Adds an entry. There are fewer than 2^32, and a call that would pass that answers the same as
    /// where memory runs out.
    pub fn add(&mut self, entry: Entry) -> Result<(), AllocError>
        ensures ok { OnOk result (HasOneMore self.old self.new entry) }
        ensures err { OnErr result (IsSameStory self.old self.new) }
    {
        if self.entries.len() >= u32::MAX as usize {
            return Err(AllocError);
        }
        let ticks = ticks_after(self.ticks, &entry)?;
        self.entries.push(entry)?;
        note(&mut self.nodes, self.last, self.ticks, &entry);
        self.ticks = ticks;
        if let Entry::Tick { moment } = entry {
            self.last = Some(moment);
        }
        Ok(())
    }

    /// How a node stands.
    pub fn standing(&self, node: NodeId) -> Standing
        ensures { result ≡ standing_at self.now.last self.now.ticks (flags_at self.now.nodes.entries node) }
    {
        match self.nodes.get(&node) {
            Some(flags) => flags.standing(self.last, self.ticks),
            None => Standing {
                up: false,
                gone: false,
                due: false,
                behind: false,
            },
        }
    }

    // Whether a node is down, isn't of the run, or has nothing to do beside taking copies.
    fn is_idle_at(&self, node: NodeId) -> bool
        ensures { result ≡ is_idle_at self.now.last self.now.ticks node (flags_at self.now.nodes.entries node) }
    {
        match self.nodes.get(&node) {
            Some(flags) => flags.is_idle(self.last, self.ticks, node.kind),
            None => true,
        }
    }

    /// Whether no node that is up has anything to do, beside taking copies.
    pub fn is_idle(&self) -> bool
        ensures { IsTrue result ↔ ((n : NodeId) →
            is_idle_at self.now.last self.now.ticks n (flags_at self.now.nodes.entries n) ≡ true) }
    {
        for (node, _flags) in &self.nodes {
            if !self.is_idle_at(*node) {
                return false;
            }
        }
        true
    }
}
