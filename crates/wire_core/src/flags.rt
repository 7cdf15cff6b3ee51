//! How a node is doing: up, heard, closed or gone.
ghost use Rattle.std.specs.Prelude.{◌≡◌};
ghost use Rattle.wire_core.specs.Flagged.{new_flags, after_own, standing, is_late, is_idle};

use pseudo_time::NodeKind;
use world_core::Entry;

/// How a node of the run stands.
#[derive(Clone, Copy, Debug, PartialEq, Eq)]
pub struct NodeFlags {
    pub up: bool,
    /// A broker went since it was opened.
    pub gone: bool,
    /// An entry stands that a gate has to close.
    pub due: bool,
    /// How many ticks there were when it last heard one. 0 where it heard none since it was opened.
    pub heard: u64,
}

/// How a node stands, and what it has to do beside taking copies. Of one that isn't of the run all is
/// false.
#[derive(Clone, Copy, Debug, PartialEq, Eq)]
pub struct Standing {
    pub up: bool,
    /// A broker went since it was opened.
    pub gone: bool,
    /// An entry stands that a gate has to close.
    pub due: bool,
    /// It hasn't heard the last tick.
    pub behind: bool,
}

/// A node as it is opened.
pub fn as_opened() -> NodeFlags
    ensures { result ≡ new_flags }
{
    NodeFlags {
        up: true,
        gone: false,
        due: false,
        heard: 0,
    }
}

impl NodeFlags {
    /// The node after an entry of its own. `last` is the moment of the last tick, and `ticks` how many
    /// ticks there were.
    pub fn after_own(
        &self,
        last: Option<u64>,
        ticks: u64,
        kind: NodeKind,
        entry: &Entry,
    ) -> NodeFlags
        ensures { result ≡ after_own last ticks kind entry.now self.now }
    {
        let mut flags = *self;
        match entry {
            Entry::Take { node: _, number: _ } => flags.due = true,
            Entry::Go { node: _ } => {
                if kind == NodeKind::Broker {
                    flags.gone = true;
                    flags.due = true;
                }
            }
            Entry::Learn {
                node: _,
                stamp: _,
                committed: _,
            } => {
                if kind == NodeKind::Repository {
                    flags.due = true;
                }
            }
            Entry::Hear { node: _ } => {
                flags.heard = ticks;
                if last.is_some() {
                    flags.due = true;
                }
            }
            Entry::Gate { node: _ } => flags.due = false,
            Entry::Crash { node: _, kept: _ } => {
                flags.gone = false;
                flags.due = false;
                flags.heard = 0;
            }
            Entry::Down { node: _, cause: _ } => flags.up = false,
            Entry::Tick { moment: _ } => {}
        }
        flags
    }

    /// How it stands.
    pub fn standing(&self, last: Option<u64>, ticks: u64) -> Standing
        ensures { result ≡ standing last ticks self.now }
    {
        Standing {
            up: self.up,
            gone: self.gone,
            due: self.due,
            behind: self.is_late(last, ticks),
        }
    }

    // Whether it hasn't heard the last tick.
    fn is_late(&self, last: Option<u64>, ticks: u64) -> bool
        ensures { result ≡ is_late last ticks self.now }
    {
        last.is_some() && self.heard != ticks
    }

    /// Whether it is down, or has nothing to do beside taking copies.
    pub fn is_idle(&self, last: Option<u64>, ticks: u64, kind: NodeKind) -> bool
        ensures { result ≡ is_idle last ticks kind self.now }
    {
        if !self.up {
            return true;
        }
        !self.due && !self.is_late(last, ticks) && (kind == NodeKind::Repository || self.gone)
    }
}
