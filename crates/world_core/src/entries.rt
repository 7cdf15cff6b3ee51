//! The entries of a trace.
use pseudo_time::{DownCause, NodeId, Stamp};

/// One thing that happened in a run. All but a Tick name the node that it happened to.
#[derive(Clone, Copy, Debug, PartialEq, Eq)]
pub enum Entry {
    /// The node took a copy of the message with this number, counted from 1.
    Take {
        node: NodeId,
        number: u32,
    },
    /// The broker set to work on its acts.
    Go {
        node: NodeId,
    },
    /// The repository learned how an attempt was decided.
    Learn {
        node: NodeId,
        stamp: Stamp,
        committed: bool,
    },
    /// The node heard the moment of the last Tick.
    Hear {
        node: NodeId,
    },
    /// The node's new effects are durable, and the messages that it owes are sent.
    Gate {
        node: NodeId,
    },
    /// The node stopped and was opened again. So many of its effects that weren't gated were found.
    Crash {
        node: NodeId,
        kept: u32,
    },
    /// The node stopped for good.
    Down {
        node: NodeId,
        cause: DownCause,
    },
    /// It is this moment now.
    Tick {
        moment: u64,
    },
}
