//! How a node is between two turns, and what a turn came to.
use node_inputs::DownCause;

/// How a node stands between two turns.
#[derive(Clone, Copy, Debug, PartialEq, Eq)]
pub enum Condition {
    AtWork,
    /// It stopped for good.
    Down { cause: DownCause },
    /// A turn found no memory: nothing is done any more.
    Wanting,
}

/// What came of a turn.
#[derive(Clone, Copy, Debug, PartialEq, Eq)]
pub enum Turned {
    Worked,
    /// The node has nothing to do but to take copies. That none was due, the wire promises, and not
    /// the turn.
    Quiet,
    /// The node is down.
    Stopped,
}
