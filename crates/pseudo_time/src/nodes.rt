//! The names of nodes.
ghost use Rattle.std.specs.Prelude.{◌≡◌};

/// What a node does in a run.
///
/// Repositories come before brokers in the order of node names.
#[derive(Clone, Copy, Debug, PartialEq, Eq, PartialOrd, Ord)]
pub enum NodeKind {
    /// Keeps objects, their histories and commit records.
    Repository,
    /// Carries scripts out as atomic actions.
    Broker,
}

/// The name of a node: its kind, and its number among the nodes of that kind, from 1 to 16.
#[derive(Clone, Copy, Debug, PartialEq, Eq, PartialOrd, Ord)]
pub struct NodeId {
    pub kind: NodeKind,
    pub number: u8,
}

impl NodeId {
    ghost use Rattle.pseudo_time.specs.Nodes as nodes;

    /// The repository of this number.
    pub fn repository(number: u8) -> NodeId
        ensures { result ≡ nodes.repository number }
    {
        NodeId {
            kind: NodeKind::Repository,
            number,
        }
    }

    /// The broker of this number.
    pub fn broker(number: u8) -> NodeId
        ensures { result ≡ nodes.broker number }
    {
        NodeId {
            kind: NodeKind::Broker,
            number,
        }
    }

    /// Whether this name comes before another: the meaning of `<`. Repositories come first, and
    /// nodes of one kind by their numbers.
    pub fn is_before(&self, other: NodeId) -> bool
        ensures { result ≡ nodes.node_lt self.now other }
    {
        *self < other
    }
}
