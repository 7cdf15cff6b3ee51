//! A trace: everything that happened in a run.
use crate::entries::Entry;
use effect_form::Effect;
use message_form::Message;
use pseudo_time::NodeId;
use stream_port::Fate;
use value_form::Items;

/// A node of a run, and the effects that its log had when it was opened, the first one first.
#[derive(Debug, Drop)]
pub struct Opened {
    pub node: NodeId,
    pub effects: Items<Effect>,
}

/// A message that was sent.
#[derive(Debug, Drop)]
pub struct Sent {
    /// Messages are numbered from 1, in the order of their sending.
    pub number: u32,
    pub from: NodeId,
    pub to: NodeId,
    pub message: Message,
    /// What came of it.
    pub fate: Fate,
}

/// What happened in a run.
#[derive(Debug, Drop)]
pub struct Trace {
    /// The moment at which the run began.
    pub start: u64,
    pub opened: Items<Opened>,
    pub sent: Items<Sent>,
    /// In the order in which they happened.
    pub entries: Items<Entry>,
}
