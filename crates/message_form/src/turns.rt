//! What a turn of a node gives: effects, and messages to send.
ghost use Rattle.std.specs.Prelude.{◌≡◌, [], IfOk};

use crate::Message;
use effect_form::Effect;
use pseudo_time::NodeId;
use std::alloc::{AllocError, Global};
use value_form::Items;

/// A message that a node owes, and to whom.
#[derive(Debug, Drop, PartialEq, Eq)]
pub struct Out {
    pub to: NodeId,
    pub message: Message,
}

/// What a turn gives. The effects are appended to the node's log, in order; once they are durable
/// the messages are sent, in order.
#[derive(Debug, Drop)]
pub struct Turn {
    pub effects: Items<Effect>,
    pub outs: Items<Out>,
}

impl Out {
    /// An equal message to the same node.
    pub fn copy(&self, alloc: Global) -> Result<Out, AllocError>
        ensures { IfOk result (λ o. o ≡ self.now) }
    {
        let message = self.message.copy(alloc)?;
        Ok(Out {
            to: self.to,
            message,
        })
    }
}

impl Turn {
    /// A turn without effects and messages.
    pub fn quiet(alloc: Global) -> Turn
        ensures { (result.effects ≡ []) × (result.outs ≡ []) }
    {
        Turn {
            effects: Items::of(Vec::new(alloc)),
            outs: Items::of(Vec::new(alloc)),
        }
    }

    /// A turn with these effects and messages. Takes no memory.
    pub fn of(effects: Vec<Effect>, outs: Vec<Out>) -> Turn
        ensures { (result.effects ≡ effects.items) × (result.outs ≡ outs.items) }
    {
        Turn {
            effects: Items::of(effects),
            outs: Items::of(outs),
        }
    }
}
