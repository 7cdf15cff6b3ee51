//! What a node runs, and the visits that give it its inputs, each followed by what its core gives.
#![tactic(auto)]

mod core_meanings;
mod cores;
mod drafts;
mod inputs;

pub use core_meanings::Meanings;
pub use cores::StoredCore;
pub use drafts::TurnDraft;
pub use effect_form::Effect;
pub use inputs::{added, begin, take_more};
pub use medium_port::Medium;
pub use message_form::{Message, Out, Turn};
pub use object_history::HistoryFault;
pub use pseudo_time::{Decision, DownCause, NodeId, NodeKind, Stamp};
pub use stream_port::{Clock, Fates};
pub use version_store::{OpenFault, Store, StoreFault};
pub use wire_core::Wire;
pub use wire_lock::{Closed, SharedWire, Told, WirePass};
