//! A repository's turn in hand: what it adds to its log and sends, and the reads and askers that
//! wait.
#![tactic(auto)]

mod drafts;
mod replies;
mod waits;

pub use drafts::Draft;
pub use effect_form::Effect;
pub use message_form::{Message, Out, Turn};
pub use object_history::{Histories, HistoryFault, ReadStep, WriteStep};
pub use value_form::{ObjectId, Value};
pub use waits::{Asker, HeldRead};
