//! What a broker's log comes to: its notes, the answers of the last try, and which effects count.
#![tactic(auto)]

mod closed;
mod givens;
mod heards;
mod ledgers;
mod logs;
mod notes;
mod resume_faults;

pub use closed::is_stamp;
pub use effect_form::{Effect, Outcome};
pub use heards::Heard;
pub use ledgers::{Ledger, copy_acts};
pub use logs::{counted_effects, take_up_all};
pub use notes::{Last, Notes};
pub use pseudo_time::{Decision, NodeId, PseudoTime, Stamp, next_clock};
pub use resume_faults::ResumeFault;
pub use script_form::print;
pub use script_run::Next;
pub use value_form::{ActSpec, ObjectId, Value};
