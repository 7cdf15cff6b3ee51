//! A broker: it carries out the acts of a plan, one attempt after another, and resumes from its log
//! where a crash left it (Reed 1978, Svobodova 1981).
#![tactic(auto)]

mod brokers;
mod laws;
mod owed;
mod phases;
mod replies;

pub use broker_ledger::{Heard, ResumeFault, copy_acts, counted_effects};
pub use brokers::Broker;
pub use laws::{law_of_readings, readings_agree};
pub use message_form::{Out, Turn};
