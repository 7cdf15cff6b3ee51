//! The commit records of a repository: which attempts are still unknown, and how the others were
//! decided, each once and for good.
#![tactic(auto)]

mod records;
mod states;

pub use records::Records;
pub use states::{BeginStep, DecideStep, RecordState};
