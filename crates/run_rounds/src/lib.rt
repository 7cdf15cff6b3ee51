//! A run of a plan: its nodes go in rounds, on several threads, until the run has ended.
#![tactic(auto)]

mod courses;
mod ends;
mod goals;
mod runs;
mod settled;

pub use ends::{End, Finished};
pub use kill_law::place_has_past;
pub use run_starts::{Limits, Told};
pub use runs::{run, settle};
pub use trace_report::{Reported, report, summary};
