//! What the commands over an archive promise where runs, retirements and watches came before.
#![tactic(auto)]

mod laws;

pub use laws::{law_of_questions, law_of_retirements, law_of_snapshots, law_of_watches};
pub use snapshot_command::{Outcome, Question, ask, snapshot, watch};
