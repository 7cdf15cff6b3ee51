//! A plan is run over the volumes of its nodes, and what came of it is written.
#![tactic(auto)]

mod laws;
mod lines;
mod media;
mod parts;
mod reports;
mod runs;
mod stops;
mod streams;
mod takings;
mod texts;

pub use laws::{law_done_is_finished, laws_of_runs};
pub use lines::fault_line;
pub use media::{Finish, no_votes, quiet};
pub use parts::{takes_part, was_not_opened};
pub use plan_volumes::Kept;
pub use reports::Wanted;
pub use run_rounds::Told;
pub use runs::{run_plan, run_taken};
pub use stops::Stop;
pub use streams::{read_all, write_all};
pub use takings::{Taken, hand_back, take_volumes};
pub use texts::tell_text;
