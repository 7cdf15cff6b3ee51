//! The watch of a repository: its volumes are opened, and the totals of its objects by a rule, which stand
//! in a volume of their own, are brought up to date.
#![tactic(auto)]

mod lines;
mod preparing;
mod puts;
mod restoring;
mod totals;
mod volumes;
mod watching;
mod writing;

pub use archive_command::{
    Outcome, Question, archived_of, ask, fallen, push_mark, push_values, refusal, refused, told,
};
pub use run_volumes::{Kept, Opening, Standing, give_back, keep_volumes, open_volumes, stand_of};
pub use watching::watch;
