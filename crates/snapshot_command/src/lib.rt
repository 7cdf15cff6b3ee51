//! The map of all repositories as of one mark: their volumes are opened, and what one of them doesn't know of an
//! attempt is taken from the attempt's home. Nothing is written.
#![tactic(auto)]

mod answers;
mod calls;
mod gathering;
mod marks;
mod texts;

pub use calls::snapshot;
pub use watch_command::{
    Kept, Opening, Outcome, Question, Standing, ask, fallen, give_back, keep_volumes, open_volumes,
    refused, stand_of, told, watch,
};
