//! Whether what logs say of attempts is what their scripts do alone, one after another.
#![tactic(auto)]

mod answers;
mod attempts;
mod endings;
mod replays;
mod versions;

pub use attempts::{Attempt, Put, Reply, Told};
pub use replays::{Difference, Differs, replay};
