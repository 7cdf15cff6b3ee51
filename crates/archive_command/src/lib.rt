//! What a repository's archive is asked: its complete volumes are opened, and their logs tell it together.
#![tactic(auto)]

mod answers;
mod archives;
mod audits;
mod calls;
mod maps;
mod outcomes;
mod questions;
mod versions;

pub use answers::{fallen, refusal, refused, told};
pub use archives::{Archived, archived_of};
pub use calls::ask;
pub use maps::{push_mark, push_values};
pub use outcomes::Outcome;
pub use questions::Question;
