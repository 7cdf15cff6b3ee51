//! A repository at work: its core over headers in version storage, and its pass.
#![tactic(auto)]

mod cores;
mod kept_cores;
mod nodes;
mod notes;

pub use cores::RepositoryCore;
pub use node_turn::StoredCore;
pub use nodes::{RepositoryNode, decided, doubts, open_repository};
