//! The rules of a repository: what it adds to its log and sends, for each message, decision and
//! moment (Svobodova 1981).
#![tactic(auto)]

mod books;
mod openings;
mod repositories;
mod works;

pub use repositories::{CoreFault, Repository, RepositoryRest};
pub use repository_draft::{Asker, HeldRead, Out, Turn};
