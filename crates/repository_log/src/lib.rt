//! What a repository's log says: what its effects add to the histories of objects, and its commit
//! records.
#![tactic(auto)]

mod laws;
mod marks;
mod records;

pub use laws::marks_of_parts;
pub use marks::{floor_with, histories_of, mark_of, marks_of};
pub use records::{begun_by, decided_by, is_commit, learned, records_of};
