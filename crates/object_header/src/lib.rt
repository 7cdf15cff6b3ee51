//! Headers: the histories of a repository's objects, kept in its version storage (Svobodova 1981).
#![tactic(auto)]

mod additions;
mod beneath;
mod headers;
mod heads;
mod indexes;
mod keeping;
mod laws;
mod ledgers;
mod limits;
mod maps;
mod plans;
mod tables;
mod walks;

pub use beneath::Beneath;
pub use headers::HeaderTable;
pub use laws::late_marks;
