//! A run has few entries: so many as its messages, its Ticks, its crashes and its decisions allow.
#![tactic(auto)]

mod laws;

pub use laws::{few_entries, few_learns};
