//! What is promised of votes over media: the clauses, and those that follow from a legal trace and
//! media that keep its logs.
#![tactic(auto)]

mod laws;

pub use laws::{
    decisions_on_media_have_causes, decisions_stand_on_media, open_only_where_it_ended_early,
};
