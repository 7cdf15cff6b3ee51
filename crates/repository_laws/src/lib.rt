//! What the rules of repositories keep: of their logs, and of what their messages said.
#![tactic(auto)]

mod laws;
mod wait_laws;

pub use laws::{
    causes_stay, decided_once, messages_stay_true, refusals_are_right, requests_are_served,
    tidy_stays, turns_keep_facts,
};
pub use wait_laws::{askers_are_told, held_reads_wait, learned_is_known};
