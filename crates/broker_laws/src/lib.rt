//! What the rules of brokers keep: of their logs, and of what their messages said.
#![tactic(auto)]

mod laws;
mod turn_laws;

pub use laws::{
    answers_came, limits_hold, log_counts_whole, messages_stay_true, one_request, open_try_is_last,
    ready_is_no_fault, stamps_are_own, tries_are_found, tries_are_late,
};
pub use turn_laws::{
    always_ready, brokers_ask_nobody, causes_stay, new_request_differs, nothing_stays_owed,
    opened_brokers, requests_wait_for_answers, rested_is_done, turns_add_what_counts, turns_go_on,
    turns_keep_facts, turns_look_at_the_log,
};
