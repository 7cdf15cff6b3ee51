//! What holds of all logs and of all messages of a legal trace, in it and in the past, since each turn
//! of a node keeps it.
#![tactic(auto)]

mod laws;

pub use laws::{
    answers_are_kept, facts_of_any_trace, facts_of_legal_traces, facts_of_whole_lives,
    facts_over_older_logs, histories_are_a_chain, reads_see_all_that_stood, runs_replace_nothing,
};
