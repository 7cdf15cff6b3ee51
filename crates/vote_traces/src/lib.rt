//! What happens where three members vote, as a trace of entries: what each member and each poll has
//! done by a place of a trace, and which traces are legal.
#![tactic(auto)]

mod laws;

pub use laws::{
    law_of_causes, law_of_decisions, law_of_replays, legal_begins, legal_goes_on,
    one_decision_of_all_traces, rules_by_example,
};
