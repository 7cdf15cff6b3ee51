//! The central theorem: every attempt of a run is as its script alone, after the committed attempts
//! before it, whatever messages are lost, repeated, held or reordered and wherever nodes crash.
#![tactic(auto)]

mod fact_laws;
mod laws;
mod run_laws;

pub use fact_laws::{
    answers_come_from_there, answers_were_sent, decisions_agree, law_facts, logs_fit,
    one_request_each, reads_see_own_writes, requests_are_the_scripts,
};
pub use laws::{law_before, law_causes, law_clocks, law_finals, law_serial};
pub use run_laws::{
    law_of_added_reasons, law_of_answers, law_of_finals, law_of_late_attempts, law_of_reasons,
    law_of_serial_runs, law_of_spent_acts,
};
