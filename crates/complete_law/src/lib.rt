//! Completeness: where no message is lost, repeated or held and no node stops, a run that waits for
//! nothing is over, and it has stored no more than its plan allows.
#![tactic(auto)]

mod laws;

pub use laws::{
    law_at_rest, law_few_effects, law_few_messages, law_never_stuck, law_nothing_stops,
    law_one_broker, law_outcomes,
};
pub use serial_law::{
    law_of_added_reasons, law_of_answers, law_of_finals, law_of_late_attempts, law_of_reasons,
    law_of_serial_runs, law_of_spent_acts,
};
