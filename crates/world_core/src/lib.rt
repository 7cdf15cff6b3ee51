//! What happens in a run, as a trace of entries: what each node has done by a place of a trace, and
//! which traces are legal.
#![tactic(auto)]

mod entries;
mod entry_laws;
mod laws;
mod plan_laws;
mod traces;

pub use entries::Entry;
pub use entry_laws::{
    closed_where_nothing_is_due, flags_are_the_entries, law_of_flags, legal_begins, walks_go_on,
};
pub use laws::{
    gated_logs_grow, law_of_lives, legal_before, legal_goes_on, more_fates_change_nothing,
    past_goes_on, sent_messages_grow,
};
pub use plan_laws::{law_of_plans_in_range, one_reading_for_all, readings_walk_alike};
pub use pseudo_time::DownCause;
pub use traces::{Opened, Sent, Trace};
