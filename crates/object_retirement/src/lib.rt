//! What a retirement at a mark keeps of histories: which versions it gives up, and what a reader was
//! answered once (Reed 1978). And the log that it carries forward.
#![tactic(auto)]

mod laws;

pub use laws::{
    all_that_stood, answers_last, forward_keeps_records, nothing_is_put_below, retirement_gives_up,
    retirement_keeps_views,
};
