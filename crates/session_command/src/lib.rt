//! A session: batches of acts are run one after another over media that are held open.
#![tactic(auto)]

mod answers;
mod batches;
mod heights;
mod inputs;
mod keeping;
mod laws;
mod line_readers;
mod lines;
mod putting;
mod sessions;
mod turns;
mod words;

pub use answers::Answer;
pub use laws::{law_of_late_batches, law_of_opened_logs, law_of_reached_logs, law_of_retired_logs};
pub use sessions::session;
