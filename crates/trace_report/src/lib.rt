//! What the logs and the trace of a run say: which acts its brokers have begun, what the objects hold,
//! which nodes are down, and what the wire carried.
#![tactic(auto)]

mod answers;
mod begun;
mod books;
mod counts;
mod decided;
mod downs;
mod finals;
mod firsts;
mod last_versions;
mod node_logs;
mod reports;
mod shown;
mod summaries;
mod transcripts;

pub use answers::Answered;
pub use begun::{BegunAct, BegunTry};
pub use books::begun_in;
pub use counts::wire_of;
pub use downs::downs_of;
pub use node_logs::log_of;
pub use reports::{Reported, report, report_by};
pub use summaries::{summary, summary_by};
pub use trace_logs::logs;
pub use transcripts::transcript;
