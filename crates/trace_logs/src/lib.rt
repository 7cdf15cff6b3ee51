//! The durable logs that a run left, read off its trace: the trace is carried out again with the cores
//! of repositories, over histories in memory, and of brokers.
#![tactic(auto)]

mod cores;
mod letters;
mod replayed_nodes;
mod replays;

pub use replays::logs;
