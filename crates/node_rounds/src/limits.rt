//! How far a run may go.
/// How far a run may go, and on how many threads.
#[derive(Clone, Copy, Debug, PartialEq, Eq)]
pub struct Limits {
    /// The most Ticks.
    pub ticks: u64,
    /// The run ends where so many messages were sent.
    pub messages: u32,
    /// How many threads give nodes their turns, at least one.
    pub workers: usize,
}
