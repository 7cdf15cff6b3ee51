//! How long a run of votes goes on.
/// How long a run goes on: at most so many ticks, and until so many messages were sent.
#[derive(Clone, Copy, Debug, PartialEq, Eq)]
pub struct Limits {
    pub ticks: u32,
    pub messages: u32,
}

/// What follows a round.
#[derive(Clone, Copy, Debug, PartialEq, Eq)]
pub enum Next {
    /// The run is over.
    Over,
    /// Another round.
    Round,
    /// A tick, and another round.
    Ticked,
}
