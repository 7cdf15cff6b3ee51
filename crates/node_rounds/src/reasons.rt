//! Why no further round follows.
/// Why no further round follows.
#[derive(Clone, Copy, Debug, PartialEq, Eq)]
pub enum Reason {
    /// A node is down.
    Down,
    /// All brokers are done.
    Done,
    /// Enough messages were sent.
    Enough,
    /// Nothing is due, and no further Tick may be made.
    RunOut,
    /// Memory ran out.
    Wanting,
}

/// What follows a round.
#[derive(Clone, Copy, Debug, PartialEq, Eq)]
pub enum Next {
    Round,
    /// A round, behind a Tick.
    Ticked,
    End(Reason),
}
