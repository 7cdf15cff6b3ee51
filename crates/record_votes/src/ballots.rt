//! What a poll wants, and what it heard.
/// How a poll wants its stamp decided.
#[derive(Clone, Copy, Debug, PartialEq, Eq)]
pub enum Wish {
    Commit,
    Withdraw,
}

/// What a poll heard from one member.
#[derive(Clone, Copy, Debug, PartialEq, Eq)]
pub struct Ballot {
    /// Its record has begun.
    pub begun: bool,
    /// How the first Decided went: true where it commits.
    pub vote: Option<bool>,
}
