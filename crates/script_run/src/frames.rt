//! A part of a script that was entered.
/// Which part of a statement is carried out.
#[derive(Clone, Copy, Debug, PartialEq, Eq)]
pub enum Part {
    First,
    /// The part after `else`.
    Second,
    /// The part of a `repeat`, with so many turns after this one.
    Repeated(u32),
}

/// A part that was entered, and the place after its statement in the part around.
#[derive(Clone, Copy, Debug, PartialEq, Eq)]
pub struct Frame {
    pub after: usize,
    pub part: Part,
}
