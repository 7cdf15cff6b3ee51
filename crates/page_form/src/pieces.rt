//! What a page holds: whole effects, or a piece of a long one.
/// What the bytes of a page are.
#[derive(Clone, Copy, Debug, PartialEq, Eq)]
pub enum Piece {
    /// One or more whole effects.
    Whole,
    /// The first bytes of an effect that is longer than a page.
    First,
    /// Bytes of it that are neither the first nor the last.
    Middle,
    /// The last bytes of it.
    Last,
}
