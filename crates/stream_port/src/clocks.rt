//! What a clock is.
ghost use Rattle.std.specs.Prelude.{List, ℕ, Option, ◌∷◌, []};
ghost use Rattle.stream_port.specs.Clocks.{Adds};

/// What says which moment it is.
///
/// Contracts alone see the list of its answers. Whether a clock tells it is the same for all values
/// of its type, and no code can ask for it.
pub trait Clock {
    /// The answers so far, where it tells them. The list grows until it has 2^64 - 1 of them.
    ghost answers: { Self → Option (List ℕ) };

    /// The moment. Nothing is promised of it, not even that it doesn't fall.
    fn moment(&mut self) -> u64
        ensures { Adds (answers self.old) (answers self.new) (result ∷ []) };
}
