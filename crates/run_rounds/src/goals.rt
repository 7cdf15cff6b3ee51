//! What a run is for.
use run_starts::Limits;

/// What a run is for.
#[derive(Clone, Copy)]
pub enum Course {
    /// The acts of its plan, within these limits.
    Acts(Limits),
    /// Nothing but that what is due expires, and that what is decided is learned.
    Settling,
}
