//! The shared wire and its passes.
ghost use Rattle.std.specs.Prelude.{◌≡◌};
ghost use Rattle.seat_lock.specs.Words.{board_size, owners_of, base_of};
ghost use Rattle.wire_lock.specs.Sights.{owners_for};

use medium_port::Medium;
use seat_lock::{Pass, SeatLock};
use std::snapshot::Snapshot;
use stream_port::{Clock, Fates};
use wire_core::Wire;

/// The right of a node, or of the conductor, to visit the shared wire, with what it has seen.
pub type WirePass<F, C, M> = Pass<Wire<F, C, M>>;

/// The wire as a visit left it, which contracts alone read: so they say what the visit saw beside the
/// entries, as the fates of messages.
pub type LeftWire<F, C, M> = Snapshot<Wire<F, C, M>>;

/// A wire under its lock, with a board of 4,096 words for decisions.
///
/// A visit may wait for its turn. It adds one entry to the trace, or none. The list that it finds
/// begins with all that its pass had seen, and of the pass's owner it has just the pass's own
/// entries. So what a node has seen of itself is still so, and each visit asks its conditions of
/// that. A visit that answers an error found no memory, and adds nothing.
#[derive(Drop)]
pub struct SharedWire<F: Fates, C: Clock, M: Medium> {
    pub(crate) lock: SeatLock<Wire<F, C, M>>,
    ghost board: { board_size lock ≡ 4096 },
    ghost owners: { owners_of lock ≡ owners_for (base_of lock).origin.opened },
}
