//! The lock, its passes and its visits.
ghost use Rattle.std.specs.Prelude.{◌≡◌, ◌≤◌};

use crate::Storied;
use crate::views::{Founding, LockRule, View};
use atomic_table::{Seat, Table, TableRule};
use std::alloc::{Allocator, Global};

/// A table with one slot for the value, and three words before those of the board: the tickets
/// that were drawn, the ticket that is served and the length of the story, each modulo 2^64.
//
// It is generic in all its parts, so that it is `Sync` by itself.
#[derive(Drop)]
pub struct LockTable<S, V, K, Q: TableRule<S, V, K>, A: Allocator> {
    pub(crate) table: Table<S, V, K, Q, A>,
    ghost sized: { (table.shared.table_id.slots ≡ 1) × (3 ≤ table.shared.table_id.words) },
}

/// A lock whose value stands for a story.
pub type SeatLock<T> = LockTable<T, View<T>, Founding<T>, LockRule<T>, Global>;

/// Who may visit the lock: an owner's right, with what its holder knows of the story. It belongs to
/// the lock that made it. It is `Send` and `Drop`, and so is a struct that owns one.
pub type Pass<T> = Seat<T, View<T>>;

/// A pass that is inside of its lock, and has the value. It is not `Drop`: end it by `leave`.
pub struct Visit<'a, T: Storied> {
    pub(crate) lock: &'a SeatLock<T>,
    pub(crate) seat: Seat<T, View<T>>,
    pub(crate) noted: bool,
}
