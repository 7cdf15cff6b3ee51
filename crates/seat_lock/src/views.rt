//! What a seat knows.
use crate::Storied;
use atomic_table::TableRule;
use std::collections::LinkedList;
use std::marker::PhantomData;
use std::snapshot::Snapshot;

/// Where a seat is. No value of it is made.
pub enum Stage {
    /// In no visit.
    Idle,
    /// With this ticket, before its turn.
    Waiting(u64),
    /// With this ticket, and the slot.
    Holding(u64),
}

/// An owner with its own entries. No value of it is made.
pub struct Part<E> {
    /// The owner's number.
    pub owner: u32,
    /// The owner's entries of the story, in order.
    pub own: LinkedList<E>,
}

/// What a seat knows. No value of it is made.
pub struct View<T: Storied> {
    /// Nothing in the view of a seat that was joined away.
    pub base: Option<Snapshot<T>>,
    /// Where the seat is.
    pub stage: Stage,
    /// The story as the seat has seen it, from its first entry on.
    pub story: LinkedList<T::Entry>,
    /// The seat's owners. A pass has one.
    pub parts: LinkedList<Part<T::Entry>>,
    /// Stories that were taken in by joins, the last first.
    pub heard: LinkedList<LinkedList<T::Entry>>,
    /// Board words with the numbers that were read, in order.
    pub tests: LinkedList<(u32, u64)>,
    /// Board words with the numbers that were put there, in order.
    pub posts: LinkedList<(u32, u64)>,
}

/// What the lock is made from.
#[derive(Drop)]
pub struct Founding<T> {
    /// The value at first, which is the base.
    pub state: Snapshot<T>,
    /// The owners of the passes, in order.
    pub owners: Vec<u32>,
}

/// What holds between any two steps on the table.
pub struct LockRule<T> {
    of: PhantomData<T>,
}

impl<T: Storied> TableRule<T, View<T>, Founding<T>> for LockRule<T> {
    ghost use Rattle.seat_lock.specs.Story.{meaning};
    ghost use Rattle.seat_lock.specs.Rule.{Kept};
    ghost use Rattle.seat_lock.specs.Steps.{founder};

    ghost holds = { λ key. Kept (meaning T.story T.stands T.owner T.may_hold) key.state.value key.owners.items };

    ghost first = { λ key. founder key.state key.owners.items };
}
