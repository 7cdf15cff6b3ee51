//! The start of a lock.
ghost use Rattle.std.specs.Prelude.{◌≡◌, ◌≢◌, ◌+◌, ◌<◌, ◌≤◌, [], length, map, All, AllPairs, IfOk, IfErr, vec_capacity};
ghost use Rattle.std.specs.declared.snapshot.Snapshot.{Snapshot};
ghost use Rattle.seat_lock.specs.Steps.{founder};
ghost use Rattle.seat_lock.specs.Passes.{AreNew};
ghost use Rattle.seat_lock.specs.Words.{IsPassOf, knows, fresh, base_of, owners_of, board_size};
ghost use Rattle.seat_lock.specs.declared.views.Stage.TheVariants.{Idle};

use crate::Storied;
use crate::locks::{LockTable, Pass, SeatLock};
use crate::plays::Deal;
use crate::views::Founding;
use atomic_table::{Refused, Table};
use std::alloc::{AllocError, Global};
use std::snapshot::Snapshot;

impl<T: Storied> SeatLock<T> {
    /// A lock that guards the state, with a board of `words` words, and one pass for each owner,
    /// in order. All words hold 0.
    ///
    /// There is at least one owner, the owners differ, and the state stands for the empty list.
    /// `Err` comes where memory runs out, and hands the state back.
    pub fn new(
        alloc: Global,
        state: T,
        owners: &[u32],
        words: u32,
    ) -> Result<(SeatLock<T>, Vec<Pass<T>>), (T, AllocError)>
        requires owners { (0 < length owners.now) × AllPairs (λ a b. a ≢ b) owners.now }
        requires state { T.stands state state × (T.story state ≡ []) }
        ensures lock { IfOk result (λ r. (owners_of r.0 ≡ owners.now) × (base_of r.0 ≡ state) ×
            (board_size r.0 ≡ words)) }
        ensures passes { IfOk result (λ r. All (IsPassOf r.0) r.1.items ×
            (map knows r.1.items ≡ map (fresh state) owners.now)) }
        ensures err { IfErr result (λ e. e.0 ≡ state) }
    {
        let Ok(passes) = Vec::with_capacity(alloc, owners.len()) else {
            return Err((state, AllocError));
        };
        match SeatLock::found(alloc, state, owners, words) {
            Ok((lock, seat)) => {
                let passes = lock.deal(seat, owners.len(), passes);
                Ok((lock, passes))
            }
            Err(refused) => Err(refused),
        }
    }

    // The lock, and a seat that has all owners.
    fn found(
        alloc: Global,
        state: T,
        owners: &[u32],
        words: u32,
    ) -> Result<(SeatLock<T>, Pass<T>), (T, AllocError)>
        requires owners { (0 < length owners.now) × AllPairs (λ a b. a ≢ b) owners.now }
        requires state { T.stands state state × (T.story state ≡ []) }
        ensures lock { IfOk result (λ r. (owners_of r.0 ≡ owners.now) × (base_of r.0 ≡ state) ×
            (board_size r.0 ≡ words)) }
        ensures seat { IfOk result (λ r. (r.1.table_id ≡ r.0.table.shared.table_id) ×
            ((b : Snapshot T) × (b.value ≡ state) × (r.1.me ≡ (founder b owners.now, [])))) }
        ensures err { IfErr result (λ e. e.0 ≡ state) }
    {
        let Ok(names) = Vec::from_slice(alloc, owners) else {
            return Err((state, AllocError));
        };
        let Ok(board) = Vec::from_elem(alloc, 0u64, words as usize + 3) else {
            return Err((state, AllocError));
        };
        let Ok(mut slots) = Vec::with_capacity(alloc, 1) else {
            return Err((state, AllocError));
        };
        let key = Founding {
            state: Snapshot::of(&state),
            owners: names,
        };
        slots.push_reserved(state);
        match Table::new(alloc, board.as_slice(), slots, &key) {
            Ok((table, seat)) => Ok((LockTable { table }, seat)),
            Err(Refused { slots: mut back }) => {
                let Some(state) = back.pop() else {
                    unreachable!()
                };
                back.destroy_empty();
                Err((state, AllocError))
            }
        }
    }

    // Gives each of `count` owners a pass. The last is the seat itself.
    fn deal(&self, mut seat: Pass<T>, count: usize, mut passes: Vec<Pass<T>>) -> Vec<Pass<T>>
        requires here { seat.table_id ≡ self.now.table.shared.table_id }
        requires idle { (seat.me.0.stage ≡ Idle) × (seat.me.1 ≡ []) × (seat.me.0.heard ≡ []) }
        requires count { (length seat.me.0.parts ≡ count) × (0 < count) }
        requires room { (passes.items ≡ []) × (count ≤ vec_capacity passes) }
        ensures { AreNew self.now.table.shared.table_id seat.me.0 seat.me.0.parts result.items }
    {
        for _ in 0..count - 1 {
            passes.push_reserved(self.table.shared.split_seat::<Deal>(&mut seat));
        }
        passes.push_reserved(seat);
        passes
    }
}
