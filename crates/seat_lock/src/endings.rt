//! The end of a lock.
ghost use Rattle.std.specs.Prelude.{◌≡◌, ◌+◌, ◌<◌, length, All, vec_len};
ghost use Rattle.seat_lock.specs.Passes.{Covers};
ghost use Rattle.seat_lock.specs.Rule.{IsOneOf};
ghost use Rattle.seat_lock.specs.Words.{IsPassOf, CarriesOn, knows, base_of, owners_of};
ghost use Rattle.seat_lock.specs.declared.views.Stage.TheVariants.{Idle};

use crate::Storied;
use crate::locks::{LockTable, Pass, SeatLock};
use crate::plays::Gather;

impl<T: Storied> SeatLock<T> {
    // Takes in the owners of all passes.
    fn gather(&self, seat: &mut Pass<T>, mut passes: Vec<Pass<T>>)
        requires pass { IsPassOf self.now seat.old }
        requires passes { All (IsPassOf self.now) passes.items }
        ensures here { seat.new.table_id ≡ seat.old.table_id }
        ensures idle { (seat.new.me.0.stage ≡ Idle) × (length seat.new.me.0.parts ≡ vec_len passes + 1) }
        ensures covers { Covers T.owner seat.new.me.0 seat.old.me.0 ×
            All (λ p. Covers T.owner seat.new.me.0 p.me.0) passes.items }
    {
        while let Some(pass) = passes.pop() {
            self.table.shared.join_seat::<Gather>(seat, pass);
        }
    }

    /// Ends the lock, and gives back its value. `passes` are all its passes, in any order.
    ///
    /// The value stands for a list that begins with the story of each pass, and in which the
    /// owner of each pass has just that pass's own entries. Each of its entries is of one of the owners
    /// that the lock was made for.
    pub fn close(self, mut passes: Vec<Pass<T>>) -> T
        requires passes { All (IsPassOf self) passes.items }
        requires all { (vec_len passes ≡ length (owners_of self)) × (0 < vec_len passes) }
        ensures stands { T.stands (base_of self) result }
        ensures owned { All (λ e. IsOneOf (owners_of self) (T.owner e)) (T.story result) }
        ensures carries { All (λ pass. CarriesOn T.owner (knows pass) (T.story result)) passes.items }
    {
        let Some(mut seat) = passes.pop() else {
            unreachable!()
        };
        self.gather(&mut seat, passes);
        let LockTable { table } = self;
        let mut closed = table.close_with(seat);
        let value = closed.take(0);
        closed.free();
        value
    }
}
