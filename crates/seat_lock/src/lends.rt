//! The value that a visit lends.
// `value` has a file of its own: its clause names the row of `Visit`, which the file that declares
// `Visit` cannot import.
ghost use Rattle.std.specs.Prelude.{◌≡◌, []};
ghost use Rattle.std.specs.Borrow.{sem, Lends};
ghost use mir.Syntax.{named};
ghost use Rattle.seat_lock.specs.contracts.locks.Visit.{the_row};
ghost use Rattle.seat_lock.specs.Words.{IsInside, with_value};

use crate::Storied;
use crate::locks::Visit;

impl<T: Storied> Visit<'_, T> {
    /// The value that the lock guards. When the borrow ends, the visit has what was written
    /// through it.
    pub fn value(&mut self) -> &mut T
        requires inside { (x : T) × IsInside self.old x }
        ensures* writes_back { sem 𝓛 (Lends (the_row (record { mir = named 1; lft = [] }) T.row T.Entry.row T.Storied)
            T.row self.entry result
            (with_value self.old)) }
        ensures value { (x : T) → IsInside self.old x → result.now ≡ x }
        ensures inside { (x : T) → IsInside (with_value self.old x) x }
    {
        let lock = self.lock;
        self.seat.slot_mut(&lock.table.shared, 0)
    }
}
