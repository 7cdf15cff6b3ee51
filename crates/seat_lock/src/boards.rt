//! Reading the board.
ghost use Rattle.std.specs.Prelude.{◌≡◌, ◌<◌, [], ◌∷◌, ◌++◌};
ghost use Rattle.seat_lock.specs.Words.{IsPassOf, CarriesOn, knows, base_of, board_size};

use crate::Storied;
use crate::locks::{Pass, SeatLock};
use crate::plays::Test;

impl<T: Storied> SeatLock<T> {
    /// Reads a word of the board, and waits for nobody. `word` counts from 0.
    ///
    /// The pass's story is then the longest one at the moment of the reading. It begins with all
    /// that the pass had seen, and of the pass's owner it has just the pass's own entries; the
    /// board may hold the number for it.
    pub fn test(&self, pass: &mut Pass<T>, word: u32) -> u64
        requires pass { IsPassOf self.now pass.old }
        requires word { word < board_size self.now }
        ensures pass { IsPassOf self.now pass.new }
        ensures kept { knows pass.new ≡ record (knows pass.old) {
          story = (knows pass.new).story;
          tests = (knows pass.old).tests ++ (word, result) ∷ [];
        } }
        ensures carries { CarriesOn T.owner (knows pass.old) (knows pass.new).story }
        ensures may { T.may_hold (base_of self.now) (knows pass.new).story word result }
    {
        self.table.shared.load::<Test>(pass, word as usize + 3)
    }
}
