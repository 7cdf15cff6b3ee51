//! What a visit does.
ghost use Rattle.std.specs.Prelude.{◌≡◌, ◌<◌, [], ◌∷◌, ◌++◌, true, false};
ghost use Rattle.seat_lock.specs.Words.{IsInside, IsPassOf, knows, sees, base_of, board_size, lock_of, has_noted};

use crate::Storied;
use crate::locks::{Pass, Visit};
use crate::plays::{Leave, Note, Post};

impl<T: Storied> Visit<'_, T> {
    /// Adds the entry to the story. A visit notes one entry at most, of its own pass's owner.
    ///
    /// The value already stands for the list with the entry added. `entry` says which entry that
    /// is, and is kept nowhere.
    pub fn note(&mut self, entry: &T::Entry)
        requires nothing { has_noted self.old ≡ false }
        requires mine { T.owner entry.now ≡ (sees self.old).owner }
        requires value { (x : T) × IsInside self.old x × (T.story x ≡ (sees self.old).story ++ entry.now ∷ []) }
        ensures lock { lock_of self.new ≡ lock_of self.old }
        ensures inside { (x : T) → IsInside self.old x → IsInside self.new x }
        ensures noted { has_noted self.new ≡ true }
        ensures sees { sees self.new ≡ record (sees self.old) {
          story = (sees self.old).story ++ entry.now ∷ [];
          own = (sees self.old).own ++ entry.now ∷ [];
        } }
    {
        let _ = entry;
        self.lock
            .table
            .shared
            .fetch_add::<Note>(&mut self.seat, 2, 1);
        self.noted = true;
    }

    /// Puts the number on the board, in place of what the word held. `word` counts from 0.
    pub fn post(&mut self, word: u32, number: u64)
        requires word { word < board_size (lock_of self.old) }
        requires inside { (x : T) × IsInside self.old x }
        requires may { T.may_hold (base_of (lock_of self.old)) (sees self.old).story word number }
        ensures lock { lock_of self.new ≡ lock_of self.old }
        ensures inside { (x : T) → IsInside self.old x → IsInside self.new x }
        ensures noted { has_noted self.new ≡ has_noted self.old }
        ensures sees { sees self.new ≡ record (sees self.old) { posts = (sees self.old).posts ++ (word, number) ∷ [] } }
    {
        self.lock
            .table
            .shared
            .store::<Post>(&mut self.seat, word as usize + 3, number);
    }

    /// Ends the visit, and lets the next pass in. The value stands for the story that the visit
    /// sees.
    pub fn leave(self) -> Pass<T>
        requires stands { (x : T) × IsInside self x × T.stands (base_of (lock_of self)) x ×
            (T.story x ≡ (sees self).story) }
        ensures pass { IsPassOf (lock_of self.entry) result }
        ensures kept { knows result ≡ sees self.entry }
    {
        let Visit {
            lock,
            mut seat,
            noted: _,
        } = self;
        let served = lock.table.shared.fetch_add::<Leave>(&mut seat, 1, 1);
        lock.wake(served);
        seat
    }
}
