//! How two passes learn from each other.
ghost use Rattle.std.specs.Prelude.{◌≡◌};
ghost use Rattle.seat_lock.specs.Story.{Begins, HasOwn, longer};
ghost use Rattle.seat_lock.specs.Words.{IsPassOf, CarriesOn, knows};

use crate::Storied;
use crate::locks::{Pass, SeatLock};
use crate::plays::{Hear, Learn, Tell};

impl<T: Storied> SeatLock<T> {
    // The first pass hears the story of the second.
    fn hear(&self, one: &mut Pass<T>, other: &mut Pass<T>)
        requires pass { IsPassOf self.now one.old × IsPassOf self.now other.old }
        ensures pass { IsPassOf self.now one.new × IsPassOf self.now other.new }
        ensures other { other.new.me ≡ other.old.me }
        ensures one { one.new.me.0 ≡ record one.old.me.0 {
          story = longer one.old.me.0.story other.old.me.0.story;
          heard = one.new.me.0.heard;
        } }
        ensures learned { Begins one.old.me.0.story one.new.me.0.story ×
            Begins other.old.me.0.story one.new.me.0.story ×
            HasOwn T.owner one.old.me.0.parts one.new.me.0.story }
    {
        let shared = &self.table.shared;
        let note = shared.split_seat::<Tell>(other);
        shared.join_seat::<Hear>(one, note);
        shared.load::<Learn>(one, 0);
    }

    /// Each pass learns what the other has seen, and neither waits.
    ///
    /// Both stories are then the longer of the two, which the shorter begins. Of the owner of
    /// each pass it has just that pass's own entries.
    pub fn meet(&self, one: &mut Pass<T>, other: &mut Pass<T>)
        requires pass { IsPassOf self.now one.old × IsPassOf self.now other.old }
        ensures pass { IsPassOf self.now one.new × IsPassOf self.now other.new }
        ensures one { knows one.new ≡ record (knows one.old) {
          story = longer (knows one.old).story
              (knows other.old).story;
        } }
        ensures other { knows other.new ≡ record (knows other.old) { story = (knows one.new).story } }
        ensures carries { CarriesOn T.owner (knows one.old) (knows one.new).story ×
            CarriesOn T.owner (knows other.old) (knows one.new).story }
    {
        self.hear(one, other);
        self.hear(other, one);
    }
}
