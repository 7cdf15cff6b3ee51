//! Entering the lock.
ghost use Rattle.std.specs.Prelude.{◌≡◌, ◌%◌, ◌^◌, ℕ, List, false, IfNone, IfSome};
ghost use Rattle.seat_lock.specs.Story.{meaning};
ghost use Rattle.seat_lock.specs.Steps.{ticket_of};
ghost use Rattle.seat_lock.specs.Passes.{Took};
ghost use Rattle.seat_lock.specs.Words.{IsInside, IsPassOf, CarriesOn, knows, sees, base_of, lock_of, has_noted};
ghost use Rattle.seat_lock.specs.declared.views.Stage.TheVariants.{Idle, Waiting};

use crate::Storied;
use crate::locks::{Pass, SeatLock, Visit};
use crate::plays::{Draw, DrawServed, Look};
use std::hint::spin_loop;
use std::sync::Wait;
use std::thread::yield_now;

// A visit is over in less time than a thread takes to sleep and wake. So who finds the lock taken
// looks this often whether it is free, then lets others run this often, and only then draws a
// ticket for which those behind it wait; it looks as often at the ticket served before it sleeps.
const LOOKS: u32 = 100;

const YIELDS: u32 = 100;

impl<T: Storied> SeatLock<T> {
    // Draws the ticket that is served, where no pass is inside and none waits. None where one is, or
    // where another pass draws it first.
    fn draw_served(&self, seat: &mut Pass<T>) -> Option<u64>
        requires pass { IsPassOf self.now seat.old }
        ensures here { (seat.new.table_id ≡ seat.old.table_id) × (seat.new.me.1 ≡ seat.old.me.1) }
        ensures none { IfNone result (seat.new.me ≡ seat.old.me) }
        ensures some { IfSome result (λ r. (t : ℕ) × (r ≡ t % 2 ^ 64) ×
            (seat.new.me.0 ≡ record seat.old.me.0 { stage = Waiting t })) }
    {
        let shared = &self.table.shared;
        let served = shared.peek(1);
        if shared.peek(0) != served {
            return None;
        }
        let next = served.wrapping_add(1);
        let found = shared.compare_exchange::<DrawServed>(seat, 0, served, next);
        if found == served { Some(served) } else { None }
    }

    // Draws the ticket that is served, where the lock is found free before long.
    fn draw_soon(&self, seat: &mut Pass<T>) -> Option<u64>
        requires pass { IsPassOf self.now seat.old }
        ensures here { (seat.new.table_id ≡ seat.old.table_id) × (seat.new.me.1 ≡ seat.old.me.1) }
        ensures none { IfNone result (seat.new.me ≡ seat.old.me) }
        ensures some { IfSome result (λ r. (t : ℕ) × (r ≡ t % 2 ^ 64) ×
            (seat.new.me.0 ≡ record seat.old.me.0 { stage = Waiting t })) }
    {
        for looks in 0..LOOKS + YIELDS {
            if let Some(ticket) = self.draw_served(seat) {
                return Some(ticket);
            }
            if looks < LOOKS {
                spin_loop();
            } else {
                yield_now();
            }
        }
        None
    }

    // Draws a ticket: the one that is served, where the lock is found free before long, else the
    // next one.
    fn draw(&self, seat: &mut Pass<T>) -> u64
        requires pass { IsPassOf self.now seat.old }
        ensures here { (seat.new.table_id ≡ seat.old.table_id) × (seat.new.me.1 ≡ seat.old.me.1) }
        ensures ticket { (t : ℕ) × (result ≡ t % 2 ^ 64) ×
            (seat.new.me.0 ≡ record seat.old.me.0 { stage = Waiting t }) }
    {
        match self.draw_soon(seat) {
            Some(ticket) => ticket,
            None => self.table.shared.fetch_add::<Draw>(seat, 0, 1),
        }
    }

    // Waits for its turn, and takes the slot.
    fn wait<R: Wait>(&self, rt: &R, seat: &mut Pass<T>, ticket: u64)
        requires here { seat.old.table_id ≡ self.now.table.shared.table_id }
        requires waits { seat.old.me.0.stage ≡ Waiting (ticket_of seat.old.me.0.stage) }
        requires ticket { ticket ≡ ticket_of seat.old.me.0.stage % 2 ^ 64 }
        ensures here { seat.new.table_id ≡ seat.old.table_id }
        ensures took { (x : T) × (l : List T.Entry) ×
            Took (meaning T.story T.stands T.owner T.may_hold) seat.old.me seat.new.me x l }
    {
        let shared = &self.table.shared;
        let mut looks = 0;
        for _ in rt.forever() {
            let served = shared.load::<Look>(seat, 1);
            if served == ticket {
                return;
            }
            if looks < LOOKS {
                looks += 1;
            } else {
                shared.park(rt, 1, (served & 0xffff_ffff) as u32);
            }
        }
        unreachable!()
    }

    // Wakes those that wait, after the ticket `served` has left. Where no later ticket was drawn
    // nobody waits, and who draws one from now on finds it served.
    pub(crate) fn wake(&self, served: u64) {
        let shared = &self.table.shared;
        if shared.peek(0) != served.wrapping_add(1) {
            shared.wake_all(1);
        }
    }

    /// Begins a visit with the pass, and waits until no other pass is inside.
    ///
    /// The visit sees a list that begins with all that the pass had seen, and of the pass's owner
    /// it has just the pass's own entries. Passes enter in the order in which they drew their
    /// tickets.
    pub fn enter<R: Wait>(&self, rt: &R, pass: Pass<T>) -> Visit<'_, T>
        requires pass { IsPassOf self.now pass }
        ensures lock { lock_of result ≡ self.now }
        ensures value { (x : T) × IsInside result x × T.stands (base_of self.now) x ×
            (T.story x ≡ (sees result).story) }
        ensures carries { CarriesOn T.owner (knows pass) (sees result).story }
        ensures kept { sees result ≡ record (knows pass) { story = (sees result).story } }
        ensures nothing { has_noted result ≡ false }
    {
        let mut seat = pass;
        let ticket = self.draw(&mut seat);
        self.wait(rt, &mut seat, ticket);
        Visit {
            lock: self,
            seat,
            noted: false,
        }
    }
}
