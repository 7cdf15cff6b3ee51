//! What each step on the table tells.
ghost use Rattle.seat_lock.specs.Story.{meaning};
ghost use Rattle.seat_lock.specs.Steps.{drew, drew_if, looked, noted, left, posted, tested, learned, dealing, dealt_out, note, informed, gathered, nobody};

use crate::Storied;
use crate::views::View;
use atomic_table::{Join, Play, Split};

// Draws a ticket.
pub(crate) struct Draw;

impl<T: Storied> Play<T, View<T>> for Draw {
    ghost then = { drew };
}

// Draws the ticket that is served, where no later one was drawn.
pub(crate) struct DrawServed;

impl<T: Storied> Play<T, View<T>> for DrawServed {
    ghost then = { drew_if };
}

// Looks at the ticket served, and takes the slot where it is the seat's own.
pub(crate) struct Look;

impl<T: Storied> Play<T, View<T>> for Look {
    ghost then = { looked (meaning T.story T.stands T.owner T.may_hold) };
}

// Adds the value's new entry to the story.
pub(crate) struct Note;

impl<T: Storied> Play<T, View<T>> for Note {
    ghost then = { noted (meaning T.story T.stands T.owner T.may_hold) };
}

// Gives the slot back, and serves the next ticket.
pub(crate) struct Leave;

impl<T: Storied> Play<T, View<T>> for Leave {
    ghost then = { left };
}

// Puts a number on the board.
pub(crate) struct Post;

impl<T: Storied> Play<T, View<T>> for Post {
    ghost then = { posted };
}

// Reads a number on the board.
pub(crate) struct Test;

impl<T: Storied> Play<T, View<T>> for Test {
    ghost then = { tested (meaning T.story T.stands T.owner T.may_hold) };
}

// Shows how the stories lie that were heard last.
pub(crate) struct Learn;

impl<T: Storied> Play<T, View<T>> for Learn {
    ghost then = { learned (meaning T.story T.stands T.owner T.may_hold) };
}

// Gives the first owner to a new seat.
pub(crate) struct Deal;

impl<T: Storied> Split<View<T>> for Deal {
    ghost left = { dealing };

    ghost right = { dealt_out };
}

// Makes a seat with no owner, which carries the story.
pub(crate) struct Tell;

impl<T: Storied> Split<View<T>> for Tell {
    ghost left = { λ v. v };

    ghost right = { note };
}

// Takes the longer of two stories.
pub(crate) struct Hear;

impl<T: Storied> Join<View<T>> for Hear {
    ghost both = { informed };

    ghost spent = { nobody };
}

// Takes in another seat's owners, and the longer of two stories.
pub(crate) struct Gather;

impl<T: Storied> Join<View<T>> for Gather {
    ghost both = { gathered };

    ghost spent = { nobody };
}
