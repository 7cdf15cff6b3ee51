//! A run of members and polls in rounds, on one thread: the turns, and why it ends.
#![tactic(auto)]

mod laws;
mod limits;
mod member_turns;
mod members;
mod poll_rounds;
mod rounds;
mod seats;

pub use laws::members_and_polls_are_voters;
pub use limits::{Limits, Next};
pub use member_turns::turn;
pub use members::{Members, some_wants};
pub use poll_rounds::polls_go;
pub use rounds::{all_held, conduct};
pub use run_media::{Opening, open_one};
pub use seats::Seat;
pub use vote_courier::Courier;
