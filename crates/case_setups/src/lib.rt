//! What the lines of a case say of the next call: its media, with their stops and their bytes, its messages, its
//! streams and its plan; and how what came of calls is shown.
#![tactic(auto)]

mod lines;
mod media;
mod plans;
mod setups;
mod shows;
mod tables;

pub use lines::{Stream, fate, stop, stream_named};
pub use media::set_call;
pub use plans::add;
pub use setups::{Left, Pace, Setup, restarted};
pub use shows::{Part, Said, Shown, acts_of, crashes_of, is_down, lines_of, show, show_medium};
pub use tables::{Ending, Table};
