//! Sessions: the lines of their head and of the ends of their batches, how far logs have come, and the
//! plan of a batch above that.
#![tactic(auto)]

mod heights;
mod laws;
mod raising;
mod words;

pub use heights::{Heights, with_log};
pub use laws::{law_of_heights, law_of_raised_plans};
pub use raising::{has_room, raised};
pub use words::{is_go, is_title, stripped};
