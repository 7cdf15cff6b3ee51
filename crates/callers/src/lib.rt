//! Callers of single layers, as docs/CALLING.md shows them.
#![tactic(auto)]

mod guests;
mod logs;

pub use guests::{Guest, Guests, sign_often};
pub use logs::add;
