//! The repositories of a folder settle: what is due expires, each learns what the homes of its versions decided, and
//! what came of it is written.
#![tactic(auto)]

mod plans;
mod settles;
mod tellings;

pub use settles::settle;
