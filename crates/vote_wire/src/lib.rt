//! A vote trace and the copies of its messages in flight: what a flight and flags that follow the
//! entries say of the rules that the next entry has to meet.
#![tactic(auto)]

mod laws;

pub use laws::{
    copies_are_carried, entries_alone_decide, front_copies_may_be_taken, gates_are_carried,
    ticks_may_pass,
};
pub use wire_core::send_all;
