//! Fields of byte forms: numbers, stamps, pseudotimes and decisions.
//!
//! A field is read off the front of some bytes, and what follows it is given back.
#![tactic(auto)]

mod decisions;
mod laws;
mod numbers;
mod times;

pub use decisions::{decision_of, push_decision};
pub use laws::fields_are_forms;
pub use numbers::{
    byte_in, byte_of, front_of, i64_of, u16_in, u16_of, u32_in, u32_of, u64_in, u64_of,
};
pub use times::{push_stamp, push_time, stamp_of, time_of};
