//! What the programs share that carry out cases written as text: what the words of a line name, why a line wasn't
//! carried out, and how the lines of files are carried out one by one on what they are about.
#![tactic(auto)]

mod faults;
mod files;
mod subjects;
mod words;

pub use faults::CaseFault;
pub use files::{Cases, carry_out_files};
pub use subjects::{Subject, carry_all, told};
pub use words::{
    arrival, bytes, decision, effects, joined, log_of, message, node, number, object, stamp, time,
};
