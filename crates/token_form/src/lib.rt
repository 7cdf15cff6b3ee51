//! The tokens of script lines.
#![tactic(auto)]

mod byte_runs;
mod fronts;
mod line_faults;
mod lines;
mod numbers;
mod objects;
mod quotes;
mod signs;
mod tokens;
mod words;

pub use line_faults::LineFault;
pub use lines::{one_list, printed_is_spelled, tokens_of};
pub use numbers::number_of;
pub use tokens::{Sign, Token, Word};
