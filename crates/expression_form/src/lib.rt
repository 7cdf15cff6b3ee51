//! Expressions of scripts: read from tokens, and printed.
#![tactic(auto)]

mod frames;
mod laws;
mod operands;
mod operators;
mod printer;
mod read_faults;
mod reader;
mod stacks;

pub use laws::law_of_expressions;
pub use printer::print_expression;
pub use read_faults::ReadFault;
pub use reader::read_expression;
pub use stacks::Stack;
