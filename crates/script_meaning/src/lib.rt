//! What a script means: operations, expressions, names, and what each statement does in any world
//! that answers its requests.
#![tactic(auto)]

mod evaluation;
mod names;
mod numbers;
mod operations;
mod statements;

pub use evaluation::{evaluate, object_at};
pub use names::Names;
pub use statements::{condition, count, line_of};
