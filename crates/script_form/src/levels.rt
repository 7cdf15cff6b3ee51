//! A block that is open.
use value_form::{Expr, Items, Stmt};

/// How a block was opened, with its line.
#[derive(Drop)]
pub enum Opening {
    Repeat(u16, Expr),
    If(u16, Expr),
    /// The same as far as `else`: the first part, and the line of `else`.
    Else(u16, Expr, Items<Stmt>, u16),
}

/// A block that is open, and the statements before it.
#[derive(Drop)]
pub struct Level {
    pub before: Items<Stmt>,
    pub opening: Opening,
}
