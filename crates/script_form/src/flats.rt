//! What one line of a script holds.
use value_form::{Bytes, Expr, Target};

/// What stands on a line of a script: a statement, or a part of one.
#[derive(Debug, Drop)]
pub enum Flat {
    /// `let NAME = E`
    Let(Bytes, Expr),
    /// `read NAME OBJECT`
    Read(Bytes, Target),
    /// `write OBJECT E`
    Write(Target, Expr),
    /// `print E`
    Print(Expr),
    /// `if E`
    If(Expr),
    /// `else`
    Else,
    /// `end`
    End,
    /// `repeat E`
    Repeat(Expr),
    /// `withdraw`
    Withdraw,
}
