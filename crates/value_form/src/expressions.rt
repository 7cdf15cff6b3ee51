//! Expressions and their operators.
ghost use Rattle.std.specs.Prelude.{◌≡◌, IfOk};

use crate::boxes::Boxed;
use crate::texts::Bytes;
use std::alloc::{AllocError, Global};

/// An operator before its operand.
#[derive(Clone, Copy, Debug, PartialEq, Eq)]
pub enum Prefix {
    /// `not`
    Not,
    /// `-`
    Minus,
}

/// An operator between two operands.
#[derive(Clone, Copy, Debug, PartialEq, Eq)]
pub enum Infix {
    Or,
    And,
    /// `=`
    Equal,
    /// `<>`
    NotEqual,
    /// `<`
    Less,
    /// `<=`
    LessEqual,
    /// `>`
    Greater,
    /// `>=`
    GreaterEqual,
    /// `+`
    Add,
    /// `-`
    Subtract,
    /// `&`
    Join,
    /// `*`
    Multiply,
    /// `/`
    Divide,
    /// `mod`
    Modulo,
}

/// A function of one value.
#[derive(Clone, Copy, Debug, PartialEq, Eq)]
pub enum Call {
    /// `len ( E )`
    Len,
    /// `text ( E )`
    Text,
}

/// An expression of a script.
#[derive(Debug, Drop)]
pub enum Expr {
    /// A number, at most 2^63 - 1.
    Number(u64),
    /// A text of at most 1,000 bytes.
    Text(Bytes),
    /// `nothing`
    Nothing,
    /// A name of 1 to 16 bytes, whose value is taken.
    Name(Bytes),
    /// An operator and its operand.
    Prefix(Prefix, Boxed<Expr>),
    /// An operator, its left and its right operand.
    Infix(Infix, Boxed<Expr>, Boxed<Expr>),
    /// A function and its operand.
    Call(Call, Boxed<Expr>),
    /// `given ( E , E )`: the first value, or the second where the first is Nothing.
    Given(Boxed<Expr>, Boxed<Expr>),
}

impl Expr {
    /// An equal expression.
    pub fn copy(&self, alloc: Global) -> Result<Expr, AllocError>
        ensures { IfOk result (λ e. e ≡ self.now) }
    {
        match self {
            Expr::Number(number) => Ok(Expr::Number(*number)),
            Expr::Text(text) => Ok(Expr::Text(text.copy(alloc)?)),
            Expr::Nothing => Ok(Expr::Nothing),
            Expr::Name(name) => Ok(Expr::Name(name.copy(alloc)?)),
            Expr::Prefix(operator, of) => {
                let of = of.get().copy(alloc)?;
                Ok(Expr::Prefix(*operator, Boxed::new(alloc, of)?))
            }
            Expr::Infix(operator, left, right) => {
                let left = left.get().copy(alloc)?;
                let right = right.get().copy(alloc)?;
                let left = Boxed::new(alloc, left)?;
                Ok(Expr::Infix(*operator, left, Boxed::new(alloc, right)?))
            }
            Expr::Call(function, of) => {
                let of = of.get().copy(alloc)?;
                Ok(Expr::Call(*function, Boxed::new(alloc, of)?))
            }
            Expr::Given(first, second) => {
                let first = first.get().copy(alloc)?;
                let second = second.get().copy(alloc)?;
                let first = Boxed::new(alloc, first)?;
                Ok(Expr::Given(first, Boxed::new(alloc, second)?))
            }
        }
    }
}
