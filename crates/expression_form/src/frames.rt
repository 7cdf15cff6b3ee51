//! What an expression's reader keeps open.
use crate::operands::Operand;
use value_form::{Call, Infix, Prefix};

/// What is open before an operand, and waits for it.
#[derive(Drop)]
pub enum Frame {
    /// A parenthesis.
    Group,
    /// A function with its parenthesis.
    Applied(Call),
    /// `given` with its parenthesis.
    GivenFirst,
    /// The same with the first operand and the comma.
    GivenSecond(Operand),
    /// An operator before its operand.
    Prefix(Prefix),
    /// A left operand and the operator after it.
    Infix(Infix, Operand),
}

/// A function whose parenthesis is to come.
#[derive(Clone, Copy)]
pub enum Head {
    Applied(Call),
    Given,
}

/// Where a reader of tokens stands.
#[derive(Drop)]
pub enum Mode {
    /// An operand is to come.
    Want,
    /// An opening parenthesis is to come.
    Opens(Head),
    /// After an operand, with its level.
    Have(Operand, u8),
}
