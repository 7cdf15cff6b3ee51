//! Operands with their depths.
ghost use Rattle.std.specs.Prelude.{◌≡◌, IfOk};
ghost use Rattle.expression_form.specs.Operands as spec;

use std::alloc::{AllocError, Global};
use value_form::{Boxed, Call, Expr, Infix, Prefix};

/// An operand with its depth, or one that is too deep to be kept.
#[derive(Drop)]
pub enum Operand {
    Built(Expr, u8),
    Deep,
}

impl Operand {
    /// An expression without operands.
    pub fn single(expression: Expr) -> Operand
        ensures { result ≡ spec.single expression }
    {
        Operand::Built(expression, 1)
    }

    /// The operand under an operator.
    pub fn before(self, alloc: Global, operator: Prefix) -> Result<Operand, AllocError>
        ensures { IfOk result (λ x. x ≡ spec.before operator self) }
    {
        match self {
            Operand::Built(of, depth) if depth < 16 => {
                let of = Boxed::new(alloc, of)?;
                Ok(Operand::Built(Expr::Prefix(operator, of), depth + 1))
            }
            _ => Ok(Operand::Deep),
        }
    }

    /// A function of the operand.
    pub fn applied(self, alloc: Global, function: Call) -> Result<Operand, AllocError>
        ensures { IfOk result (λ x. x ≡ spec.applied function self) }
    {
        match self {
            Operand::Built(of, depth) if depth < 16 => {
                let of = Boxed::new(alloc, of)?;
                Ok(Operand::Built(Expr::Call(function, of), depth + 1))
            }
            _ => Ok(Operand::Deep),
        }
    }

    /// The operand and the one to its right, with an operator between.
    pub fn between(
        self,
        alloc: Global,
        operator: Infix,
        right: Operand,
    ) -> Result<Operand, AllocError>
        ensures { IfOk result (λ x. x ≡ spec.between operator self right) }
    {
        match self {
            Operand::Built(left, depth) => match right {
                Operand::Built(right, other) if depth < 16 && other < 16 => {
                    let left = Boxed::new(alloc, left)?;
                    let right = Boxed::new(alloc, right)?;
                    let of = Expr::Infix(operator, left, right);
                    Ok(Operand::Built(of, depth.max(other) + 1))
                }
                _ => Ok(Operand::Deep),
            },
            Operand::Deep => Ok(Operand::Deep),
        }
    }

    /// `given` of the operand and a second one.
    pub fn given(self, alloc: Global, second: Operand) -> Result<Operand, AllocError>
        ensures { IfOk result (λ x. x ≡ spec.given self second) }
    {
        match self {
            Operand::Built(first, depth) => match second {
                Operand::Built(second, other) if depth < 16 && other < 16 => {
                    let first = Boxed::new(alloc, first)?;
                    let second = Boxed::new(alloc, second)?;
                    Ok(Operand::Built(Expr::Given(first, second), depth.max(other) + 1))
                }
                _ => Ok(Operand::Deep),
            },
            Operand::Deep => Ok(Operand::Deep),
        }
    }
}
