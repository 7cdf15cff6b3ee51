//! Scripts as trees of statements.
ghost use Rattle.std.specs.Prelude.{◌≡◌, IfOk};

use crate::expressions::Expr;
use crate::lists::Items;
use crate::objects::ObjectId;
use crate::texts::Bytes;
use std::alloc::{AllocError, Global};

/// Which object a statement reads or writes.
#[derive(Debug, Drop)]
pub enum Target {
    /// `R.N`
    Fixed(ObjectId),
    /// `R[E]`: the repository, from 1 to 16, and the expression whose value is the number.
    At(u8, Expr),
}

/// A statement. The first number is the line of the script on which it stands, from 1 to 200.
#[derive(Debug, Drop)]
pub enum Stmt {
    /// The name gets the value.
    Let(u16, Bytes, Expr),
    /// The name gets what the object holds.
    Read(u16, Bytes, Target),
    /// The object gets the value.
    Write(u16, Target, Expr),
    /// The transcript gets the value.
    Print(u16, Expr),
    /// The part is carried out where the value isn't 0. Then the line of `end`.
    If(u16, Expr, Items<Stmt>, u16),
    /// The first part is carried out where the value isn't 0, else the second. After each part is
    /// the line that ends it, of `else` and of `end`.
    IfElse(u16, Expr, Items<Stmt>, u16, Items<Stmt>, u16),
    /// The part is carried out as often as the value says. Then the line of `end`.
    Repeat(u16, Expr, Items<Stmt>, u16),
    /// The attempt ends as withdrawn.
    Withdraw(u16),
}

/// What an act carries out: its statements, in order.
#[derive(Debug, Drop)]
pub struct Script {
    pub lines: Items<Stmt>,
}

impl Target {
    /// An equal place.
    pub fn copy(&self, alloc: Global) -> Result<Target, AllocError>
        ensures { IfOk result (λ p. p ≡ self.now) }
    {
        match self {
            Target::Fixed(object) => Ok(Target::Fixed(*object)),
            Target::At(repository, number) => Ok(Target::At(*repository, number.copy(alloc)?)),
        }
    }
}

// Equal statements.
#[cycle(copies)]
fn copy_all(alloc: Global, part: &[Stmt]) -> Result<Items<Stmt>, AllocError>
    ensures { IfOk result (λ all. all ≡ part.now) }
{
    let mut all = Vec::with_capacity(alloc, part.len())?;
    for stmt in part {
        all.push(copy_one(alloc, stmt)?)?;
    }
    Ok(Items::of(all))
}

// An equal statement.
#[cycle(copies)]
fn copy_one(alloc: Global, stmt: &Stmt) -> Result<Stmt, AllocError>
    ensures { IfOk result (λ s. s ≡ stmt.now) }
{
    match stmt {
        Stmt::Let(line, name, value) => {
            let name = name.copy(alloc)?;
            Ok(Stmt::Let(*line, name, value.copy(alloc)?))
        }
        Stmt::Read(line, name, place) => {
            let name = name.copy(alloc)?;
            Ok(Stmt::Read(*line, name, place.copy(alloc)?))
        }
        Stmt::Write(line, place, value) => {
            let place = place.copy(alloc)?;
            Ok(Stmt::Write(*line, place, value.copy(alloc)?))
        }
        Stmt::Print(line, value) => Ok(Stmt::Print(*line, value.copy(alloc)?)),
        Stmt::If(line, condition, part, end) => {
            let condition = condition.copy(alloc)?;
            let part = copy_all(alloc, part.as_slice())?;
            Ok(Stmt::If(*line, condition, part, *end))
        }
        Stmt::IfElse(line, condition, first, middle, second, end) => {
            let condition = condition.copy(alloc)?;
            let first = copy_all(alloc, first.as_slice())?;
            let second = copy_all(alloc, second.as_slice())?;
            Ok(Stmt::IfElse(*line, condition, first, *middle, second, *end))
        }
        Stmt::Repeat(line, count, part, end) => {
            let count = count.copy(alloc)?;
            let part = copy_all(alloc, part.as_slice())?;
            Ok(Stmt::Repeat(*line, count, part, *end))
        }
        Stmt::Withdraw(line) => Ok(Stmt::Withdraw(*line)),
    }
}

impl Stmt {
    /// An equal statement.
    pub fn copy(&self, alloc: Global) -> Result<Stmt, AllocError>
        ensures { IfOk result (λ s. s ≡ self.now) }
    {
        copy_one(alloc, self)
    }
}

impl Script {
    /// An equal script.
    pub fn copy(&self, alloc: Global) -> Result<Script, AllocError>
        ensures { IfOk result (λ s. s ≡ self.now) }
    {
        let lines = copy_all(alloc, self.lines.as_slice())?;
        Ok(Script { lines })
    }
}
