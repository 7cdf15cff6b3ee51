//! The blocks that are open while a script is built.
ghost use Rattle.std.specs.Prelude.{◌≡◌, [], ◌∷◌, ◌++◌, Some, IfOk};
ghost use Rattle.script_form.specs.Building as spec;
ghost use Rattle.script_form.specs.Building.{Feeds, Opens};

use crate::block_faults::BlockFault;
use crate::flats::Flat;
use crate::levels::{Level, Opening};
use expression_form::Stack;
use std::alloc::{AllocError, Global};
use value_form::{Items, Stmt};

/// The blocks that are open, and the statements so far of the innermost part.
#[derive(Drop)]
pub struct Building {
    pub stack: Stack<Level>,
    pub here: Items<Stmt>,
}

// The statements with one more at the end.
fn pushed(statements: Items<Stmt>, statement: Stmt) -> Result<Items<Stmt>, AllocError>
    ensures { IfOk result (λ l. l ≡ statements ++ statement ∷ []) }
{
    let mut statements = statements.into_vec();
    statements.push(statement)?;
    Ok(Items::of(statements))
}

impl Building {
    pub fn new(alloc: Global) -> Building
        ensures { result ≡ spec.at [] [] }
    {
        Building {
            stack: Stack::new(alloc),
            here: Items::of(Vec::new(alloc)),
        }
    }

    // With a statement that is no block.
    fn added(self, statement: Stmt) -> Result<Building, AllocError>
        ensures { IfOk result (λ b. spec.added self statement ≡ Some b) }
    {
        let Building { stack, here } = self;
        let here = pushed(here, statement)?;
        Ok(Building { stack, here })
    }

    // With a block opened.
    fn opened(self, alloc: Global, opening: Opening) -> Result<Building, BlockFault>
        ensures { Opens self opening result }
    {
        let Building { mut stack, here } = self;
        if stack.len() >= 16 {
            return Err(BlockFault::Depth);
        }
        stack.push(Level {
            before: here,
            opening,
        })?;
        let here = Items::of(Vec::new(alloc));
        Ok(Building { stack, here })
    }

    // After `else`.
    fn other(self, alloc: Global, line: u16) -> Result<Option<Building>, AllocError>
        ensures { IfOk result (λ b. b ≡ spec.other_at self.stack self.here line) }
    {
        let Building { mut stack, here } = self;
        match stack.pop() {
            Some(Level { before, opening }) => match opening {
                Opening::If(first, condition) => {
                    let opening = Opening::Else(first, condition, here, line);
                    stack.push(Level { before, opening })?;
                    let here = Items::of(Vec::new(alloc));
                    Ok(Some(Building { stack, here }))
                }
                _ => Ok(None),
            },
            None => Ok(None),
        }
    }

    // After `end`.
    fn shut(self, line: u16) -> Result<Option<Building>, AllocError>
        ensures { IfOk result (λ b. b ≡ spec.shut_at self.stack self.here line) }
    {
        let Building { mut stack, here } = self;
        match stack.pop() {
            Some(Level { before, opening }) => {
                let whole = match opening {
                    Opening::Repeat(first, count) => Stmt::Repeat(first, count, here, line),
                    Opening::If(first, condition) => Stmt::If(first, condition, here, line),
                    Opening::Else(first, condition, part, middle) => {
                        Stmt::IfElse(first, condition, part, middle, here, line)
                    }
                };
                let here = pushed(before, whole)?;
                Ok(Some(Building { stack, here }))
            }
            None => Ok(None),
        }
    }

    /// With one more row.
    pub fn fed(self, alloc: Global, line: u16, flat: Flat) -> Result<Building, BlockFault>
        ensures { Feeds self line flat result }
    {
        match flat {
            Flat::Let(name, value) => Ok(self.added(Stmt::Let(line, name, value))?),
            Flat::Read(name, place) => Ok(self.added(Stmt::Read(line, name, place))?),
            Flat::Write(place, value) => Ok(self.added(Stmt::Write(line, place, value))?),
            Flat::Print(value) => Ok(self.added(Stmt::Print(line, value))?),
            Flat::If(condition) => self.opened(alloc, Opening::If(line, condition)),
            Flat::Else => self.other(alloc, line)?.ok_or(BlockFault::Block),
            Flat::End => self.shut(line)?.ok_or(BlockFault::Block),
            Flat::Repeat(count) => self.opened(alloc, Opening::Repeat(line, count)),
            Flat::Withdraw => Ok(self.added(Stmt::Withdraw(line))?),
        }
    }
}
