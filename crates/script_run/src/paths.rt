//! The parts that were entered, innermost first.
ghost use Rattle.std.specs.Prelude.{◌≡◌, [], ◌∷◌, ◌-◌, Some, None, OnOk, OnErr, MatchOption, slice_get};
ghost use Rattle.script_run.specs.Standings as spec;
ghost use Rattle.script_run.specs.Steps.{left_from};

use crate::frames::{Frame, Part};
use std::alloc::{AllocError, Global};
use std::marker::Model;
use value_form::Stmt;

/// The parts of a script that were entered. Contracts see the innermost first.
#[derive(Debug, Drop)]
pub struct Path {
    frames: Vec<Frame>,
}

impl Model for Path {
    ghost use Rattle.std.specs.Prelude.{List, reverse};
    ghost use Rattle.script_run.specs.declared.frames.Frame.{Frame};

    ghost Value = { List Frame };

    ghost view = { λ p. reverse p.frames.items };
}

impl Path {
    pub fn new(alloc: Global) -> Path
        ensures { result ≡ [] }
    {
        Path {
            frames: Vec::new(alloc),
        }
    }

    /// Enters a part.
    pub fn enter(&mut self, frame: Frame) -> Result<(), AllocError>
        ensures ok { OnOk result (self.new ≡ frame ∷ self.old) }
        ensures err { OnErr result (self.new ≡ self.old) }
    {
        self.frames.push(frame)?;
        Ok(())
    }

    /// Leaves the innermost part, at its end: for its next turn, or for the part around. Gives the
    /// place from where to go on. None where no part was entered.
    pub fn leave(&mut self) -> Option<usize>
        ensures { MatchOption result ((left_from self.old ≡ None) × (self.new ≡ self.old))
            (λ at. left_from self.old ≡ Some (at, self.new)) }
    {
        match self.frames.pop() {
            None => None,
            Some(frame) => match frame.part {
                Part::Repeated(more) if more > 0 => {
                    self.frames.push_reserved(Frame {
                        after: frame.after,
                        part: Part::Repeated(more - 1),
                    });
                    Some(0)
                }
                _ => Some(frame.after),
            },
        }
    }

    /// The statements of the innermost part.
    pub fn statements<'a>(&self, script: &'a [Stmt]) -> &'a [Stmt]
        ensures { result.now ≡ (spec.inner script.now self.now).statements }
    {
        let mut part = script;
        for frame in &self.frames {
            part = entered(part, *frame);
        }
        part
    }
}

// The part that the frame says, of a statement of the part around.
fn entered(around: &[Stmt], frame: Frame) -> &[Stmt]
    ensures { result.now ≡ spec.entered_in frame.part (slice_get around.now (frame.after - 1)) }
{
    match around.get(frame.after.saturating_sub(1)) {
        None => &[],
        Some(Stmt::If(_, _, part, _)) => part.as_slice(),
        Some(Stmt::IfElse(_, _, first, _, second, _)) => match frame.part {
            Part::Second => second.as_slice(),
            _ => first.as_slice(),
        },
        Some(Stmt::Repeat(_, _, part, _)) => part.as_slice(),
        Some(_) => &[],
    }
}
