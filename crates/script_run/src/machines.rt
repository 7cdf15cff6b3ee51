//! A script at work: its place, its names, and what it may still do.
ghost use Rattle.std.specs.Prelude.{◌≡◌, ◌<◌, ◌+◌, ◌-◌, ◌∷◌, ◌^◌, OnOk, OnErr};

use crate::frames::{Frame, Part};
use crate::paths::Path;
use script_meaning::Names;
use std::alloc::AllocError;
use value_form::Line;

/// A script at work: where it stands, its names, how many more statements may begin, and its
/// transcript.
#[derive(Drop)]
pub struct Machine {
    pub path: Path,
    /// The place in the innermost part.
    pub at: usize,
    pub names: Names,
    pub left: u32,
    pub lines: Vec<Line>,
}

impl Machine {
    /// Counts the statement and goes past it.
    pub fn pass(&mut self)
        requires left { 0 < self.old.left }
        requires at { self.old.at + 1 < 2 ^ 64 }
        ensures { self.new ≡ record self.old { left = self.old.left - 1; at = self.old.at + 1 } }
    {
        self.left -= 1;
        self.at += 1;
    }

    /// Counts the statement and enters a part of it.
    pub fn enter(&mut self, part: Part) -> Result<(), AllocError>
        requires left { 0 < self.old.left }
        requires at { self.old.at + 1 < 2 ^ 64 }
        ensures ok { OnOk result (self.new ≡
            record self.old {
              left = self.old.left - 1;
              at = 0;
              path = (record { after = self.old.at + 1; part = part }) ∷ self.old.path;
            }) }
        ensures err { OnErr result (self.new ≡ self.old) }
    {
        let frame = Frame {
            after: self.at + 1,
            part,
        };
        self.path.enter(frame)?;
        self.left -= 1;
        self.at = 0;
        Ok(())
    }
}
