//! Shelves that take media back.
ghost use Rattle.std.specs.Prelude.{OnOk, OnErr};
ghost use Rattle.held_shelf.specs.PutBack.{IsAsBefore, IsPutBack};

use medium_port::{MediumName, Shelf};
use std::alloc::AllocError;

/// A shelf that takes media back, and hands them out again.
pub trait HoldingShelf: Shelf {
    /// Reopens the medium, and puts it under its name. One that can't be reopened is let go, and its name
    /// stays out. After a refusal, which is for lack of memory, the medium is let go, and the shelf is as
    /// before.
    fn put_back(&mut self, name: MediumName, medium: Self::Medium) -> Result<(), AllocError>
        ensures ok { OnOk result (IsPutBack Self.Shelf Self.Medium.Medium name medium self.old self.new) }
        ensures err { OnErr result (IsAsBefore Self.Shelf Self.Medium.Medium self.old self.new) };
}
