//! What an archive knows of attempts: its joined marks, and how they settle stamps.

ghost use Rattle.std.specs.Prelude.{◌≡◌, None, IfOk, reverse};
ghost use Rattle.object_history.specs.History.{floor_of, settle_of};
ghost use Rattle.archive_store.specs.Joined.{joined};

use crate::archives::Archive;
use commit_watch::settles_of;
use object_history::{Mark, Settles};
use pseudo_time::Stamp;
use std::alloc::{AllocError, Global};
use std::marker::Model;

/// The joined marks of an archive, and how they settle stamps. Contracts see the marks, oldest first.
#[derive(Drop)]
pub struct Known {
    marks: Vec<Mark>,
    settles: Settles,
}

impl Model for Known {
    ghost use Rattle.std.specs.Prelude.{◌≡◌, List, None, reverse};
    ghost use Rattle.std.specs.Coded.{coded_list};
    ghost use Rattle.std.specs.FinMap as finite;
    ghost use Rattle.pseudo_time.specs.StampParts.{StampParts};
    ghost use Rattle.object_history.specs.declared.marks.Mark.{Mark};
    ghost use Rattle.object_history.specs.contracts.marks.Mark as mark;
    ghost use Rattle.object_history.specs.History.{floor_of, settle_of};

    ghost Value = { List Mark };

    ghost coded = { coded_list mark.the_row.coded };

    ghost view = { λ k. k.marks.items };

    ghost invariant = { λ k. (floor_of (reverse k.marks.items) ≡ None) ×
        ((p : StampParts) → finite.get k.settles p ≡ settle_of (reverse k.marks.items) p) };
}

impl Known {
    /// What an archive says.
    pub fn of(alloc: Global, archive: &Archive) -> Result<Known, AllocError>
        ensures { IfOk result (λ k. k ≡ joined archive.now) }
    {
        let marks = archive.joined()?;
        let settles = settles_of(alloc, marks.as_slice())?;
        Ok(Known { marks, settles })
    }

    /// How it settles the stamp.
    pub fn settled(&self, stamp: Stamp) -> Option<bool>
        ensures { result ≡ settle_of (reverse self.now) stamp }
    {
        self.settles.get(stamp)
    }

    /// The marks. A floor isn't among them.
    pub fn as_slice(&self) -> &[Mark]
        ensures marks { result.now ≡ self.now }
        ensures unretired { floor_of (reverse self.now) ≡ None }
    {
        self.marks.as_slice()
    }
}
