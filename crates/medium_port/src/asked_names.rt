//! The names that a shelf was asked for, for contracts alone.
ghost use Rattle.std.specs.Prelude.{◌≡◌, ◌++◌, ◌∷◌, []};
ghost use Rattle.medium_port.specs.AskedNames.{names_of};

use crate::shelves::MediumName;
use std::snapshot::Snapshot;

/// The names that a shelf was asked for so far, for contracts alone: snapshots have no bytes, so that noting a
/// name wants no memory.
#[derive(Drop)]
pub enum AskedNames {
    Nothing,
    More(Snapshot<AskedNames>, MediumName),
}

impl AskedNames {
    /// None yet.
    pub fn new() -> AskedNames
        ensures { names_of result ≡ [] }
    {
        AskedNames::Nothing
    }

    /// One more.
    pub fn add(&mut self, name: MediumName)
        ensures { names_of self.new ≡ names_of self.old ++ name ∷ [] }
    {
        *self = AskedNames::More(Snapshot::of(self), name);
    }
}
