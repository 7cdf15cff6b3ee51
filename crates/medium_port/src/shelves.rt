//! What a shelf is: it hands out the media of nodes, each once.
ghost use Rattle.std.specs.Prelude.{◌≡◌, ◌≢◌, ◌↔◌, ◌++◌, ◌∷◌, [], ℕ, List, IsTrue, IsErr, IfOk, OnErr, false};
ghost use Rattle.stream_port.specs.Causes.{HasCause};
ghost use Rattle.medium_port.specs.Image.{Image};
ghost use Rattle.medium_port.specs.Names.{IsJustSo};
ghost use Rattle.medium_port.specs.declared.shelves.MediumName.{MediumName};

use crate::media::{Medium, MediumFault};
use pseudo_time::NodeKind;

/// The name of a medium on a shelf: a node, and the number of one of its media.
#[derive(Clone, Copy, Debug, PartialEq, Eq)]
pub struct MediumName {
    pub kind: NodeKind,
    pub number: u8,
    pub volume: u32,
}

/// Hands out the media of nodes, each once.
///
/// As with a [`Medium`], contracts alone see what the media hold.
pub trait Shelf {
    type Medium: Medium;

    /// The medium of that name was taken.
    ghost is_taken: { Self → MediumName → Type 0 };

    /// What reads of the medium of that name give.
    ghost holds: { Self → MediumName → Image };

    /// What a crash may leave of it.
    ghost may_hold: { Self → MediumName → Image → Type 0 };

    /// How often it has failed.
    ghost medium_faults: { Self → MediumName → ℕ };

    /// The names that were asked for so far, in order, whether or not the medium was handed out.
    ghost asked: { Self → List MediumName };

    /// How often a taking has failed. It never falls, and stays at 2^64 - 1.
    ghost faults: { Self → ℕ };

    /// Hands out the medium of a name just as it stands on the shelf. A name that was taken is a
    /// fault.
    fn take(&mut self, kind: NodeKind, number: u8, volume: u32) -> Result<Self::Medium, MediumFault>
        ensures content { IsTrue Self.Medium.tells →
            IfOk result (λ m. IsJustSo (holds self.old (record { kind = kind; number = number; volume = volume }))
            (Self.Medium.reads m)
            (may_hold self.old (record { kind = kind; number = number; volume = volume })) (Self.Medium.may_leave m)) }
        ensures count { IfOk result (λ m. Self.Medium.faults m ≡ medium_faults self.old
            (record { kind = kind; number = number; volume = volume })) }
        ensures open { IfOk result (λ m. Self.Medium.is_failed m ≡ false) }
        ensures once { is_taken self.old (record { kind = kind; number = number; volume = volume }) → IsErr result }
        ensures taken { IfOk result (λ m. is_taken self.new
            (record { kind = kind; number = number; volume = volume })) }
        ensures others { (name : MediumName) → name ≢ record { kind = kind; number = number; volume = volume } →
            is_taken self.new name ↔ is_taken self.old name }
        ensures others_count { (name : MediumName) → name ≢ record { kind = kind; number = number; volume = volume } →
            medium_faults self.new name ≡ medium_faults self.old name }
        ensures others_content { IsTrue Self.Medium.tells → (name : MediumName) →
            name ≢ record { kind = kind; number = number; volume = volume } →
            IsJustSo (holds self.old name) (holds self.new name) (may_hold self.old name) (may_hold self.new name) }
        ensures err { OnErr result ((name : MediumName) → is_taken self.new name ↔ is_taken self.old name) }
        ensures err_count { OnErr result ((name : MediumName) →
            medium_faults self.new name ≡ medium_faults self.old name) }
        ensures err_content { IsTrue Self.Medium.tells →
            OnErr result ((name : MediumName) → IsJustSo (holds self.old name) (holds self.new name)
            (may_hold self.old name) (may_hold self.new name)) }
        ensures asked { asked self.new ≡ asked self.old ++ record {
          kind = kind;
          number = number;
          volume = volume;
        } ∷ [] }
        ensures cause { HasCause (faults self.old) (faults self.new) result };
}
