//! A shelf over another one, which holds the media that are put back.
ghost use Rattle.std.specs.Prelude.{◌≡◌, ◌≢◌, ◌↔◌, ◌≤◌, ◌++◌, ◌∷◌, [], Some, None, IsTrue, IfOk, IsErr, OnOk, OnErr, false};
ghost use Rattle.stream_port.specs.Causes.{HasCause, Rose};
ghost use Rattle.medium_port.specs.Names.{IsJustSo};
ghost use Rattle.medium_port.specs.declared.shelves.MediumName.{MediumName};
ghost use Rattle.held_shelf.specs.AskedNames.{names_of};
ghost use Rattle.held_shelf.specs.Held.{IsOut, count_in, image_in, left_in};
ghost use Rattle.held_shelf.specs.Slots.{NowHas, slot_of};

use crate::asked_names::AskedNames;
use crate::holding_shelves::HoldingShelf;
use crate::slots::{Slot, add, place_of, swap};
use medium_port::{Medium, MediumFault, MediumName, Shelf};
use pseudo_time::NodeKind;
use std::alloc::{AllocError, Global};

/// A shelf over media that are held open. It hands out those that were put back, and asks the shelf below
/// for each other name.
#[derive(Drop)]
pub struct HeldShelf<S: Shelf> {
    below: S,
    slots: Vec<Slot<S::Medium>>,
    faults: u64,
    asked: AskedNames,
    ghost open: { (name : MediumName) (m : S.Medium) → slot_of slots.items name ≡ Some (Some m) →
        S.Medium.Medium.is_failed m ≡ false },
}

impl<S: Shelf> HeldShelf<S> {
    /// A shelf that holds nothing yet.
    pub fn new(alloc: Global, below: S) -> HeldShelf<S>
        ensures empty { (name : MediumName) → slot_of result.slots.items name ≡ None }
        ensures below { result.below ≡ below }
        ensures asked { (names_of result.asked ≡ []) × (result.faults ≡ 0) }
    {
        HeldShelf {
            below,
            slots: Vec::new(alloc),
            faults: 0,
            asked: AskedNames::new(),
        }
    }

    // Counts a taking that failed.
    fn fail(&mut self) -> MediumFault
        ensures rose { Rose self.old.faults self.new.faults }
        ensures later { self.old.faults ≤ self.new.faults }
        ensures stays { (self.new.below ≡ self.old.below) × (self.new.slots ≡ self.old.slots) ×
            (self.new.asked ≡ self.old.asked) }
    {
        self.faults = self.faults.saturating_add(1);
        MediumFault
    }

    // Puts something under a name. After a refusal the shelf is as before.
    fn hold(&mut self, name: MediumName, held: Option<S::Medium>) -> Result<(), AllocError>
        requires { (m : S.Medium) → held ≡ Some m → S.Medium.Medium.is_failed m ≡ false }
        ensures now { OnOk result (NowHas name held self.old.slots.items self.new.slots.items) }
        ensures err { OnErr result (self.new.slots.items ≡ self.old.slots.items) }
        ensures stays { (self.new.below ≡ self.old.below) × (self.new.faults ≡ self.old.faults) ×
            (self.new.asked ≡ self.old.asked) }
    {
        match place_of(self.slots.as_slice(), name) {
            Some(index) => {
                let _before = swap(&mut self.slots, index, name, held);
                Ok(())
            }
            None => match add(&mut self.slots, name, held) {
                Ok(()) => Ok(()),
                Err(_) => Err(AllocError),
            },
        }
    }
}

impl<S: Shelf> Shelf for HeldShelf<S> {
    type Medium = S::Medium;

    ghost is_taken = { λ s name. IsOut (slot_of s.slots.items name) (S.is_taken s.below name) };

    ghost holds = { λ s name. image_in S.Medium.Medium.reads (S.holds s.below name) (slot_of s.slots.items name) };

    ghost may_hold = { λ s name. left_in S.Medium.Medium.may_leave (S.may_hold s.below name) (slot_of s.slots.items name) };

    ghost medium_faults = { λ s name. count_in S.Medium.Medium.faults (S.medium_faults s.below name)
        (slot_of s.slots.items name) };

    ghost asked = { λ s. names_of s.asked };

    ghost faults = { λ s. s.faults };

    fn take(&mut self, kind: NodeKind, number: u8, volume: u32) -> Result<S::Medium, MediumFault> {
        let name = MediumName {
            kind,
            number,
            volume,
        };
        self.asked.add(name);
        if let Some(index) = place_of(self.slots.as_slice(), name) {
            return match swap(&mut self.slots, index, name, None) {
                Some(medium) => Ok(medium),
                None => Err(self.fail()),
            };
        }
        match self.below.take(kind, number, volume) {
            Ok(medium) => Ok(medium),
            Err(_) => Err(self.fail()),
        }
    }
}

impl<S: Shelf> HoldingShelf for HeldShelf<S> {
    fn put_back(&mut self, name: MediumName, medium: S::Medium) -> Result<(), AllocError> {
        let mut medium = medium;
        match medium.reopen() {
            Ok(()) => self.hold(name, Some(medium)),
            Err(_) => {
                let _ = self.fail();
                self.hold(name, None)
            }
        }
    }
}
