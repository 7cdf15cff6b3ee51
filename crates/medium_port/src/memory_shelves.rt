//! A shelf over media in memory.
ghost use Rattle.std.specs.Prelude.{◌≡◌, ◌≢◌, ◌↔◌, ◌⊎◌, ◌≤◌, ◌++◌, [], ◌∷◌, Some, None, ℕ, length, slice_index, false, true, Contains, IsTrue, IfOk, IfErr, IsErr, OnOk, OnErr, IfSome, IfNone};
ghost use Rattle.stream_port.specs.Causes.{HasCause, Rose};
ghost use Rattle.medium_port.specs.declared.shelves.MediumName.{MediumName};
ghost use Rattle.medium_port.specs.declared.memory_media.MemoryMedium.{MemoryMedium};
ghost use Rattle.medium_port.specs.Slots.{slot_of, NowHas, IsBlankOf};

use crate::asked_names::AskedNames;
use crate::held_pages::zero_page;
use crate::media::MediumFault;
use crate::memory_media::MemoryMedium;
use crate::shelves::{MediumName, Shelf};
use crate::slots::{Slot, add, place_of, swap};
use pseudo_time::NodeKind;
use std::alloc::{AllocError, Global};

/// A shelf over memory. It hands out the media that were put there, and makes a blank one for each
/// other name.
#[derive(Drop)]
pub struct MemoryShelf {
    alloc: Global,
    pages: u32,
    zero: [u8; 4096],
    slots: Vec<Slot>,
    fails: Vec<MediumName>,
    faults: u64,
    starved: u64,
    asked: AskedNames,
    ghost some: { 1 ≤ pages },
    ghost most: { pages ≤ 1048576 },
    ghost size: { length zero ≡ 4096 },
    ghost zeros: { (k : ℕ) → slice_index zero k ≡ 0 },
    ghost open: { (name : MediumName) (m : MemoryMedium) → slot_of slots.items name ≡ Some (Some m) →
        m.health.failed ≡ false },
}

impl MemoryShelf {
    ghost use Rattle.medium_port.specs.MemoryMedia.{failed_in};
    ghost use Rattle.medium_port.specs.MemoryShelves.{under, failing, asked_for, new_pages, shelf_faults, shelf_starved, NowUnder, SameUnder, SameCounts};

    /// A shelf whose blank media have so many pages.
    pub fn new(alloc: Global, pages: u32) -> MemoryShelf
        requires some { 1 ≤ pages }
        requires most { pages ≤ 1048576 }
        ensures empty { (name : MediumName) → under result name ≡ None }
        ensures all_well { failing result ≡ [] }
        ensures pages { new_pages result ≡ pages }
        ensures faults { (shelf_faults result ≡ 0) × (shelf_starved result ≡ 0) }
        ensures asked { asked_for result ≡ [] }
    {
        MemoryShelf {
            alloc,
            pages,
            zero: zero_page(),
            slots: Vec::new(alloc),
            fails: Vec::new(alloc),
            faults: 0,
            starved: 0,
            asked: AskedNames::new(),
        }
    }

    /// How many takings failed because memory ran out. It stays at 2^64 - 1.
    pub fn starved(&self) -> u64
        ensures { result ≡ shelf_starved self.now }
    {
        self.starved
    }

    /// Puts a medium to be handed out under a name, also where that name was taken. After a refusal
    /// the shelf is as before.
    pub fn put(
        &mut self,
        kind: NodeKind,
        number: u8,
        volume: u32,
        medium: MemoryMedium,
    ) -> Result<(), (MemoryMedium, AllocError)>
        requires { failed_in medium ≡ false }
        ensures now { OnOk result (NowUnder (record { kind = kind; number = number; volume = volume })
            (Some medium) self.old self.new) }
        ensures err { IfErr result (λ e. e.0 ≡ medium) }
        ensures err_kept { OnErr result (SameUnder self.old self.new) }
        ensures fails { failing self.new ≡ failing self.old }
        ensures counts { SameCounts self.old self.new }
    {
        let name = MediumName {
            kind,
            number,
            volume,
        };
        match place_of(self.slots.as_slice(), name) {
            Some(index) => {
                let _before = swap(&mut self.slots, index, name, Some(medium));
                Ok(())
            }
            None => match add(&mut self.slots, name, Some(medium)) {
                Ok(()) => Ok(()),
                Err(Some(medium)) => Err((medium, AllocError)),
                Err(None) => unreachable!(),
            },
        }
    }

    /// Lets each taking of a name fail. After a refusal the shelf is as before.
    pub fn fail(&mut self, kind: NodeKind, number: u8, volume: u32) -> Result<(), AllocError>
        ensures fails { OnOk result (failing self.new ≡ failing self.old ++ record {
          kind = kind;
          number = number;
          volume = volume;
        } ∷ []) }
        ensures err { OnErr result (failing self.new ≡ failing self.old) }
        ensures others { SameUnder self.old self.new }
        ensures counts { SameCounts self.old self.new }
    {
        self.fails.push(MediumName {
            kind,
            number,
            volume,
        })?;
        Ok(())
    }
}

// A blank medium, whose name is now taken, where there was memory for it.
fn make_blank(
    alloc: Global,
    pages: u32,
    slots: &mut Vec<Slot>,
    name: MediumName,
) -> Option<MemoryMedium>
    requires some { 1 ≤ pages }
    requires most { pages ≤ 1048576 }
    requires free { slot_of slots.old.items name ≡ None }
    ensures now { IfSome result (λ _. NowHas name None slots.old.items slots.new.items) }
    ensures none { IfNone result (slots.new.items ≡ slots.old.items) }
    ensures blank { IfSome result (λ m. IsBlankOf pages m) }
    ensures fresh { IfSome result (λ m. m.health ≡ record { failed = false; faults = 0 }) }
{
    let Ok(medium) = MemoryMedium::new(alloc, pages, Vec::new(alloc)) else {
        return None;
    };
    match add(slots, name, None) {
        Ok(()) => Some(medium),
        Err(_) => None,
    }
}

impl Shelf for MemoryShelf {
    type Medium = MemoryMedium;

    ghost use Rattle.medium_port.specs.Names.{IsJustSo};
    ghost use Rattle.medium_port.specs.MemoryMedia.{reads_of, leaves, failed_in, faults_in};
    ghost use Rattle.medium_port.specs.MemoryShelves.{TakenFrom, image_under, LeftUnder, faults_under, failing, asked_for, new_pages, shelf_faults, shelf_starved};

    ghost is_taken = { TakenFrom };

    ghost holds = { image_under };

    ghost may_hold = { LeftUnder };

    ghost medium_faults = { faults_under };

    ghost asked = { asked_for };

    ghost faults = { shelf_faults };

    fn take(&mut self, kind: NodeKind, number: u8, volume: u32) -> Result<MemoryMedium, MediumFault>
        ensures content { IsTrue true → IfOk result
            (λ m. IsJustSo (image_under self.old (record { kind = kind; number = number; volume = volume }))
            (reads_of m)
            (LeftUnder self.old (record { kind = kind; number = number; volume = volume })) (leaves m)) }
        ensures count { IfOk result (λ m. faults_in m ≡ faults_under self.old
            (record { kind = kind; number = number; volume = volume })) }
        ensures open { IfOk result (λ m. failed_in m ≡ false) }
        ensures once { TakenFrom self.old (record { kind = kind; number = number; volume = volume }) → IsErr result }
        ensures taken { IfOk result (λ m. TakenFrom self.new
            (record { kind = kind; number = number; volume = volume })) }
        ensures others { (name : MediumName) → name ≢ record { kind = kind; number = number; volume = volume } →
            TakenFrom self.new name ↔ TakenFrom self.old name }
        ensures others_count { (name : MediumName) → name ≢ record { kind = kind; number = number; volume = volume } →
            faults_under self.new name ≡ faults_under self.old name }
        ensures others_content { IsTrue true → (name : MediumName) →
            name ≢ record { kind = kind; number = number; volume = volume } →
            IsJustSo (image_under self.old name) (image_under self.new name) (LeftUnder self.old name)
            (LeftUnder self.new name) }
        ensures err { OnErr result ((name : MediumName) → TakenFrom self.new name ↔ TakenFrom self.old name) }
        ensures err_count { OnErr result ((name : MediumName) →
            faults_under self.new name ≡ faults_under self.old name) }
        ensures err_content { IsTrue true →
            OnErr result ((name : MediumName) →
            IsJustSo (image_under self.old name) (image_under self.new name) (LeftUnder self.old name)
            (LeftUnder self.new name)) }
        ensures asked { asked_for self.new ≡ asked_for self.old ++ record {
          kind = kind;
          number = number;
          volume = volume;
        } ∷ [] }
        ensures cause { HasCause (shelf_faults self.old) (shelf_faults self.new) result }
        // A taking fails exactly where the name is listed, was taken, or memory runs out.
        ensures listed { Contains (failing self.old) (record { kind = kind; number = number; volume = volume }) →
            IsErr result }
        ensures failed { IsErr result →
            Contains (failing self.old) (record { kind = kind; number = number; volume = volume }) ⊎
            (TakenFrom self.old (record { kind = kind; number = number; volume = volume }) ⊎
            Rose (shelf_starved self.old) (shelf_starved self.new)) }
        ensures fed { OnOk result (shelf_starved self.new ≡ shelf_starved self.old) }
        ensures list { failing self.new ≡ failing self.old }
        ensures pages { new_pages self.new ≡ new_pages self.old }
    {
        let name = MediumName {
            kind,
            number,
            volume,
        };
        self.asked.add(name);
        if !self.fails.contains(&name) {
            match place_of(self.slots.as_slice(), name) {
                Some(index) => {
                    if let Some(medium) = swap(&mut self.slots, index, name, None) {
                        return Ok(medium);
                    }
                }
                None => {
                    if let Some(medium) = make_blank(
                        self.alloc,
                        self.pages,
                        &mut self.slots,
                        name,
                    ) {
                        return Ok(medium);
                    }
                    self.starved = self.starved.saturating_add(1);
                }
            }
        }
        self.faults = self.faults.saturating_add(1);
        Err(MediumFault)
    }
}
