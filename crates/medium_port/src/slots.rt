//! The media of a shelf, by their names.
ghost use Rattle.std.specs.Prelude.{◌≡◌, Some, None, IfErr, OnOk, MatchOption};
ghost use Rattle.medium_port.specs.Slots.{is_same_name, slot_of, IsPlace, NowHas};

use crate::memory_media::MemoryMedium;
use crate::shelves::MediumName;
use std::alloc::AllocFailed;
use std::mem;

// What was put on a shelf under a name, and nothing once it was taken.
#[derive(Drop)]
pub struct Slot {
    pub name: MediumName,
    pub held: Option<MemoryMedium>,
}

fn is_same(a: MediumName, b: MediumName) -> bool
    ensures { result ≡ is_same_name a b }
{
    a.kind == b.kind && a.number == b.number && a.volume == b.volume
}

// Where the name stands.
pub fn place_of(slots: &[Slot], name: MediumName) -> Option<usize>
    ensures { MatchOption result (slot_of slots.now name ≡ None) (λ i. IsPlace slots.now name i) }
{
    for index in 0..slots.len() {
        if is_same(slots[index].name, name) {
            return Some(index);
        }
    }
    None
}

// Puts something in the place of the name, and gives what stood there.
pub fn swap(
    slots: &mut Vec<Slot>,
    index: usize,
    name: MediumName,
    held: Option<MemoryMedium>,
) -> Option<MemoryMedium>
    requires { IsPlace slots.old.items name index }
    ensures was { slot_of slots.old.items name ≡ Some result }
    ensures now { NowHas name held slots.old.items slots.new.items }
{
    mem::replace(&mut slots[index].held, held)
}

// Adds a name, or gives back what it was to have.
pub fn add(
    slots: &mut Vec<Slot>,
    name: MediumName,
    held: Option<MemoryMedium>,
) -> Result<(), Option<MemoryMedium>>
    requires { slot_of slots.old.items name ≡ None }
    ensures now { OnOk result (NowHas name held slots.old.items slots.new.items) }
    ensures err { IfErr result (λ back. (back ≡ held) × (slots.new.items ≡ slots.old.items)) }
{
    match slots.push(Slot { name, held }) {
        Ok(()) => Ok(()),
        Err(AllocFailed { value }) => {
            let Slot { name: _, held } = value;
            Err(held)
        }
    }
}
