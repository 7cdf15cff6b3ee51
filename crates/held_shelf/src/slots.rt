//! What stands under names.
ghost use Rattle.std.specs.Prelude.{◌≡◌, Some, None, IfErr, OnOk, MatchOption};
ghost use Rattle.held_shelf.specs.Slots.{is_same_name, slot_of, IsPlace, NowHas};

use medium_port::MediumName;
use std::alloc::AllocFailed;
use std::mem;

// What stands under a name, and nothing while it is out.
#[derive(Drop)]
pub struct Slot<M> {
    pub name: MediumName,
    pub held: Option<M>,
}

fn is_same(a: MediumName, b: MediumName) -> bool
    ensures { result ≡ is_same_name a b }
{
    a.kind == b.kind && a.number == b.number && a.volume == b.volume
}

// Where the name stands.
pub fn place_of<M>(slots: &[Slot<M>], name: MediumName) -> Option<usize>
    ensures { MatchOption result (slot_of slots.now name ≡ None) (λ i. IsPlace slots.now name i) }
{
    for index in 0..slots.len() {
        if is_same(slots[index].name, name) {
            return Some(index);
        }
    }
    None
}

// Puts something in the place of the name, and gives what stood there.
pub fn swap<M>(
    slots: &mut Vec<Slot<M>>,
    index: usize,
    name: MediumName,
    held: Option<M>,
) -> Option<M>
    requires { IsPlace slots.old.items name index }
    ensures was { slot_of slots.old.items name ≡ Some result }
    ensures now { NowHas name held slots.old.items slots.new.items }
{
    mem::replace(&mut slots[index].held, held)
}

// Adds a name, or gives back what it was to have.
pub fn add<M>(slots: &mut Vec<Slot<M>>, name: MediumName, held: Option<M>) -> Result<(), Option<M>>
    requires { slot_of slots.old.items name ≡ None }
    ensures now { OnOk result (NowHas name held slots.old.items slots.new.items) }
    ensures err { IfErr result (λ back. (back ≡ held) × (slots.new.items ≡ slots.old.items)) }
{
    match slots.push(Slot { name, held }) {
        Ok(()) => Ok(()),
        Err(AllocFailed { value }) => {
            let Slot { name: _, held } = value;
            Err(held)
        }
    }
}
