//! Copies that are held until a tick.
ghost use Rattle.std.specs.Prelude.{◌≡◌, ◌==◌, ◌++◌, [], ℕ, OnOk, OnErr, replicate, if◌then◌else◌};
ghost use Rattle.message_core.specs.Queues.{held_in};

use crate::letters::HeldCopy;
use std::alloc::{AllocError, Global};
use std::collections::BTreeMap;

/// The held copies by the tick that they wait for, in order of number.
pub type Holds = BTreeMap<u64, Vec<HeldCopy>>;

// So many copies wait for a tick.
pub fn hold_until(
    alloc: Global,
    held: &mut Holds,
    due: u64,
    copy: HeldCopy,
    copies: u8,
) -> Result<(), AllocError>
    ensures ok { OnOk result ((d : ℕ) → held_in held.new.entries d ≡
        (if due == d then held_in held.old.entries d ++ replicate copies copy else held_in held.old.entries d)) }
    ensures err { OnErr result ((d : ℕ) → held_in held.new.entries d ≡ held_in held.old.entries d) }
{
    if let Some(waiting) = held.get_mut(&due) {
        return waiting.resize(waiting.len() + usize::from(copies), copy);
    }
    let waiting = vec![in alloc; copy; usize::from(copies)]?;
    held.insert(due, waiting)?;
    Ok(())
}

// The copies that waited for a tick wait no longer.
pub fn release(held: &mut Holds, tick: u64)
    ensures { (d : ℕ) → held_in held.new.entries d ≡ (if tick == d then [] else held_in held.old.entries d) }
{
    held.remove(&tick);
}
