//! The objects and starts of versions that were met already.
ghost use Rattle.std.specs.Prelude.{◌≡◌, ◌∷◌, [], List, OnOk};
ghost use Rattle.object_history.specs.declared.marks.Mark.{Mark};
ghost use Rattle.archive_store.specs.Joined.{has_start};
ghost use Rattle.archive_store.specs.Met.{Meets};

use object_history::Mark;
use pseudo_time::PseudoTime;
use std::alloc::{AllocError, Global};
use std::collections::BTreeMap;
use value_form::ObjectId;

/// The object and the start of a put.
#[derive(Clone, Copy, PartialEq, Eq, PartialOrd, Ord)]
pub struct Start {
    pub object: ObjectId,
    pub start: PseudoTime,
}

/// The objects and starts of the puts that were met.
#[derive(Drop)]
pub struct Met {
    pub entries: BTreeMap<Start, ()>,
}

/// None was met.
#[tactic(auto, unfolding(crate::specs::Joined::has_start))]
pub fn none_met(alloc: Global) -> Met
    ensures { Meets result [] }
{
    Met {
        entries: BTreeMap::new(alloc),
    }
}

/// Whether a put of the object with this start was met.
pub fn was_met(met: &Met, object: ObjectId, start: PseudoTime) -> bool
    ensures { (m : List Mark) → Meets met.now m → result ≡ has_start object start m }
{
    met.entries.contains_key(&Start { object, start })
}

/// A mark is met.
#[tactic(auto, unfolding(crate::specs::Joined::has_start))]
pub fn meet(met: &mut Met, mark: &Mark) -> Result<(), AllocError>
    ensures { (m : List Mark) → Meets met.old m → OnOk result (Meets met.new (mark.now ∷ m)) }
{
    match mark {
        Mark::Put(object, start, _) => {
            let put = Start {
                object: *object,
                start: *start,
            };
            met.entries.insert(put, ())?;
            Ok(())
        }
        Mark::Stretch(_, _) => Ok(()),
        Mark::Settle(_, _) => Ok(()),
        Mark::Floor(_) => Ok(()),
    }
}
