//! How a turn of a member is closed.
ghost use Rattle.std.specs.Prelude.{◌≡◌, false};
ghost use Rattle.effect_form.specs.Effects.{AreEffects};
ghost use Rattle.version_store.specs.StoreWords.{medium_of};
ghost use Rattle.vote_members.specs.Closings.{ClosedAs, IsLost};

use effect_form::Effect;
use medium_port::Medium;
use pseudo_time::DownCause;
use std::alloc::Global;
use version_store::{Store, StoreFault};

/// What came of a turn's effects.
#[derive(Drop)]
pub enum Closed<M: Medium> {
    /// They are on the medium.
    Durable(Store<M>),
    /// The medium failed, and was opened anew with these effects.
    Reopened(Store<M>, Vec<Effect>),
    /// The member can't go on, for this cause.
    Fallen(M, DownCause),
    /// Memory ran out.
    Wanting(M),
}

// After a fault of the medium it is opened anew, or given up.
fn open_anew<M: Medium>(alloc: Global, medium: M) -> Closed<M>
    ensures { IsLost M.Medium medium result }
{
    let mut medium = medium;
    if medium.reopen().is_err() {
        return Closed::Fallen(medium, DownCause::Medium);
    }
    match Store::open(alloc, medium) {
        Ok((store, effects)) => Closed::Reopened(store, effects),
        Err((medium, fault)) => match fault.down_cause() {
            Some(cause) => Closed::Fallen(medium, cause),
            None => Closed::Wanting(medium),
        },
    }
}

/// Makes the effects of a turn durable. After a fault of the medium it is opened anew.
pub fn close<M: Medium>(alloc: Global, store: Store<M>, effects: &[Effect]) -> Closed<M>
    requires sound { M.is_failed (medium_of store) ≡ false }
    requires ranges { AreEffects effects.now }
    ensures { ClosedAs M.Medium store effects.now result }
{
    match store.append(effects) {
        Ok(store) => Closed::Durable(store),
        Err((medium, fault)) => match fault {
            StoreFault::Full { pages } => Closed::Fallen(medium, DownCause::Full { pages }),
            StoreFault::NoMemory => Closed::Wanting(medium),
            StoreFault::Medium => open_anew(alloc, medium),
        },
    }
}
