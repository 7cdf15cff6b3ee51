//! What is written into the volume of totals.
ghost use Rattle.std.specs.Prelude.{◌≡◌, false, IsTrue, List};
ghost use Rattle.effect_form.specs.declared.effects.Effect.{Effect};
ghost use Rattle.effect_form.specs.Effects.{AreEffects};
ghost use Rattle.version_store.specs.Causes.{down_of};
ghost use Rattle.version_store.specs.StoreWords.{effects_in, medium_of};
ghost use Rattle.watch_command.specs.Watches as spec;

use crate::lines::down_watch_line;
use crate::preparing::Prepared;
use archive_command::{Outcome, fallen};
use medium_port::Medium;
use std::alloc::Global;
use version_store::{Store, StoreFault};

// A fault of the volume of totals stops it.
fn cut_off(alloc: Global, repository: u8, fault: StoreFault) -> Outcome
    ensures { spec.CutsOff repository (down_of fault) result }
{
    match fault.down_cause() {
        Some(cause) => fallen(down_watch_line(alloc, repository, cause)),
        None => Outcome::NoMemory,
    }
}

/// Adds what was prepared to the volume of totals, in one append.
pub fn add_puts<M: Medium>(
    alloc: Global,
    repository: u8,
    store: Store<M>,
    prepared: Prepared,
) -> (Outcome, M)
    requires open { M.is_failed (medium_of store) ≡ false }
    requires ranges { AreEffects prepared.puts.items }
    ensures { (log : List Effect) → (IsTrue M.tells → effects_in M.reads store ≡ log) →
        spec.Adds M.Medium repository log prepared.puts.items store prepared.text result.0 result.1 }
{
    let Prepared { puts, text } = prepared;
    match store.append(puts.as_slice()) {
        Ok(store) => (Outcome::Told(text), store.release()),
        Err((medium, fault)) => (cut_off(alloc, repository, fault), medium),
    }
}
