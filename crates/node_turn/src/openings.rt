//! A medium that is opened anew.
ghost use Rattle.std.specs.Prelude.{◌≡◌, ◌≤◌, ◌↔◌, false, Ok, Err, List, ℕ, IsTrue, IfOk, IfErr, length};
ghost use Rattle.node_inputs.specs.Causes.{Rose};
ghost use Rattle.node_inputs.specs.Image.{Image, Only, NoMore};
ghost use Rattle.node_inputs.specs.Moment.{LeavesOnly};
ghost use Rattle.node_inputs.specs.Effects.{AreEffects};
ghost use Rattle.node_inputs.specs.Storage.{storage};
ghost use Rattle.node_inputs.specs.StoreWords.{medium_of, effects_in, opened};

use node_inputs::{Effect, Medium, OpenFault, Store};
use std::alloc::Global;

/// Opens a medium anew, and its store with the effects that are found.
pub fn open_again<M: Medium>(
    alloc: Global,
    medium: M,
) -> Result<(Store<M>, Vec<Effect>), (M, OpenFault)>
    // They are those of an image that a crash could leave, which is now the only one.
    ensures was { IsTrue M.tells → IfOk result (λ r. M.may_leave medium (M.reads (medium_of r.0))) }
    ensures found { IsTrue M.tells → IfOk result (λ r. storage (M.reads (medium_of r.0)) ≡ Ok r.1.items) }
    ensures effects { IsTrue M.tells → IfOk result (λ r. effects_in M.reads r.0 ≡ r.1.items) }
    ensures only { IsTrue M.tells → IfOk result (λ r. Only (M.reads (medium_of r.0)) (M.may_leave (medium_of r.0))) }
    ensures images { IsTrue M.tells → NoMore (M.may_leave medium) (M.may_leave (opened result)) }
    ensures any_moment { IsTrue M.tells → LeavesOnly M.stages medium (opened result) (M.may_leave medium) }
    ensures damaged { IsTrue M.tells → IfErr result
        (λ e. (page : ℕ) → e.1 ≡ OpenFault.Damaged page → (image : Image) × M.may_leave medium image ×
        (storage image ≡ Err page)) }
    ensures ranges { IfOk result (λ r. AreEffects r.1.items) }
    ensures sound { IfOk result (λ r. M.is_failed (medium_of r.0) ≡ false) }
    ensures later { M.faults medium ≤ M.faults (opened result) }
    ensures failed { IfErr result (λ e. e.1 ≡ OpenFault.Medium → Rose (M.faults medium) (M.faults e.0)) }
{
    let mut medium = medium;
    match medium.reopen() {
        Err(_) => Err((medium, OpenFault::Medium)),
        Ok(()) => Store::open(alloc, medium),
    }
}
