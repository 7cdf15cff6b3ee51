//! The effects of a log that votes are made of.
ghost use Rattle.std.specs.Prelude.{◌≡◌, ◌++◌, ◌∷◌, [], OnOk, IfOk};
ghost use Rattle.record_votes.specs.Members.{own};

use effect_form::Effect;
use std::alloc::{AllocError, Global};

/// The Begins and Decides of a log, in its order.
pub fn own_of(alloc: Global, effects: &[Effect]) -> Result<Vec<Effect>, AllocError>
    ensures { IfOk result (λ v. v.items ≡ own effects.now) }
{
    let mut owned = Vec::new(alloc);
    for effect in effects {
        push_own(&mut owned, effect)?;
    }
    Ok(owned)
}

// An effect is added, if it is a Begin or a Decide.
fn push_own(owned: &mut Vec<Effect>, effect: &Effect) -> Result<(), AllocError>
    ensures { OnOk result (owned.new.items ≡ owned.old.items ++ own (effect.now ∷ [])) }
{
    match effect {
        Effect::Begin { stamp, deadline } => {
            let (stamp, deadline) = (*stamp, *deadline);
            owned.push(Effect::Begin { stamp, deadline })?;
        }
        Effect::Decide { stamp, decision } => {
            let (stamp, decision) = (*stamp, *decision);
            owned.push(Effect::Decide { stamp, decision })?;
        }
        _ => (),
    }
    Ok(())
}
