//! The text of `history`.
ghost use Rattle.std.specs.Prelude.{◌≡◌, IfOk};
ghost use Rattle.report_writer.specs.Histories.{history_text};

use crate::floors::{floor_of, latest};
use crate::history_writing::{push_head, push_versions};
use crate::tellings::telling_of;
use effect_form::Effect;
use std::alloc::{AllocError, Global};
use value_form::{Bytes, ObjectId};

/// The text of an object's history: a line for the object, one for its origin, and one for each of its
/// versions, in rising order of start. `effects` are a repository's log, the first one first, of
/// whatever origin. Only memory may run out.
///
/// It costs a walk over the log. An effect of the object costs besides as many steps as versions of it
/// start above, so none where versions are put in rising order.
pub fn history(alloc: Global, object: ObjectId, effects: &[Effect]) -> Result<Bytes, AllocError>
    ensures { IfOk result (λ text. text ≡ history_text object effects.now) }
{
    let mut telling = telling_of(alloc, object, effects)?;
    telling.versions.reverse();
    let floor = floor_of(effects);
    let origin = latest(&floor, telling.origin);
    let mut out = Vec::new(alloc);
    push_head(alloc, &mut out, object, &origin)?;
    push_versions(
        alloc,
        &mut out,
        &telling.settles,
        &floor,
        telling.versions.as_slice(),
    )?;
    Ok(Bytes::of(out))
}
