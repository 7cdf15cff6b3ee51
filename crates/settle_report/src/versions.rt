//! The versions of a repository's log.
ghost use Rattle.std.specs.Prelude.{◌≡◌, ◌++◌, IfOk, OnOk};
ghost use Rattle.settle_report.specs.Versions as spec;

use effect_form::Effect;
use pseudo_time::PseudoTime;
use std::alloc::{AllocError, Global};
use value_form::ObjectId;

/// A version that a repository holds: its object, and the pseudotime at which it starts. Versions are in the
/// order of their objects, then their starts.
#[derive(Clone, Copy, Debug, PartialEq, Eq, PartialOrd, Ord)]
pub struct HeldVersion {
    pub object: ObjectId,
    pub start: PseudoTime,
}

// Adds the version that an effect puts, if it is one.
fn add_version(list: &mut Vec<HeldVersion>, effect: &Effect) -> Result<(), AllocError>
    ensures { OnOk result (list.new.items ≡ list.old.items ++ spec.version_in effect.now) }
{
    match effect {
        Effect::Put { object, start, .. } => {
            list.push(HeldVersion {
                object: *object,
                start: *start,
            })?;
            Ok(())
        }
        _ => Ok(()),
    }
}

/// The versions of a log, in its order.
pub fn versions_of(alloc: Global, log: &[Effect]) -> Result<Vec<HeldVersion>, AllocError>
    ensures { IfOk result (λ list. list.items ≡ spec.versions log.now) }
{
    let mut list = Vec::new(alloc);
    for effect in log {
        add_version(&mut list, effect)?;
    }
    Ok(list)
}
