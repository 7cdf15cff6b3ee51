//! Marks that are added to a header.
ghost use Rattle.std.specs.Prelude.{◌≡◌, List, OnOk, IfOk, IfSome};
ghost use Rattle.value_form.specs.ValueBytes.{IsValue};
ghost use Rattle.object_history.specs.Ranges.{IsMark};
ghost use Rattle.object_header.specs.Spans.{passes};
ghost use Rattle.object_history.specs.Objects.{same_object};
ghost use Rattle.object_history.specs.declared.marks.Mark.{Mark};
ghost use Rattle.object_header.specs.Ledgers.{IsIndexed};
ghost use Rattle.object_header.specs.Marks as marks;
ghost use Rattle.object_header.specs.Plans as plans;
ghost use Rattle.repository_log.specs.Logs as logs;

use crate::indexes::Index;
use crate::limits::Limit;
use crate::walks::is_passing;
use effect_form::Effect;
use object_history::{Mark, Settles, is_same_value};
use pseudo_time::PseudoTime;
use repository_log::is_commit;
use std::alloc::{AllocError, Global};
use value_form::{ObjectId, Value};

pub fn is_same_object(a: ObjectId, b: ObjectId) -> bool
    ensures { result ≡ same_object a b }
{
    a == b
}

/// Whether this version has this start and value.
pub fn is_written(first: &Option<(PseudoTime, Value)>, at: PseudoTime, value: &Value) -> bool
    ensures { result ≡ plans.is_written at value.now first.now }
{
    match first {
        Some(found) => found.0.is_same(at) && is_same_value(&found.1, value),
        None => false,
    }
}

/// Whether a mark is a version of the object that passes.
pub fn is_here(settles: &Settles, object: ObjectId, limit: &Limit, mark: &Mark) -> bool
    ensures { result ≡ marks.is_here (passes settles.now limit.now) object mark.now }
{
    match mark {
        Mark::Put(held, start, _) => {
            is_same_object(*held, object) && is_passing(settles, limit, *start)
        }
        _ => false,
    }
}

/// The start and a copy of the value of a version.
pub fn copy_put(alloc: Global, mark: &Mark) -> Result<Option<(PseudoTime, Value)>, AllocError>
    ensures put { IfOk result (λ r. r ≡ marks.mark_put mark.now) }
    ensures in_range { IsMark mark.now → IfOk result (λ r. IfSome r (λ f. IsValue f.1)) }
{
    match mark {
        Mark::Put(_, start, value) => {
            let value = value.copy(alloc)?;
            Ok(Some((*start, value)))
        }
        _ => Ok(None),
    }
}

/// Adds the mark of an effect, if it is one.
pub fn add_effect(index: &mut Index, effect: &Effect) -> Result<(), AllocError>
    ensures ok { (m : List Mark) → IsIndexed m index.old.settles index.old.heads →
        OnOk result (IsIndexed (marks.added (logs.mark_of effect.now) m) index.new.settles index.new.heads) }
{
    match effect {
        Effect::Put { object, start, .. } => index.put_any(*object, *start),
        Effect::Stretch { object, at } => index.stretch(*object, *at),
        Effect::Decide { stamp, decision } => index.settle(*stamp, is_commit(*decision)),
        Effect::Learn { stamp, committed } => index.settle(*stamp, *committed),
        Effect::Mark { at } => {
            index.keeps_floor(*at);
            Ok(())
        }
        _ => Ok(()),
    }
}
