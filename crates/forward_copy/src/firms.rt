//! The last committed version of each object below the mark.
ghost use Rattle.std.specs.Prelude.{◌≡◌, ◌∷◌, List, length, IfOk, OnOk, reverse};
ghost use Rattle.std.specs.FinMap as finite;
ghost use Rattle.effect_form.specs.declared.effects.Effect.{Effect};
ghost use Rattle.object_history.specs.History.{is_committed};
ghost use Rattle.forward_copy.specs.Firms as spec;
ghost use Rattle.forward_copy.specs.Firms.{AreFirm};

use crate::versions::{Version, put_below};
use effect_form::Effect;
use object_history::Settles;
use pseudo_time::PseudoTime;
use std::alloc::{AllocError, Global};
use std::collections::BTreeMap;
use std::marker::Model;
use value_form::ObjectId;

/// A committed version: its start, and how many effects stand before it in the log.
#[derive(Clone, Copy, Debug)]
pub struct Firm {
    pub start: PseudoTime,
    pub index: usize,
}

/// Of each object that has one, its committed version with the greatest start below a mark.
#[derive(Drop)]
pub struct Firms {
    entries: BTreeMap<ObjectId, Firm>,
}

impl Model for Firms {
    ghost use Rattle.std.specs.FinMap as finite;
    ghost use Rattle.value_form.specs.Objects.{object_cmp};
    ghost use Rattle.value_form.specs.contracts.objects.ObjectId as object;
    ghost use Rattle.forward_copy.specs.contracts.firms.Firm as firm;
    ghost use Rattle.forward_copy.specs.Firms.{FirmMap};

    ghost Value = { FirmMap };

    ghost coded = { finite.code object.the_row.coded firm.the_row.coded };

    ghost view = { λ f. finite.from_entries {R = object_cmp} f.entries.entries };
}

impl Firms {
    // No object has one.
    fn new(alloc: Global) -> Firms
        ensures { result ≡ finite.empty }
    {
        Firms {
            entries: BTreeMap::new(alloc),
        }
    }

    // That of the object.
    fn get(&self, object: ObjectId) -> Option<Firm>
        ensures { result ≡ finite.get self.now object }
    {
        self.entries.get(&object).copied()
    }

    // It is now this one.
    fn put(&mut self, object: ObjectId, firm: Firm) -> Result<(), AllocError>
        ensures { OnOk result (self.new ≡ finite.insert self.old object firm) }
    {
        self.entries.insert(object, firm)?;
        Ok(())
    }

    // Whether that of the version's object starts above it.
    fn has_over(&self, version: &Version) -> bool
        ensures { result ≡ spec.starts_over (finite.get self.now version.now.object) version.now.start }
    {
        match self.get(version.object) {
            Some(firm) => version.start.is_before(firm.start),
            None => false,
        }
    }

    // Whether the object's has so many effects before it.
    fn is_at(&self, object: ObjectId, index: usize) -> bool
        ensures { result ≡ spec.is_index (finite.get self.now object) index }
    {
        match self.get(object) {
            Some(firm) => firm.index == index,
            None => false,
        }
    }

    /// Whether the effect, with so many before it in the log, is carried forward.
    pub fn keeps(&self, mark: PseudoTime, index: usize, effect: &Effect) -> bool
        ensures { result ≡ spec.stays_above self.now mark index effect.now }
    {
        match effect {
            Effect::Put { object, start, .. } => {
                !start.is_before(mark) || self.is_at(*object, index)
            }
            Effect::Stretch { at, .. } => mark.is_before(*at),
            Effect::Mark { .. } => false,
            Effect::Whole => false,
            _ => true,
        }
    }
}

// Whether the version is committed.
fn is_firm(settles: &Settles, version: &Version) -> bool
    ensures { result ≡ is_committed (finite.get settles.now version.now.start.stamp) }
{
    settles.get(version.start.stamp()).unwrap_or(false)
}

// Notes the version that the effect puts, with so many effects before it.
fn note(
    firms: &mut Firms,
    settles: &Settles,
    mark: PseudoTime,
    index: usize,
    effect: &Effect,
) -> Result<(), AllocError>
    ensures { (l : List Effect) → length l ≡ index → AreFirm (λ s. finite.get settles.now s) mark l firms.old →
        OnOk result (AreFirm (λ s. finite.get settles.now s) mark (effect.now ∷ l) firms.new) }
{
    let Some(version) = put_below(mark, effect) else {
        return Ok(());
    };
    if !is_firm(settles, &version) {
        return Ok(());
    }
    if firms.has_over(&version) {
        return Ok(());
    }
    firms.put(
        version.object,
        Firm {
            start: version.start,
            index,
        },
    )
}

/// Those of a log, which stands oldest first.
pub fn firms_of(
    alloc: Global,
    settles: &Settles,
    log: &[Effect],
    mark: PseudoTime,
) -> Result<Firms, AllocError>
    ensures { IfOk result (AreFirm (λ s. finite.get settles.now s) mark (reverse log.now)) }
{
    let mut firms = Firms::new(alloc);
    for (index, effect) in log.iter().enumerate() {
        note(&mut firms, settles, mark, index, effect)?;
    }
    Ok(firms)
}
