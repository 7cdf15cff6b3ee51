//! What a log says about one object.
ghost use Rattle.std.specs.Prelude.{◌≡◌, [], ◌∷◌, List, IfOk, OnOk, reverse};
ghost use Rattle.effect_form.specs.declared.effects.Effect.{Effect};
ghost use Rattle.object_history.specs.declared.marks.Mark.{Mark};
ghost use Rattle.object_history.specs.declared.marks.Mark.TheVariants as mark;
ghost use Rattle.repository_log.specs.Logs.{marks};
ghost use Rattle.report_writer.specs.Tellings.{Tells};

use crate::versions::{Version, place_for, place_seen};
use effect_form::Effect;
use object_history::{Settles, later};
use pseudo_time::{PseudoTime, Stamp};
use repository_log::is_commit;
use std::alloc::{AllocError, Global};
use value_form::{ObjectId, Value};

/// What a log says of an object, as far as it was read.
#[derive(Drop)]
pub struct Telling {
    pub object: ObjectId,
    /// The last Stretch that fell on its origin.
    pub origin: Option<PseudoTime>,
    /// The last start first; of equal starts the newest first.
    pub versions: Vec<Version>,
    pub settles: Settles,
}

impl Telling {
    /// Nothing was read.
    pub fn new(alloc: Global, object: ObjectId) -> Telling
        ensures object { result.object ≡ object }
        ensures tells { Tells [] result }
    {
        Telling {
            object,
            origin: None,
            versions: Vec::new(alloc),
            settles: Settles::new(alloc),
        }
    }

    // A version is put.
    fn put(&mut self, start: PseudoTime, value: Value) -> Result<(), AllocError>
        ensures object { OnOk result (self.new.object ≡ self.old.object) }
        ensures tells { (m : List Mark) → Tells m self.old →
            OnOk result (Tells (mark.Put self.old.object start value ∷ m) self.new) }
    {
        let place = place_for(self.versions.as_slice(), start);
        self.versions.insert(
            place,
            Version {
                start,
                value,
                end: None,
            },
        )?;
        Ok(())
    }

    // What a read at this time sees is read up to it.
    fn stretch(&mut self, at: PseudoTime)
        ensures object { self.new.object ≡ self.old.object }
        ensures tells { (m : List Mark) → Tells m self.old → Tells (mark.Stretch self.old.object at ∷ m) self.new }
    {
        match place_seen(self.versions.as_slice(), &self.settles, at) {
            Some(place) => {
                let end = later(at, &self.versions[place].end);
                self.versions[place].end = Some(end);
            }
            None => {
                let end = later(at, &self.origin);
                self.origin = Some(end);
            }
        }
    }

    // A stamp is decided. The first time counts.
    fn settle(&mut self, stamp: Stamp, committed: bool) -> Result<(), AllocError>
        ensures object { OnOk result (self.new.object ≡ self.old.object) }
        ensures tells { (m : List Mark) → Tells m self.old →
            OnOk result (Tells (mark.Settle stamp committed ∷ m) self.new) }
    {
        if self.settles.get(stamp).is_none() {
            self.settles.put(stamp, committed)?;
        }
        Ok(())
    }

    // Reads an effect.
    fn read(&mut self, alloc: Global, effect: &Effect) -> Result<(), AllocError>
        ensures object { OnOk result (self.new.object ≡ self.old.object) }
        ensures tells { (log : List Effect) → Tells (marks log) self.old →
            OnOk result (Tells (marks (effect.now ∷ log)) self.new) }
    {
        match effect {
            Effect::Put {
                object,
                start,
                value,
            } if *object == self.object => {
                let value = value.copy(alloc)?;
                self.put(*start, value)
            }
            Effect::Stretch { object, at } if *object == self.object => {
                self.stretch(*at);
                Ok(())
            }
            Effect::Decide { stamp, decision } => self.settle(*stamp, is_commit(*decision)),
            Effect::Learn { stamp, committed } => self.settle(*stamp, *committed),
            Effect::Mark { .. } => Ok(()),
            _ => Ok(()),
        }
    }
}

/// What a log says of an object. The effects stand oldest first.
pub fn telling_of(
    alloc: Global,
    object: ObjectId,
    effects: &[Effect],
) -> Result<Telling, AllocError>
    ensures object { IfOk result (λ h. h.object ≡ object) }
    ensures tells { IfOk result (Tells (marks (reverse effects.now))) }
{
    let mut telling = Telling::new(alloc, object);
    for effect in effects {
        telling.read(alloc, effect)?;
    }
    Ok(telling)
}
