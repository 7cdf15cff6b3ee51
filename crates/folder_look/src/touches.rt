//! Which object each step of an attempt read or wrote.
ghost use Rattle.std.specs.Prelude.{◌≡◌, OnOk, option_copied};
ghost use Rattle.std.specs.FinMap as finite;
ghost use Rattle.folder_look.specs.Touches as spec;

use effect_form::Effect;
use pseudo_time::{PseudoTime, Stamp};
use std::alloc::{AllocError, Global};
use std::collections::BTreeMap;
use std::marker::Model;
use value_form::{ObjectId, Value};

/// An object, with the value that a write gave it.
#[derive(Debug, Drop, PartialEq, Eq)]
pub struct Touch {
    pub object: ObjectId,
    pub value: Option<Value>,
}

/// A finite map from the pseudotimes of steps to what they touched.
#[derive(Drop)]
pub struct Touches {
    entries: BTreeMap<PseudoTime, Touch>,
}

impl Model for Touches {
    ghost use Rattle.std.specs.FinMap as finite;
    ghost use Rattle.pseudo_time.specs.TimeParts.{time_cmp};
    ghost use Rattle.pseudo_time.specs.contracts.times.PseudoTime as time;
    ghost use Rattle.folder_look.specs.contracts.touches.Touch as touch;
    ghost use Rattle.folder_look.specs.Touches.{Touched};

    ghost Value = { Touched };

    ghost coded = { finite.code time.the_row.coded touch.the_row.coded };

    ghost view = { λ t. finite.from_entries {R = time_cmp} t.entries.entries };
}

impl Touches {
    /// No step is known.
    pub fn new(alloc: Global) -> Touches
        ensures { result ≡ finite.empty }
    {
        Touches {
            entries: BTreeMap::new(alloc),
        }
    }

    // What the step at this pseudotime touched.
    fn get(&self, time: PseudoTime) -> Option<&Touch>
        ensures { option_copied result ≡ finite.get self.now time }
    {
        self.entries.get(&time)
    }

    /// What this step of the attempt touched, if that is known. Steps count from 1.
    pub fn at(&self, stamp: Stamp, step: u32) -> Option<&Touch>
        ensures { option_copied result ≡ spec.touch_at self.now stamp step }
    {
        match PseudoTime::new(stamp, step) {
            None => None,
            Some(time) => self.get(time),
        }
    }

    // Adds a step.
    fn put(&mut self, time: PseudoTime, touch: Touch) -> Result<(), AllocError>
        ensures { OnOk result (self.new ≡ finite.insert self.old time touch) }
    {
        self.entries.insert(time, touch)?;
        Ok(())
    }

    // Adds what an effect says.
    fn add(&mut self, alloc: Global, effect: &Effect) -> Result<(), AllocError>
        ensures { OnOk result (self.new ≡ spec.with_touch effect.now self.old) }
    {
        match effect {
            Effect::Put {
                object,
                start,
                value,
            } => {
                let value = Some(value.copy(alloc)?);
                let touch = Touch {
                    object: *object,
                    value,
                };
                self.put(*start, touch)
            }
            Effect::Stretch { object, at } => {
                let touch = Touch {
                    object: *object,
                    value: None,
                };
                self.put(*at, touch)
            }
            _ => Ok(()),
        }
    }

    /// Adds what the log of a repository says.
    pub fn add_log(&mut self, alloc: Global, effects: &[Effect]) -> Result<(), AllocError>
        ensures { OnOk result (self.new ≡ spec.with_log effects.now self.old) }
    {
        for effect in effects {
            self.add(alloc, effect)?;
        }
        Ok(())
    }
}
