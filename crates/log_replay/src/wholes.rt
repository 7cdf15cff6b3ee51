//! The log of a repository with all versions that ever stood in it.
ghost use Rattle.std.specs.Prelude.{◌≡◌, ◌∷◌, [], List, IfOk, OnOk, is_some, map, reverse};
ghost use Rattle.std.specs.BTreeMap.{get};
ghost use Rattle.effect_form.specs.declared.effects.Effect.{Effect as AnEffect};
ghost use Rattle.object_retirement.specs.Stood.{has_start};
ghost use Rattle.repository_core.specs.Logs.{marks};
ghost use Rattle.serial_law.specs.Wholes.{whole_log, with_puts};
ghost use Rattle.log_replay.specs.Folders.{items_of};
ghost use Rattle.log_replay.specs.Whole.{IsWhole, is_new, start_cmp, whole_in};

use effect_form::Effect;
use pseudo_time::PseudoTime;
use std::alloc::{AllocError, Global};
use std::collections::BTreeMap;
use value_form::ObjectId;

/// The object and the start of a version.
#[derive(Clone, Copy, PartialEq, Eq, PartialOrd, Ord)]
pub(crate) struct Start {
    pub object: ObjectId,
    pub start: PseudoTime,
}

/// A log, and the objects and starts of its versions.
#[derive(Drop)]
pub(crate) struct Whole {
    pub log: Vec<Effect>,
    pub met: BTreeMap<Start, ()>,
}

impl Whole {
    // An empty log.
    fn new(alloc: Global) -> Whole
        ensures { IsWhole [] result }
    {
        Whole {
            log: Vec::new(alloc),
            met: BTreeMap::new(alloc),
        }
    }

    // Meets the version that an effect puts.
    fn meet(&mut self, effect: &Effect) -> Result<(), AllocError>
        ensures log { self.new.log ≡ self.old.log }
        ensures met { (log : List AnEffect) → IsWhole log self.old →
            OnOk result ((o : _) (x : _) → is_some (get start_cmp self.new.met (record { object = o; start = x })) ≡
            has_start o x (marks (effect.now ∷ log))) }
    {
        match effect {
            Effect::Put { object, start, .. } => {
                let start = Start {
                    object: *object,
                    start: *start,
                };
                self.met.insert(start, ())?;
                Ok(())
            }
            _ => Ok(()),
        }
    }

    // Adds an effect.
    fn add(&mut self, effect: Effect) -> Result<(), AllocError>
        ensures { (log : List AnEffect) → IsWhole log self.old → OnOk result (IsWhole (effect ∷ log) self.new) }
    {
        self.meet(&effect)?;
        self.log.push(effect)?;
        Ok(())
    }

    // Whether an effect puts a version that the log lacks.
    fn lacks(&self, effect: &Effect) -> bool
        ensures { (log : List AnEffect) → IsWhole log self.now → result ≡ is_new effect.now log }
    {
        match effect {
            Effect::Put { object, start, .. } => {
                let start = Start {
                    object: *object,
                    start: *start,
                };
                !self.met.contains_key(&start)
            }
            _ => false,
        }
    }

    // Adds an effect of an older log, if it puts a version that this one lacks.
    fn add_old(&mut self, alloc: Global, effect: &Effect) -> Result<(), AllocError>
        ensures { (met older : List AnEffect) → IsWhole (with_puts met older) self.old →
            OnOk result (IsWhole (with_puts met (effect.now ∷ older)) self.new) }
    {
        if self.lacks(effect) {
            let effect = effect.copy(alloc)?;
            self.add(effect)?;
        }
        Ok(())
    }

    // Adds the versions of an older log, which stands oldest first, that this one lacks.
    fn add_log(&mut self, alloc: Global, older: &[Effect]) -> Result<(), AllocError>
        ensures { (met : List AnEffect) → IsWhole met self.old →
            OnOk result (IsWhole (with_puts met (reverse older.now)) self.new) }
    {
        for effect in older {
            self.add_old(alloc, effect)?;
        }
        Ok(())
    }
}

// A log with the objects and starts of its versions.
fn alone(alloc: Global, log: Vec<Effect>) -> Result<Whole, AllocError>
    ensures { IfOk result (IsWhole (reverse log.items)) }
{
    let mut whole = Whole::new(alloc);
    let mut left = log;
    left.reverse();
    while let Some(effect) = left.pop() {
        whole.add(effect)?;
    }
    Ok(whole)
}

// A log with the versions of older ones that it lacks. All stand oldest first, in their order.
fn with_olds(alloc: Global, log: Vec<Effect>, olds: &[Vec<Effect>]) -> Result<Whole, AllocError>
    ensures { IfOk result (IsWhole (whole_log (map reverse (reverse (items_of olds.now))) (reverse log.items))) }
{
    let mut whole = alone(alloc, log)?;
    for old in olds {
        whole.add_log(alloc, old.as_slice())?;
    }
    Ok(whole)
}

/// The last of these logs with the versions of those before it that it lacks, each object and start once. All stand
/// oldest first. Without any it is empty.
pub fn whole_of(alloc: Global, logs: Vec<Vec<Effect>>) -> Result<Vec<Effect>, AllocError>
    ensures { IfOk result (λ log. log.items ≡ whole_in (items_of logs.items)) }
{
    let mut olds = logs;
    let Some(log) = olds.pop() else {
        return Ok(Vec::new(alloc));
    };
    if olds.is_empty() {
        return Ok(log);
    }
    let Whole { log, met: _ } = with_olds(alloc, log, olds.as_slice())?;
    Ok(log)
}
