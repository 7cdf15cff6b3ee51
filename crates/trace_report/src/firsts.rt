//! What logs say first of an attempt's decision.
ghost use Rattle.std.specs.Prelude.{◌≡◌, ◌∷◌, List, Some, reverse, IfOk, OnOk};
ghost use Rattle.effect_form.specs.declared.effects.Effect.{Effect};
ghost use Rattle.std.specs.FinMap as finite;
ghost use Rattle.trace_report.specs.Firsts as spec;
ghost use Rattle.trace_report.specs.Firsts.{AreFirsts};

use effect_form::Effect;
use pseudo_time::Stamp;
use repository_log::is_commit;
use std::alloc::{AllocError, Global};
use std::collections::BTreeMap;
use std::marker::Model;

/// What a log says first of how an attempt was decided.
#[derive(Clone, Copy, Debug, PartialEq, Eq)]
pub enum First {
    /// It was decided here: committed or not.
    Decided(bool),
    /// It was learned: committed or not.
    Learned(bool),
}

/// What a log says first of each attempt.
#[derive(Drop)]
pub struct Firsts {
    entries: BTreeMap<Stamp, First>,
}

impl Model for Firsts {
    ghost use Rattle.std.specs.FinMap as finite;
    ghost use Rattle.std.specs.Coded.{codes};
    ghost use Rattle.pseudo_time.specs.StampParts.{stamp_cmp};
    ghost use Rattle.pseudo_time.specs.contracts.stamps.Stamp as stamp;
    ghost use Rattle.trace_report.specs.contracts.firsts.First as first;
    ghost use Rattle.trace_report.specs.Firsts.{Said};

    ghost Value = { Said };

    ghost coded = { finite.code stamp.the_row.coded first.the_row.coded };

    ghost view = { λ f. finite.from_entries {R = stamp_cmp} f.entries.entries };
}

// Whether that is a decision, and it is committed.
fn is_decided(first: Option<First>) -> bool
    ensures { result ≡ spec.is_decided first }
{
    match first {
        Some(First::Decided(committed)) => committed,
        _ => false,
    }
}

// Whether that was learned, and it is committed.
fn is_learned(first: Option<First>) -> bool
    ensures { result ≡ spec.is_learned first }
{
    match first {
        Some(First::Learned(committed)) => committed,
        _ => false,
    }
}

impl Firsts {
    // Nothing was said.
    fn new(alloc: Global) -> Firsts
        ensures { result ≡ finite.empty }
    {
        Firsts {
            entries: BTreeMap::new(alloc),
        }
    }

    // What was said first of the attempt.
    fn get(&self, stamp: Stamp) -> Option<First>
        ensures { result ≡ finite.get self.now stamp }
    {
        self.entries.get(&stamp).copied()
    }

    fn put(&mut self, stamp: Stamp, first: First) -> Result<(), AllocError>
        ensures { OnOk result (self.new ≡ finite.insert self.old stamp first) }
    {
        self.entries.insert(stamp, first)?;
        Ok(())
    }

    // This is said of the attempt. What was said first counts.
    fn say(&mut self, stamp: Stamp, first: First) -> Result<(), AllocError>
        ensures { (log : List Effect) (f : Effect) → spec.said_by f ≡ Some (stamp, first) → AreFirsts log self.old →
            OnOk result (AreFirsts (f ∷ log) self.new) }
    {
        if self.get(stamp).is_none() {
            self.put(stamp, first)?;
        }
        Ok(())
    }

    // One effect more.
    fn add(&mut self, effect: &Effect) -> Result<(), AllocError>
        ensures { (log : List Effect) → AreFirsts log self.old → OnOk result (AreFirsts (effect.now ∷ log) self.new) }
    {
        match effect {
            Effect::Decide { stamp, decision } => {
                self.say(*stamp, First::Decided(is_commit(*decision)))
            }
            Effect::Learn { stamp, committed } => self.say(*stamp, First::Learned(*committed)),
            _ => Ok(()),
        }
    }

    /// Of a log, which stands oldest first.
    pub fn of(alloc: Global, effects: &[Effect]) -> Result<Firsts, AllocError>
        ensures { IfOk result (AreFirsts (reverse effects.now)) }
    {
        let mut firsts = Firsts::new(alloc);
        for effect in effects {
            firsts.add(effect)?;
        }
        Ok(firsts)
    }

    /// Whether the first that the log says of the attempt is its Decide Committed.
    pub fn has_commit(&self, stamp: Stamp) -> bool
        ensures { result ≡ spec.is_decided (finite.get self.now stamp) }
    {
        is_decided(self.get(stamp))
    }

    /// And that it was learned as committed.
    pub fn has_learned(&self, stamp: Stamp) -> bool
        ensures { result ≡ spec.is_learned (finite.get self.now stamp) }
    {
        is_learned(self.get(stamp))
    }
}
