//! The commit records that a log has.
ghost use Rattle.std.specs.Prelude.{◌≡◌, [], ◌∷◌, None, IfOk, OnOk, List, reverse};
ghost use Rattle.std.specs.FinMap as finite;
ghost use Rattle.pseudo_time.specs.StampParts.{StampParts};
ghost use Rattle.effect_form.specs.declared.effects.Effect.{Effect};
ghost use Rattle.commit_record.specs.States.{settled, listed_at};
ghost use Rattle.repository_log.specs.Logs as logs;
ghost use Rattle.repository_log.specs.Opening.{kept_after, AreBegun, AreDecided, AreKept, AreRecords, AreEarly};

use commit_record::Records;
use effect_form::Effect;
use pseudo_time::{Decision, Stamp};
use std::alloc::{AllocError, Global};
use std::collections::BTreeMap;

/// The commit records that a log has, and the decisions of attempts that haven't begun there. The
/// log stands oldest first.
pub fn records_of(
    alloc: Global,
    effects: &[Effect],
) -> Result<(Records, BTreeMap<Stamp, Decision>), AllocError>
    ensures records { IfOk result (λ r. AreRecords (reverse effects.now) r.0) }
    ensures early { IfOk result (λ r. AreEarly (reverse effects.now) r.1.entries) }
{
    let mut records = open_records(alloc, effects)?;
    let mut early = BTreeMap::new(alloc);
    decide_records(&mut records, &mut early, effects)?;
    Ok((records, early))
}

// A record for each Begin, undecided.
fn open_records(alloc: Global, effects: &[Effect]) -> Result<Records, AllocError>
    ensures { IfOk result (AreBegun (reverse effects.now)) }
{
    let mut records = Records::new(alloc);
    for effect in effects {
        add_begin(&mut records, effect)?;
    }
    Ok(records)
}

// A record, if the effect begins one.
fn add_begin(records: &mut Records, effect: &Effect) -> Result<(), AllocError>
    ensures { (part : List Effect) → AreBegun part records.old →
        OnOk result (AreBegun (effect.now ∷ part) records.new) }
{
    match begun_by(effect) {
        None => Ok(()),
        Some(begun) => {
            records.begin(begun.0, begun.1)?;
            Ok(())
        }
    }
}

// The records are decided as the log says, and its other decisions are kept.
fn decide_records(
    records: &mut Records,
    early: &mut BTreeMap<Stamp, Decision>,
    effects: &[Effect],
) -> Result<(), AllocError>
    requires begun { AreBegun (reverse effects.now) records.old }
    requires empty { early.old.entries ≡ [] }
    ensures records { OnOk result (AreDecided (reverse effects.now) (reverse effects.now) records.new) }
    ensures early { OnOk result (AreKept (reverse effects.now) (reverse effects.now) early.new.entries) }
{
    for effect in effects {
        add_decision(records, early, effect)?;
    }
    Ok(())
}

// A decision, if the effect makes or learns one.
fn add_decision(
    records: &mut Records,
    early: &mut BTreeMap<Stamp, Decision>,
    effect: &Effect,
) -> Result<(), AllocError>
    ensures records { (whole part : List Effect) → AreDecided whole part records.old →
        OnOk result (AreDecided whole (effect.now ∷ part) records.new) }
    ensures early { (whole part : List Effect) → AreDecided whole part records.old →
        AreKept whole part early.old.entries →
        OnOk result (AreKept whole (effect.now ∷ part) early.new.entries) }
{
    match decided_by(effect) {
        None => Ok(()),
        Some(decided) => {
            decide_record(records, early, decided.0, decided.1)?;
            Ok(())
        }
    }
}

// Decides a record, or keeps the decision of an attempt that has none; the first one counts.
fn decide_record(
    records: &mut Records,
    early: &mut BTreeMap<Stamp, Decision>,
    stamp: Stamp,
    decision: Decision,
) -> Result<(), AllocError>
    ensures records { OnOk result (records.new ≡ settled records.old stamp decision) }
    ensures early { OnOk result ((q : StampParts) →
        listed_at early.new.entries q ≡ kept_after (finite.get records.old stamp) stamp decision
        (listed_at early.old.entries q) q) }
{
    if records.restore(stamp, decision).is_some() {
        return Ok(());
    }
    keep_first(early, stamp, decision)
}

// Keeps the decision of an attempt, unless one is kept.
fn keep_first(
    early: &mut BTreeMap<Stamp, Decision>,
    stamp: Stamp,
    decision: Decision,
) -> Result<(), AllocError>
    ensures { OnOk result ((q : StampParts) → listed_at early.new.entries q ≡ kept_after None stamp decision
        (listed_at early.old.entries q) q) }
{
    if early.get(&stamp).is_none() {
        early.insert(stamp, decision)?;
    }
    Ok(())
}

/// The attempt whose record an effect begins, with the deadline.
pub fn begun_by(effect: &Effect) -> Option<(Stamp, u64)>
    ensures { result ≡ logs.begun_by effect.now }
{
    match effect {
        Effect::Begin { stamp, deadline } => Some((*stamp, *deadline)),
        _ => None,
    }
}

/// The attempt that an effect decides, with the decision.
pub fn decided_by(effect: &Effect) -> Option<(Stamp, Decision)>
    ensures { result ≡ logs.decided_by effect.now }
{
    match effect {
        Effect::Decide { stamp, decision } => Some((*stamp, *decision)),
        Effect::Learn { stamp, committed } => Some((*stamp, learned(*committed))),
        _ => None,
    }
}

/// Whether a decision commits.
pub fn is_commit(decision: Decision) -> bool
    ensures { result ≡ logs.is_commit decision }
{
    match decision {
        Decision::Committed => true,
        Decision::Withdrawn => false,
        Decision::Expired { .. } => false,
    }
}

/// What was learned, as a decision.
pub fn learned(committed: bool) -> Decision
    ensures { result ≡ logs.as_decision committed }
{
    if committed {
        Decision::Committed
    } else {
        Decision::Withdrawn
    }
}
